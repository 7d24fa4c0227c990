ghost use Rattle.std.specs.Prelude.{◌≡◌, ◌+◌, ◌<◌, ◌^◌, true, false, length, IfOk, OnOk};
ghost use Rattle.pass_copy.specs.Copied.{HaveGiven, fresh_by, naming};
ghost use Rattle.pass_copy.specs.Fresh.{first_free, fresh_names, numbered_name};
ghost use Rattle.pass_copy.specs.Listed.{texts};

use crate::given::names_in;
use crate::names::Names;
use crate::taken::Taken;
use arith_word::Text;
use mlir_ir::Func;
use std::alloc::{AllocError, Global};

/// The most values of a function whose names are kept apart.
const MAX_TAKEN: usize = 1 << 31;

/// The fresh name with that number.
fn numbered(alloc: Global, n: u64) -> Result<Text, AllocError>
    ensures { IfOk result (λ made. made ≡ numbered_name n) }
{
    Ok(Text::from_string(format!(in alloc; "v{n}")?))
}

impl<'f> Names<'f> {
    /// Each name as it is.
    pub fn kept(alloc: Global) -> Names<'f>
        ensures kept { result.kept ≡ true }
        ensures given { result.given ≡ 0 }
    {
        Names {
            taken: Taken::new(alloc),
            kept: true,
            given: 0,
            next: 0,
        }
    }

    /// The fresh names of a function, from the first on.
    ///
    /// # Errors
    ///
    /// Where memory is refused. The same error stands for a function of 2^31 values or more.
    pub fn fresh(alloc: Global, f: &'f Func) -> Result<Names<'f>, AllocError>
        ensures kept { IfOk result (λ names. names.kept ≡ false) }
        ensures names { IfOk result (λ names. fresh_by names ≡ fresh_names f.now) }
        ensures given { IfOk result (λ names. names.given ≡ 0) }
    {
        let taken = names_in(alloc, f)?;
        if taken.len() >= MAX_TAKEN {
            return Err(AllocError);
        }
        Ok(Names {
            taken,
            kept: false,
            given: 0,
            next: 0,
        })
    }

    /// The first number from the given one on whose name is not taken.
    fn free_from(&self, alloc: Global, from: u64) -> Result<u64, AllocError>
        requires { from + length (texts self.now.taken.names.items) < 2 ^ 64 }
        ensures { IfOk result (λ n.
            n ≡ first_free (texts self.now.taken.names.items) (length (texts self.now.taken.names.items)) from) }
    {
        let mut n = from;
        for _try in 0..self.taken.len() {
            let name = numbered(alloc, n)?;
            if !self.taken.contains(name.as_bytes()) {
                return Ok(n);
            }
            n += 1;
        }
        Ok(n)
    }

    /// The next fresh name.
    ///
    /// # Errors
    ///
    /// Where memory is refused. The same error stands for more than 2^32 names.
    pub fn fresh_name(&mut self, alloc: Global) -> Result<Text, AllocError>
        requires { self.old.kept ≡ false }
        ensures name { IfOk result (λ made. made ≡ fresh_by self.old self.old.given) }
        ensures given { OnOk result (HaveGiven self.old 1 self.new) }
    {
        if self.given == u32::MAX {
            return Err(AllocError);
        }
        let n = self.free_from(alloc, self.next)?;
        let made = numbered(alloc, n)?;
        self.next = n + 1;
        self.given += 1;
        Ok(made)
    }

    /// The name in place of the given one.
    ///
    /// # Errors
    ///
    /// Where memory is refused. The same error stands for more than 2^32 names.
    pub fn name(&mut self, alloc: Global, name: &Text) -> Result<Text, AllocError>
        ensures name { IfOk result (λ made. made ≡ naming self.old self.old.given name.now) }
        ensures given { OnOk result (HaveGiven self.old 1 self.new) }
    {
        if !self.kept {
            return self.fresh_name(alloc);
        }
        if self.given == u32::MAX {
            return Err(AllocError);
        }
        let made = Text::from_str(alloc, name.as_str())?;
        self.given += 1;
        Ok(made)
    }
}
