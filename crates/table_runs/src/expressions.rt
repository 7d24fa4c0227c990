use crate::session::Session;
use arith_word::{Label, Width};
use scev_tree::{Expr, chain, same};
use shared_table::Node;
use std::alloc::{AllocError, Global};
use uniquing::{intern, read, same_node};

/// How many expressions each session interns, more than 64 cells have room for.
pub const EXPRESSIONS: u64 = 40;

/// The width of the expressions.
const BITS: u32 = 32;

/// The expression number n. Expressions have numbers and lists of places in common.
fn expression(alloc: Global, n: u64) -> Result<Option<Expr>, AllocError> {
    let Some(width) = Width::new(BITS) else {
        return Ok(None);
    };
    let e = chain(alloc, width, Label(3), &[n % 4, n / 4, 7])?;
    Ok(Some(e))
}

impl Session<'_> {
    /// Interns the expressions from one on and round the end, and reads each back.
    pub fn intern_all(&mut self, alloc: Global, from: u64) {
        for k in 0..EXPRESSIONS {
            let n = (from % EXPRESSIONS + k) % EXPRESSIONS;
            let Ok(Some(e)) = expression(alloc, n) else {
                self.exact = false;
                return;
            };
            let home = self.interned(alloc, &e);
            if self.homes.push((n, home)).is_err() {
                return;
            }
        }
    }

    /// The number of an expression's node, or `u32::MAX` where all cells are full. Where it isn't
    /// read back as the expression, the session isn't exact.
    fn interned(&mut self, alloc: Global, e: &Expr) -> u32 {
        let Some(_author) = self.pass.author() else {
            return u32::MAX;
        };
        let Ok(node) = intern(self.shared, &mut self.pass, e) else {
            return u32::MAX;
        };
        match read(alloc, self.shared, &mut self.pass, node) {
            Ok(back) => self.exact = self.exact && same(&back, e),
            Err(_) => self.exact = false,
        }
        node.0
    }

    /// The node of an expression, where there is room for it.
    pub fn node_of(&mut self, e: &Expr) -> Option<Node> {
        let Some(_author) = self.pass.author() else {
            return None;
        };
        intern(self.shared, &mut self.pass, e).ok()
    }

    /// Interns an expression twice, and reads it back. Answers whether it has one node, which
    /// stands for it.
    pub fn has_one_node(&mut self, alloc: Global, e: &Expr) -> Result<bool, AllocError> {
        let Some(_author) = self.pass.author() else {
            return Ok(false);
        };
        let Ok(first) = intern(self.shared, &mut self.pass, e) else {
            return Ok(false);
        };
        let Ok(second) = intern(self.shared, &mut self.pass, e) else {
            return Ok(false);
        };
        let back = read(alloc, self.shared, &mut self.pass, second)?;
        Ok(same_node(first, second) && same(&back, e))
    }
}
