ghost use Rattle.std.specs.Prelude.{◌≡◌};
ghost use Rattle.mlir_ir.specs.GrammarNumbers as numbers;

use crate::token::Token;
use arith_word::List;
use std::alloc::Global;

/// What a place of the tree is: a token, or a line of the grammar.
#[derive(Clone, Copy, Debug, PartialEq, Eq)]
pub enum Form {
    /// A token.
    Leaf,
    /// The whole text.
    Whole,
    /// A function or a declaration.
    Func,
    /// Arguments with their types.
    Params,
    /// Types, parted by commas.
    Types,
    /// Result types.
    Results,
    /// One type.
    TypeName,
    /// The body of a function.
    Body,
    /// Values with their types behind a terminator.
    Ends,
    /// Values, parted by commas.
    Uses,
    /// One value.
    Use,
    /// An operation with the names of its results.
    Op,
    /// A name with the number of results that it stands for.
    Pack,
    /// An operation without its results.
    Kind,
    /// Arguments with their first values.
    Inits,
    /// A region of an `scf` operation.
    Region,
    /// Overflow flags.
    Flags,
}

/// The index of the form's production.
pub fn form_number(form: Form) -> usize
    ensures { result ≡ numbers.form_at form }
{
    match form {
        Form::Leaf => 0,
        Form::Whole => 1,
        Form::Func => 2,
        Form::Params => 3,
        Form::Types => 4,
        Form::Results => 5,
        Form::TypeName => 6,
        Form::Body => 7,
        Form::Ends => 8,
        Form::Uses => 9,
        Form::Use => 10,
        Form::Op => 11,
        Form::Pack => 12,
        Form::Kind => 13,
        Form::Inits => 14,
        Form::Region => 15,
        Form::Flags => 16,
    }
}

/// Whether two forms are the same.
pub fn is_same_form(a: Form, b: Form) -> bool
    ensures { result ≡ numbers.same_form a b }
{
    form_number(a) == form_number(b)
}

/// One place of the tree. The parts of a line are the tokens and lines that it was made of, in the
/// order of the text; a token has none.
#[derive(Debug, Drop)]
pub struct Branch {
    pub form: Form,
    /// The place of the branch's first token among the tokens, 0 for the empty text.
    pub token: u32,
    pub parts: Vec<Branch>,
}

impl Branch {
    ghost use Rattle.mlir_ir.specs.Trees.{Forest, none, node, put, forest};
    ghost use Rattle.mlir_ir.specs.declared.syntax.Form.TheVariants.{Leaf};

    /// The branch of a token.
    #[tactic(auto, using(crate::proofs::Branches::put_is))]
    pub fn leaf(alloc: Global, token: u32) -> Branch
        ensures { (rest : Forest) → put result rest ≡ node Leaf token none rest }
    {
        Branch {
            form: Form::Leaf,
            token,
            parts: Vec::new(alloc),
        }
    }

    /// The branch of a line.
    #[tactic(auto, using(crate::proofs::Branches::put_is))]
    pub fn line(form: Form, token: u32, parts: Vec<Branch>) -> Branch
        ensures { (rest : Forest)
            → put result rest ≡ node form token (forest parts.items) rest }
    {
        Branch { form, token, parts }
    }
}

/// The tokens of a text, the text's length in bytes, and the tree that derives them.
#[derive(Debug, Drop)]
pub struct Syntax {
    pub tokens: List<Token>,
    pub length: u32,
    pub root: Branch,
}

impl Syntax {
    ghost use Rattle.mlir_ir.specs.Syntaxes.{place_of};

    /// The byte where the token begins; the text's length for the end.
    pub fn place(&self, token: u32) -> u32
        ensures { result ≡ place_of self.now.tokens self.now.length token }
    {
        match self.tokens.as_slice().get(token as usize) {
            Some(token) => token.from,
            None => self.length,
        }
    }
}
