use arith_word::{BinOp, CastOp, Label, List, Pred, Text, Width};
use sqlite_items::Items;

/// A type of a value: an integer of 1 to 64 bits, or `index`, which is 64 bits wide.
#[derive(Clone, Copy, Debug, PartialEq, Eq)]
pub enum IrType {
    Int(Width),
    Index,
}

/// An argument of a function, a loop or a region. Names of a declaration's arguments may be empty.
#[derive(Debug, Drop)]
pub struct Arg {
    pub name: Text,
    pub ty: IrType,
}

/// A name with the number of results that it stands for, `%name:count`.
#[derive(Debug, Drop)]
pub struct Pack {
    pub name: Text,
    pub count: u8,
}

/// The overflow flags of an operation, `overflow<nsw, nuw>`.
#[derive(Clone, Copy, Debug, PartialEq, Eq)]
pub struct Flags {
    pub nsw: bool,
    pub nuw: bool,
}

/// A function, or a declaration where it has no body.
#[derive(Debug, Drop)]
pub struct Func {
    /// The function's place in its module.
    pub index: u8,
    pub name: Text,
    pub private: bool,
    pub args: List<Arg>,
    pub results: List<IrType>,
    pub body: Option<Body>,
}

/// The items of a function, numbered from 1, and the values that it returns.
#[derive(Debug, Drop)]
pub struct Body {
    pub items: List<Item>,
    pub ret: List<Label>,
}

/// The operations that stand for one top operation of the text.
#[derive(Debug, Drop)]
pub struct Item {
    pub ops: Items<Op>,
}

/// The operations of a region, and the values that its terminator gives on.
#[cycle(ir)]
#[derive(Debug, Drop)]
pub struct Region {
    pub ops: Items<Op>,
    pub ends: List<Label>,
}

/// An operation with the names and the types of its results.
#[cycle(ir)]
#[derive(Debug, Drop)]
pub struct Op {
    pub packs: List<Pack>,
    pub results: List<IrType>,
    pub kind: Kind,
}

/// What an operation does. Operands are the labels of the values that are used.
#[cycle(ir)]
#[derive(Debug, Drop)]
pub enum Kind {
    /// `arith.constant`, by its unsigned reading.
    Const(u64),
    /// An operation of `arith` on two words.
    Bin(BinOp, Flags, Label, Label),
    /// A change of width.
    Cast(CastOp, Flags, Label),
    /// `arith.cmpi`.
    Cmp(Pred, Label, Label),
    /// `arith.select`: the condition, then the values where it is 1 and where it is 0.
    Select(Label, Label, Label),
    /// `func.call` of the function with that index.
    Call(u16, List<Label>),
    /// `scf.if`: the condition, the region where it is 1, and that of `else`.
    If(Label, Region, Option<Region>),
    /// `scf.for`.
    For(ForParts),
    /// `scf.while`.
    While(WhileParts),
}

/// The parts of an `scf.for`.
#[cycle(ir)]
#[derive(Debug, Drop)]
pub struct ForParts {
    pub lower: Label,
    pub upper: Label,
    pub step: Label,
    /// The induction variable.
    pub iv: Arg,
    /// The arguments that the loop carries, `iter_args`.
    pub args: List<Arg>,
    pub inits: List<Label>,
    pub body: Region,
}

/// The parts of an `scf.while`.
#[cycle(ir)]
#[derive(Debug, Drop)]
pub struct WhileParts {
    pub args: List<Arg>,
    pub inits: List<Label>,
    /// The region of the condition; its `ends` are the values that `scf.condition` passes.
    pub before: Region,
    pub cond: Label,
    /// The parameters of the `do` region.
    pub after_args: List<Arg>,
    pub after: Region,
}
