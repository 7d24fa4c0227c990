use arith_word::{List, Text};

/// A value as a command names it: the definition of the name by number, from 1 in the order of the
/// labels, and which result of its pack, from 0. No value has the number 0.
#[derive(Debug, Drop)]
pub struct ValueName {
    pub name: Text,
    pub nth: u32,
    pub result: u32,
}

/// The version that a session is to be pinned to.
#[derive(Clone, Copy, Debug, PartialEq, Eq)]
pub enum Pin {
    Latest,
    At(u16),
}

/// A command of a session. Functions and values have their names without `@` and `%`.
#[derive(Debug, Drop)]
pub enum Command {
    /// `pin latest` or `pin K`.
    Pin(Pin),
    /// `scev @f %v`: the expression of a value.
    Scev(Text, ValueName),
    /// `at @f %v #L N`: the expression at iteration N of a loop.
    At(Text, ValueName, u16, u64),
    /// `turns @f #L`: the trip count of a loop.
    Turns(Text, u16),
    /// `run @f B A1 A2 / R1 R2`: a run with a budget, arguments and replies. A number below zero is kept
    /// modulo 2^64.
    Run(Text, u32, List<u64>, List<u64>),
    /// `forget @f #L`: forgets what was kept of a loop.
    Forget(Text, u16),
    /// `hold NAME @f %v`: holds the expression of a value under a name.
    Hold(Text, Text, ValueName),
    /// `print @f`: the text of a function.
    Print(Text),
}

/// A session with its commands in order.
#[derive(Debug, Drop)]
pub struct Script {
    pub name: Text,
    pub commands: List<Command>,
}

/// What an input says: where its module ends, and the sessions in order.
#[derive(Debug, Drop)]
pub struct Input {
    pub module_end: u32,
    pub sessions: List<Script>,
}
