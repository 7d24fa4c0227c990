ghost use Rattle.std.specs.Prelude.{◌≡◌};
ghost use Rattle.scev_server.specs.Shown.{state_of};
ghost use Rattle.scev_server.specs.Walk.{start};

use arith_word::Text;
use scev_tree::Expr;
use std::alloc::Global;

/// A name that a session holds, with its expression.
#[derive(Drop)]
pub struct Held<'a> {
    pub name: &'a Text,
    pub expr: Expr,
}

/// What a session has come to: the names that it holds. It is pinned to version 0, since no version
/// is published.
#[derive(Drop)]
pub struct State<'a> {
    pub held: Vec<Held<'a>>,
}

impl<'a> State<'a> {
    /// What a session begins with.
    pub fn new(alloc: Global) -> State<'a>
        ensures { state_of result ≡ start }
    {
        State {
            held: Vec::new(alloc),
        }
    }
}
