use scev_script::{RefusalName, Reply};
use scev_tree::Expr;

/// What a module says to a command that asks for an expression: a refusal, or the reply and the
/// expression.
#[derive(Drop)]
pub enum Ask {
    Refused(RefusalName),
    Granted(Reply, Expr),
}
