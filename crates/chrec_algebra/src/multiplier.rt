use arith_word::Width;
use scev_tree::Variable;

/// What products of polynomials in the variable x are multiplied by before they are added: c,
/// modulo 2 to the width.
#[derive(Debug, Drop)]
pub struct Multiplier {
    pub w: Width,
    pub c: u64,
    pub x: Variable,
}
