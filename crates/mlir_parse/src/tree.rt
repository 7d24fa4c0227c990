ghost use Rattle.std.specs.Prelude.{◌≡◌, ◌<◌, ◌^◌, length, MatchResult};
ghost use Rattle.mlir_ir.specs.Trees.{IsTreeOf, put, none};
ghost use Rattle.mlir_parse.specs.Seen.{AreLines, IsFault};

use crate::fault::Fault;
use crate::read::{Source, line_rule, read};
use crate::rule::Rule;
use mlir_ir::{Branch, Form, Terminal};
use std::alloc::Global;

/// The tree of the tokens, or their syntax error.
#[tactic(auto, using(crate::proofs::Roots::fault_is, crate::proofs::Roots::early_end, crate::proofs::Roots::whole_tree))]
pub fn tree_of(alloc: Global, lines: &[Rule], tokens: &[Terminal]) -> Result<Branch, Fault>
    requires lines { AreLines lines.now }
    requires few { length tokens.now < 2 ^ 32 }
    ensures { MatchResult result (λ root. IsTreeOf tokens.now (put root none))
        (λ e. IsFault tokens.now e) }
{
    let whole = line_rule(lines, Form::Whole);
    let mut parts = Vec::new(alloc);
    match read(alloc, &mut parts, &Source { lines, tokens }, whole, 0, 0) {
        Err(fault) => Err(fault),
        Ok(next) => {
            if next < tokens.len() {
                Err(Fault::Syntax(next))
            } else {
                Ok(Branch::line(Form::Whole, 0, parts))
            }
        }
    }
}
