ghost use Rattle.std.specs.Prelude.{◌≡◌, ◌≤◌, ◌<◌, ◌^◌, true, length, drop, IfOk};
ghost use Rattle.mlir_ir.specs.Grammar.{one, line, both, maybe, many, region, body};
ghost use Rattle.mlir_ir.specs.Limits.{region_limit};
ghost use Rattle.mlir_parse.specs.Seen.{seen, AreLines, Gives, Grows, IsMarked};
ghost use Rattle.mlir_parse.specs.Runs.{starts, is_next};
ghost use Rattle.mlir_parse.specs.Tables.{weight, first_set};
ghost use Rattle.mlir_ir.specs.declared.terminal.Terminal.TheVariants.{Pick};
ghost use Rattle.mlir_ir.specs.declared.syntax.Form.TheVariants.{TypeName, Use};

use crate::fault::Fault;
use crate::rule::{Rule, has};
use mlir_ir::limits::REGION_LIMIT;
use mlir_ir::{Branch, Form, Terminal, form_number, is_same_terminal};
use std::alloc::Global;

/// The productions of the grammar, and the tokens to read.
#[derive(Clone, Copy)]
pub struct Source<'a> {
    pub lines: &'a [Rule],
    pub tokens: &'a [Terminal],
}

/// Whether a match of the rule, whose first set is given, may begin at the token index.
#[tactic(auto, using(crate::proofs::Places::starts_none))]
fn may_begin(rule: &Rule, set: u64, tokens: &[Terminal], at: usize) -> bool
    requires { set ≡ first_set (seen rule.now) }
    ensures { result ≡ starts (seen rule.now) (drop at tokens.now) }
{
    at < tokens.len() && has(set, tokens[at])
}

/// Whether the token at the index is the terminal.
#[tactic(auto, using(crate::proofs::Places::next_here, crate::proofs::Places::next_none))]
fn next_is(terminal: Terminal, tokens: &[Terminal], at: usize) -> bool
    ensures { result ≡ is_next terminal (drop at tokens.now) }
{
    at < tokens.len() && is_same_terminal(terminal, tokens[at])
}

/// Reads one token, and appends its branch.
#[tactic(auto, using(crate::proofs::Gives::gives_one, crate::proofs::Gives::gives_other))]
fn read_one(
    alloc: Global,
    out: &mut Vec<Branch>,
    terminal: Terminal,
    depth: usize,
    tokens: &[Terminal],
    at: usize,
) -> Result<usize, Fault>
    requires within { at ≤ length tokens.now }
    requires few { length tokens.now < 2 ^ 32 }
    ensures gives { Gives depth (one terminal) tokens.now at result }
    ensures grows { IfOk result
        (Grows tokens.now depth (one terminal) at out.old.items out.new.items) }
{
    if next_is(terminal, tokens, at) {
        out.push(Branch::leaf(alloc, at as u32))?;
        Ok(at + 1)
    } else {
        Err(Fault::Syntax(at))
    }
}

/// The right-hand side of the form's production.
pub fn line_rule(lines: &[Rule], form: Form) -> &Rule
    requires { AreLines lines.now }
    ensures is { seen result.now ≡ body form }
    ensures marked { IsMarked result.now }
{
    &lines[form_number(form)]
}

/// Reads a type, and appends its branch.
fn read_type_name(
    alloc: Global,
    out: &mut Vec<Branch>,
    depth: usize,
    tokens: &[Terminal],
    at: usize,
) -> Result<usize, Fault>
    requires within { at ≤ length tokens.now }
    requires few { length tokens.now < 2 ^ 32 }
    ensures gives { Gives depth (line TypeName) tokens.now at result }
    ensures grows { IfOk result
        (Grows tokens.now depth (line TypeName) at out.old.items out.new.items) }
{
    let mut parts = Vec::with_capacity(alloc, 1)?;
    match read_one(alloc, &mut parts, Terminal::TypeWord, depth, tokens, at) {
        Err(fault) => Err(fault),
        Ok(next) => {
            out.push(Branch::line(Form::TypeName, at as u32, parts))?;
            Ok(next)
        }
    }
}

/// Reads the pick after a value, if there is one, and appends its branch.
#[tactic(auto, using(crate::proofs::Gives::gives_left, crate::proofs::Places::starts_one))]
fn read_pick(
    alloc: Global,
    parts: &mut Vec<Branch>,
    depth: usize,
    tokens: &[Terminal],
    at: usize,
) -> Result<usize, Fault>
    requires within { at ≤ length tokens.now }
    requires few { length tokens.now < 2 ^ 32 }
    ensures gives { Gives depth (maybe (one Pick)) tokens.now at result }
    ensures grows { IfOk result
        (Grows tokens.now depth (maybe (one Pick)) at parts.old.items parts.new.items) }
{
    if next_is(Terminal::Pick, tokens, at) {
        read_one(alloc, parts, Terminal::Pick, depth, tokens, at)
    } else {
        Ok(at)
    }
}

/// Reads a use of a value, and appends its branch.
fn read_use(
    alloc: Global,
    out: &mut Vec<Branch>,
    depth: usize,
    tokens: &[Terminal],
    at: usize,
) -> Result<usize, Fault>
    requires within { at ≤ length tokens.now }
    requires few { length tokens.now < 2 ^ 32 }
    ensures gives { Gives depth (line Use) tokens.now at result }
    ensures grows { IfOk result (Grows tokens.now depth (line Use) at out.old.items out.new.items) }
{
    let mut parts = Vec::with_capacity(alloc, 1)?;
    match read_one(alloc, &mut parts, Terminal::Value, depth, tokens, at) {
        Err(fault) => Err(fault),
        Ok(mid) => match read_pick(alloc, &mut parts, depth, tokens, mid) {
            Err(fault) => Err(fault),
            Ok(next) => {
                out.push(Branch::line(Form::Use, at as u32, parts))?;
                Ok(next)
            }
        },
    }
}

/// Reads the nonterminal, and appends its branch. The two commonest have functions of their own.
#[cycle(reader)]
fn read_line(
    alloc: Global,
    out: &mut Vec<Branch>,
    source: &Source,
    form: Form,
    depth: usize,
    at: usize,
) -> Result<usize, Fault>
    requires lines { AreLines source.now.lines.now }
    requires within { at ≤ length source.now.tokens.now }
    requires few { length source.now.tokens.now < 2 ^ 32 }
    requires shallow { depth ≤ region_limit }
    ensures gives { Gives depth (line form) source.now.tokens.now at result }
    ensures grows { IfOk result
        (Grows source.now.tokens.now depth (line form) at out.old.items out.new.items) }
{
    match form {
        Form::TypeName => read_type_name(alloc, out, depth, source.tokens, at),
        Form::Use => read_use(alloc, out, depth, source.tokens, at),
        _ => read_by_rule(alloc, out, source, form, depth, at),
    }
}

/// Reads the nonterminal by its production, and appends its branch.
#[cycle(reader)]
#[tactic(auto, using(crate::proofs::Gives::gives_line))]
fn read_by_rule(
    alloc: Global,
    out: &mut Vec<Branch>,
    source: &Source,
    form: Form,
    depth: usize,
    at: usize,
) -> Result<usize, Fault>
    requires lines { AreLines source.now.lines.now }
    requires within { at ≤ length source.now.tokens.now }
    requires few { length source.now.tokens.now < 2 ^ 32 }
    requires shallow { depth ≤ region_limit }
    ensures gives { Gives depth (line form) source.now.tokens.now at result }
    ensures grows { IfOk result
        (Grows source.now.tokens.now depth (line form) at out.old.items out.new.items) }
{
    let before = out.len();
    match read(alloc, out, source, line_rule(source.lines, form), depth, at) {
        Err(fault) => Err(fault),
        Ok(next) => {
            let parts = out.split_off(before)?;
            out.push(Branch::line(form, at as u32, parts))?;
            Ok(next)
        }
    }
}

/// Reads a match of the first rule, then one of the second, and appends their branches.
#[cycle(reader)]
#[tactic(auto, using(crate::proofs::Gives::gives_both, crate::proofs::Gives::gives_both_fails))]
fn read_both(
    alloc: Global,
    out: &mut Vec<Branch>,
    source: &Source,
    a: &Rule,
    b: &Rule,
    depth: usize,
    at: usize,
) -> Result<usize, Fault>
    requires lines { AreLines source.now.lines.now }
    requires small { weight (both (seen a.now) (seen b.now)) < 1000 }
    requires within { at ≤ length source.now.tokens.now }
    requires few { length source.now.tokens.now < 2 ^ 32 }
    requires shallow { depth ≤ region_limit }
    requires first { IsMarked a.now }
    requires second { IsMarked b.now }
    ensures gives { Gives depth (both (seen a.now) (seen b.now)) source.now.tokens.now at result }
    ensures grows { IfOk result
        (Grows source.now.tokens.now depth
        (both (seen a.now) (seen b.now)) at out.old.items out.new.items) }
{
    match read(alloc, out, source, a, depth, at) {
        Err(fault) => Err(fault),
        Ok(mid) => read(alloc, out, source, b, depth, mid),
    }
}

/// Reads matches of the rule as long as one may begin, and appends their branches.
#[cycle(reader)]
#[tactic(auto, using(crate::proofs::Gives::gives_again, crate::proofs::Gives::gives_again_fails, crate::proofs::Gives::gives_enough, crate::proofs::Gives::goes_on))]
fn read_many(
    alloc: Global,
    out: &mut Vec<Branch>,
    source: &Source,
    set: u64,
    rule: &Rule,
    depth: usize,
    at: usize,
) -> Result<usize, Fault>
    requires lines { AreLines source.now.lines.now }
    requires small { weight (seen rule.now) < 1000 }
    requires within { at ≤ length source.now.tokens.now }
    requires few { length source.now.tokens.now < 2 ^ 32 }
    requires shallow { depth ≤ region_limit }
    requires marked { IsMarked rule.now }
    requires set { set ≡ first_set (seen rule.now) }
    ensures gives { Gives depth (many (seen rule.now)) source.now.tokens.now at result }
    ensures grows { IfOk result
        (Grows source.now.tokens.now depth (many (seen rule.now)) at out.old.items out.new.items) }
{
    let mut here = at;
    'again: while may_begin(rule, set, source.tokens, here) {
        match read(alloc, out, source, rule, depth, here) {
            Err(fault) => return Err(fault),
            Ok(next) => here = next,
        }
    }
    Ok(here)
}

/// Reads a region with a match of the rule inside its braces, and appends the branches.
#[cycle(reader)]
#[tactic(auto, using(crate::proofs::Gives::gives_no_brace, crate::proofs::Gives::gives_too_deep, crate::proofs::Gives::gives_region_ends, crate::proofs::Gives::gives_region_fails))]
fn read_region(
    alloc: Global,
    out: &mut Vec<Branch>,
    source: &Source,
    rule: &Rule,
    depth: usize,
    at: usize,
) -> Result<usize, Fault>
    requires lines { AreLines source.now.lines.now }
    requires small { weight (region (seen rule.now)) < 1000 }
    requires within { at ≤ length source.now.tokens.now }
    requires few { length source.now.tokens.now < 2 ^ 32 }
    requires shallow { depth ≤ region_limit }
    requires marked { IsMarked rule.now }
    ensures gives { Gives depth (region (seen rule.now)) source.now.tokens.now at result }
    ensures grows { IfOk result
        (Grows source.now.tokens.now depth
        (region (seen rule.now)) at out.old.items out.new.items) }
{
    if !next_is(Terminal::LeftBrace, source.tokens, at) {
        return Err(Fault::Syntax(at));
    }
    if depth >= REGION_LIMIT as usize {
        return Err(Fault::TooDeep(at));
    }
    out.push(Branch::leaf(alloc, at as u32))?;
    match read(alloc, out, source, rule, depth + 1, at + 1) {
        Err(fault) => Err(fault),
        Ok(end) => read_one(
            alloc,
            out,
            Terminal::RightBrace,
            depth + 1,
            source.tokens,
            end,
        ),
    }
}

/// Reads a match of the rule from the token index on, inside `depth` regions, and appends its
/// branches. Each kind of rule has a function of its own, to keep stack frames small.
#[cycle(reader)]
#[tactic(auto, using(crate::proofs::Gives::gives_nothing, crate::proofs::Gives::gives_left, crate::proofs::Gives::gives_right))]
pub fn read(
    alloc: Global,
    out: &mut Vec<Branch>,
    source: &Source,
    rule: &Rule,
    depth: usize,
    at: usize,
) -> Result<usize, Fault>
    requires lines { AreLines source.now.lines.now }
    requires small { weight (seen rule.now) < 1000 }
    requires within { at ≤ length source.now.tokens.now }
    requires few { length source.now.tokens.now < 2 ^ 32 }
    requires shallow { depth ≤ region_limit }
    requires marked { IsMarked rule.now }
    ensures gives { Gives depth (seen rule.now) source.now.tokens.now at result }
    ensures grows { IfOk result
        (Grows source.now.tokens.now depth (seen rule.now) at out.old.items out.new.items) }
{
    match rule {
        Rule::Nothing => Ok(at),
        Rule::One(terminal) => read_one(alloc, out, *terminal, depth, source.tokens, at),
        Rule::Line(form) => read_line(alloc, out, source, *form, depth, at),
        Rule::Both(a, b) => read_both(alloc, out, source, a, b, depth, at),
        Rule::Either(set, a, b) => {
            if may_begin(a, *set, source.tokens, at) {
                read(alloc, out, source, a, depth, at)
            } else {
                read(alloc, out, source, b, depth, at)
            }
        }
        Rule::Many(set, a) => read_many(alloc, out, source, *set, a, depth, at),
        Rule::Region(a) => read_region(alloc, out, source, a, depth, at),
    }
}
