ghost use Rattle.std.specs.Prelude.{◌≡◌, IfOk};
ghost use Rattle.mlir_parse.specs.Tables as tables;
ghost use Rattle.mlir_parse.specs.Seen.{seen, Stands};

use mlir_ir::{Form, Terminal, terminal_number};
use std::alloc::{AllocError, Global};

/// The right-hand side of a production of the grammar.
#[derive(Debug, Drop)]
pub enum Rule {
    /// No token.
    Nothing,
    /// One token.
    One(Terminal),
    /// A nonterminal.
    Line(Form),
    /// The first rule, then the second.
    Both(Box<Rule>, Box<Rule>),
    /// The first rule or the second, with the set of terminals that the first may begin with.
    Either(u64, Box<Rule>, Box<Rule>),
    /// The rule any number of times, with the set of terminals that it may begin with.
    Many(u64, Box<Rule>),
    /// A region with the rule inside its braces.
    Region(Box<Rule>),
}

impl Rule {
    ghost use Rattle.mlir_ir.specs.Grammar.{both};

    /// This rule, then the next one.
    pub fn then(self, alloc: Global, next: Rule) -> Result<Rule, AllocError>
        ensures { IfOk result (λ rule. seen rule ≡ both (seen self) (seen next)) }
    {
        Ok(Rule::Both(Box::new(alloc, self)?, Box::new(alloc, next)?))
    }
}

/// The set of one terminal. A set is a bit mask with the bit of each terminal at its number.
fn mark(terminal: Terminal) -> u64
    ensures { result ≡ tables.mark terminal }
{
    1 << u32::from(terminal_number(terminal))
}

/// The set of the terminals.
fn marks(terminals: &[Terminal]) -> u64
    ensures { result ≡ tables.marks terminals.now }
{
    match terminals {
        [] => 0,
        [first, rest @ ..] => mark(*first) | marks(rest),
    }
}

/// Whether the set has the terminal.
pub fn has(set: u64, terminal: Terminal) -> bool
    ensures { result ≡ tables.has set terminal }
{
    (set >> u32::from(terminal_number(terminal))) % 2 == 1
}

/// The terminals that an operation may begin with: its name, or the name of a result.
const OPERATIONS: [Terminal; 12] = [
    Terminal::Constant,
    Terminal::Binary,
    Terminal::FlaggedBinary,
    Terminal::Cast,
    Terminal::FlaggedCast,
    Terminal::Compare,
    Terminal::Select,
    Terminal::Call,
    Terminal::If,
    Terminal::For,
    Terminal::While,
    Terminal::Value,
];

/// The names of operations that aren't terminators.
const KINDS: [Terminal; 11] = [
    Terminal::Constant,
    Terminal::Binary,
    Terminal::FlaggedBinary,
    Terminal::Cast,
    Terminal::FlaggedCast,
    Terminal::Compare,
    Terminal::Select,
    Terminal::Call,
    Terminal::If,
    Terminal::For,
    Terminal::While,
];

/// The set of the terminals that the nonterminal may begin with.
fn line_set(form: Form) -> u64
    ensures { result ≡ tables.marks (tables.line_firsts form) }
{
    match form {
        Form::Leaf => 0,
        Form::Whole => marks(&[Terminal::Module, Terminal::Function]),
        Form::Func => marks(&[Terminal::Function]),
        Form::Types | Form::TypeName => marks(&[Terminal::TypeWord]),
        Form::Results => marks(&[Terminal::TypeWord, Terminal::LeftParen]),
        Form::Body | Form::Region => marks(&[Terminal::LeftBrace]),
        Form::Params | Form::Ends | Form::Uses | Form::Use | Form::Pack | Form::Inits => {
            marks(&[Terminal::Value])
        }
        Form::Op => marks(&OPERATIONS),
        Form::Kind => marks(&KINDS),
        Form::Flags => marks(&[Terminal::Overflow]),
    }
}

/// Whether the nonterminal may have no tokens.
fn line_is_empty(form: Form) -> bool
    ensures { result ≡ tables.empty_line form }
{
    match form {
        Form::Leaf => true,
        Form::Whole => true,
        _ => false,
    }
}

/// Whether a match of the rule may have no tokens.
fn can_be_empty(rule: &Rule) -> bool
    ensures { result ≡ tables.empty (seen rule.now) }
{
    match rule {
        Rule::Nothing => true,
        Rule::One(_) => false,
        Rule::Line(form) => line_is_empty(*form),
        Rule::Both(a, b) => can_be_empty(a) && can_be_empty(b),
        Rule::Either(_, a, b) => can_be_empty(a) || can_be_empty(b),
        Rule::Many(_, _) => true,
        Rule::Region(_) => false,
    }
}

/// The set of the terminals that a match of the rule may begin with.
fn first_set(rule: &Rule) -> u64
    ensures { result ≡ tables.first_set (seen rule.now) }
{
    match rule {
        Rule::Nothing => 0,
        Rule::One(terminal) => mark(*terminal),
        Rule::Line(form) => line_set(*form),
        Rule::Both(a, b) => {
            if can_be_empty(a) {
                first_set(a) | first_set(b)
            } else {
                first_set(a)
            }
        }
        Rule::Either(_, a, b) => first_set(a) | first_set(b),
        Rule::Many(_, a) => first_set(a),
        Rule::Region(_) => mark(Terminal::LeftBrace),
    }
}

/// Fills in the sets of the rule, innermost first.
pub fn put_sets(rule: &mut Rule)
    ensures { Stands rule.new (seen rule.old) }
{
    match rule {
        Rule::Nothing | Rule::One(_) | Rule::Line(_) => {}
        Rule::Both(a, b) => {
            put_sets(a);
            put_sets(b);
        }
        Rule::Either(set, a, b) => {
            put_sets(a);
            put_sets(b);
            *set = first_set(a);
        }
        Rule::Many(set, a) => {
            put_sets(a);
            *set = first_set(a);
        }
        Rule::Region(a) => put_sets(a),
    }
}
