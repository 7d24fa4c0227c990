ghost use Rattle.std.specs.Prelude.{◌≡◌};
ghost use Rattle.mlir_ir.specs.GrammarNumbers as numbers;
ghost use Rattle.mlir_ir.specs.Terminals as terminals;
ghost use Rattle.mlir_ir.specs.declared.token.TokenKind.TheVariants.{Word, Mark};

use mlir_ir::{Terminal, Token, TokenKind, is_same_terminal, terminal_number};
use mlir_parse::terminal_of;

/// The number of the last terminal of a word.
const LAST_WORD: u8 = 28;

/// The number of the first terminal of a mark.
const FIRST_MARK: u8 = 35;

/// Whether a word has that terminal.
fn is_word(token: &Token, terminal: Terminal) -> bool
    requires { token.now.kind ≡ Word }
    ensures { result ≡ numbers.same terminal (terminals.terminal_of token.now) }
{
    match terminal {
        Terminal::Else => token.text.as_str() == "else",
        Terminal::Do => token.text.as_str() == "do",
        _ => {
            terminal_number(terminal) <= LAST_WORD && is_same_terminal(terminal, terminal_of(token))
        }
    }
}

/// Whether a mark has that terminal.
fn is_mark(token: &Token, terminal: Terminal) -> bool
    requires { token.now.kind ≡ Mark }
    ensures { result ≡ numbers.same terminal (terminals.terminal_of token.now) }
{
    terminal_number(terminal) >= FIRST_MARK && is_same_terminal(terminal, terminal_of(token))
}

/// Whether the token has that terminal. Most tokens are told by their kind alone.
pub fn is_token(token: &Token, terminal: Terminal) -> bool
    ensures { result ≡ numbers.same terminal (terminals.terminal_of token.now) }
{
    match token.kind {
        TokenKind::Word => is_word(token, terminal),
        TokenKind::Value => is_same_terminal(terminal, Terminal::Value),
        TokenKind::Symbol => is_same_terminal(terminal, Terminal::Symbol),
        TokenKind::Caret => is_same_terminal(terminal, Terminal::Caret),
        TokenKind::Pick => is_same_terminal(terminal, Terminal::Pick),
        TokenKind::Number => is_same_terminal(terminal, terminal_of(token)),
        TokenKind::Mark => is_mark(token, terminal),
    }
}
