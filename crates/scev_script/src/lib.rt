//! Scripts of sessions: reading an input, which is a module and then scripts, reading one command, and
//! the lines of an answer.
#![tactic(auto)]

mod bytes;
mod commands;
mod error;
mod input;
mod limits;
mod lines;
mod names;
mod numbers;
mod reply;
mod script;
mod session;
#[cfg(test)]
mod tests;
mod words;

pub use commands::command;
pub use error::{InputError, InputFault};
pub use input::read_input;
pub use limits::{BUDGET_LIMIT, COMMAND_LIMIT, HELD_LIMIT, PRINT_LIMIT, SESSION_LIMIT};
pub use reply::{RefusalName, Reply, answer_text};
pub use script::{Command, Input, Pin, Script, ValueName};
