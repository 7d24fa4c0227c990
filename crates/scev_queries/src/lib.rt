//! What the functions of a module answer to the commands of a session: expressions, trip counts,
//! runs and texts. Each function is analysed once, when a command first asks of it.
#![tactic(auto)]

mod ask;
mod known;
mod laws;
mod lines;
mod lookup;
mod loops;
mod queries;
mod run_text;
mod runs;
mod values;

pub use ask::Ask;
pub use laws::one_answer;
pub use queries::Queries;
