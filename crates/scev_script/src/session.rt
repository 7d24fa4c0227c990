ghost use Rattle.std.specs.Prelude.{◌≡◌, ◌++◌, ◌<◌, ◌+◌, ◌^◌, ◌∷◌, [], OnOk, true, if◌then◌else◌};
ghost use Rattle.std.specs.List.{list_any};
ghost use Rattle.scev_script.specs.Counted.{AreCounted, are_few};
ghost use Rattle.scev_script.specs.Scripts as scripts;

use crate::limits::{BUDGET_LIMIT, COMMAND_LIMIT, HELD_LIMIT, PRINT_LIMIT};
use crate::script::Command;
use arith_word::List;
use std::alloc::{AllocFailed, Global};

/// Commands of a session that pass no limit, with their counts.
#[derive(Drop)]
pub struct Commands {
    pub list: Vec<Command>,
    held: u64,
    prints: u64,
    budget: u64,
    ghost counted: { AreCounted list.items held prints budget },
}

fn is_hold(command: &Command) -> bool
    ensures { result ≡ scripts.is_hold command.now }
{
    match command {
        Command::Hold(_, _, _) => true,
        _ => false,
    }
}

fn is_print(command: &Command) -> bool
    ensures { result ≡ scripts.is_print command.now }
{
    match command {
        Command::Print(_) => true,
        _ => false,
    }
}

fn budget_of(command: &Command) -> u64
    ensures value { result ≡ scripts.budget_of command.now }
    ensures small { result < 2 ^ 32 }
{
    match command {
        Command::Run(_, budget, _, _) => u64::from(*budget),
        _ => 0,
    }
}

/// Whether the command holds the name.
fn holds(command: &Command, name: &[u8]) -> bool
    ensures { result ≡ scripts.holds name.now command.now }
{
    match command {
        Command::Hold(held, _, _) => held.as_bytes() == name,
        _ => false,
    }
}

/// Whether one of the commands holds the name.
fn is_held(commands: &[Command], name: &[u8]) -> bool
    ensures { result ≡ list_any (scripts.holds name.now) commands.now }
{
    commands.iter().any(|command| holds(command, name))
}

/// The count with one more, where that is one to count.
fn with_one(count: u64, more: bool) -> u64
    requires { count < 2 ^ 63 }
    ensures { result ≡ count + (if more then 1 else 0) }
{
    if more { count + 1 } else { count }
}

/// Whether there may be one more command, with those counts.
fn are_few(commands: usize, held: u64, prints: u64, budget: u64) -> bool
    requires { commands < 2 ^ 63 }
    ensures { result ≡ are_few commands held prints budget }
{
    commands < COMMAND_LIMIT
        && held <= HELD_LIMIT
        && prints <= PRINT_LIMIT
        && budget <= BUDGET_LIMIT
}

impl Commands {
    /// No commands.
    pub fn new(alloc: Global) -> Commands
        ensures { result.list.items ≡ [] }
    {
        Commands {
            list: Vec::new(alloc),
            held: 0,
            prints: 0,
            budget: 0,
        }
    }

    /// Whether the command holds a name that is held already.
    pub fn holds_again(&self, command: &Command) -> bool
        ensures { result ≡ scripts.holds_again self.now.list.items command.now }
    {
        match command {
            Command::Hold(name, _, _) => is_held(self.list.as_slice(), name.as_bytes()),
            _ => false,
        }
    }

    /// The commands.
    pub fn into_list(self) -> List<Command>
        ensures { result ≡ self.list.items }
    {
        List::from_vec(self.list)
    }

    /// Whether the limits allow the command behind these.
    #[tactic(auto, using(crate::proofs::Counts::limits_of))]
    pub fn allows(&self, command: &Command) -> bool
        ensures { result ≡ scripts.within_limits (self.now.list.items ++ command.now ∷ []) }
    {
        let held = with_one(self.held, is_hold(command));
        let prints = with_one(self.prints, is_print(command));
        let budget = self.budget + budget_of(command);
        are_few(self.list.as_slice().len(), held, prints, budget)
    }

    /// Adds the command.
    #[tactic(auto, using(crate::proofs::Counts::limits_of, crate::proofs::Counts::held_more, crate::proofs::Counts::prints_more, crate::proofs::Counts::budget_more))]
    pub fn push(&mut self, command: Command) -> Result<(), AllocFailed<Command>>
        requires { scripts.within_limits (self.old.list.items ++ command ∷ []) ≡ true }
        ensures { OnOk result (self.new.list.items ≡ self.old.list.items ++ command ∷ []) }
    {
        let held = with_one(self.held, is_hold(&command));
        let prints = with_one(self.prints, is_print(&command));
        let budget = self.budget + budget_of(&command);
        self.list.push(command)?;
        self.held = held;
        self.prints = prints;
        self.budget = budget;
        Ok(())
    }
}
