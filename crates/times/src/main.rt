//! Times of texts, of modules, of products and of the shared table, for measuring by hand: `times
//! texts`, `times modules`, `times products`, `times tables`.
#![tactic(auto)]

mod modules;
mod products;
mod tables;
mod texts;

use std::env::{self, Env};
use std::rt::Clock;
use std::thread::Threads;

/// What the words ask for, or how to ask.
fn run<R: Env + Print + Clock + Threads + Sync + AllocGlobal>(rt: &R) -> anyhow::Result<()> {
    let words = env::args(rt)?.skip(1).collect::<Vec<String>>(rt.alloc())?;
    match words.first() {
        Some(word) if word.as_str() == "texts" => texts::run(rt),
        Some(word) if word.as_str() == "modules" => modules::run(rt),
        Some(word) if word.as_str() == "products" => products::run(rt),
        Some(word) if word.as_str() == "tables" => tables::run(rt),
        _ => {
            println!(rt; "times texts | times modules | times products | times tables")?;
            Ok(())
        }
    }
}

fn main(rt: HostRuntime) -> anyhow::Result<()> {
    run(&rt)
}
