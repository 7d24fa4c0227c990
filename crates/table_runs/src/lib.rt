//! Tests of the shared table: sixteen threads on one table, events that are replayed, expressions
//! that are interned, and memos.
#![tactic(auto)]

#[cfg(test)]
mod expressions;
#[cfg(test)]
mod memos;
#[cfg(test)]
mod plain;
#[cfg(test)]
mod session;
#[cfg(test)]
mod single;
#[cfg(test)]
mod tests;
#[cfg(test)]
mod threads;
