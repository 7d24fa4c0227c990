ghost use Rattle.step_core.specs.Words.{IsSize};

use crate::expressions::EXPRESSIONS;
use crate::plain::Plain;
use crate::session::{Session, sessions_of};
use shared_table::{Sizes, open};
use std::alloc::{AllocError, Global};
use std::test::Fail;
use std::thread::{self, Threads};

/// How many sessions work at once.
const SESSIONS: u8 = 16;

/// What sessions answered that interned the same expressions.
#[derive(Drop)]
struct Interned {
    /// Whether equal expressions had equal nodes.
    equal: bool,
    /// Whether each node was read back as its expression.
    exact: bool,
    /// How often there was a node.
    nodes: u32,
    /// How often all cells were full.
    full: u32,
}

/// What the sessions answered.
fn interned_by(alloc: Global, sessions: &[Session]) -> Result<Interned, AllocError> {
    let mut homes = vec![in alloc; u32::MAX; EXPRESSIONS as usize]?;
    let mut all = Interned {
        equal: true,
        exact: true,
        nodes: 0,
        full: 0,
    };
    for s in sessions {
        all.exact = all.exact && s.exact;
        for (n, home) in s.homes.iter() {
            if *home == u32::MAX {
                all.full = all.full.saturating_add(1);
                continue;
            }
            all.nodes = all.nodes.saturating_add(1);
            if let Some(first) = homes.get_mut(*n as usize) {
                all.equal = all.equal && (*first == u32::MAX || *first == *home);
                *first = *home;
            }
        }
    }
    Ok(all)
}

/// Lets sixteen sessions intern the same expressions, in threads, each from another one on.
#[tactic(auto, using(crate::proofs::Authors::is_64, crate::proofs::Authors::all_dealt))]
fn intern_in_threads<R: Threads + Sync>(
    rt: &R,
    alloc: Global,
    cells: u32,
) -> Result<Interned, AllocError>
    requires { IsSize cells }
{
    let sizes = Sizes { cells, memo: 64 };
    let (shared, passes) = open::<Plain>(alloc, b"", SESSIONS, sizes)?;
    let mut sessions = sessions_of(alloc, &shared, passes)?;
    thread::for_each_mut(
        rt,
        sessions.as_mut_slice(),
        SESSIONS as usize,
        &|i: usize, s: &mut Session| s.intern_all(alloc, i as u64),
    );
    let all = interned_by(alloc, sessions.as_slice())?;
    Ok(all)
}

#[test]
fn sixteen_threads_fill_the_cells_with_expressions(rt: HostRuntime) -> Result<(), Fail> {
    let all = intern_in_threads(&rt, rt.alloc(), 64)?;
    assert!(rt; all.equal && all.exact);
    assert!(rt; all.nodes > 0 && all.full > 0);
    Ok(())
}

#[test]
fn sixteen_threads_intern_the_same_expressions(rt: HostRuntime) -> Result<(), Fail> {
    let all = intern_in_threads(&rt, rt.alloc(), 65_536)?;
    assert!(rt; all.equal && all.exact);
    assert_eq!(rt; all.nodes, u32::from(SESSIONS) * EXPRESSIONS as u32);
    assert_eq!(rt; all.full, 0);
    Ok(())
}

#[test]
#[tactic(auto, using(crate::proofs::Authors::is_64, crate::proofs::Authors::all_dealt))]
fn sixteen_threads_keep_and_forget_memos(rt: HostRuntime) -> Result<(), Fail> {
    let alloc = rt.alloc();
    let sizes = Sizes {
        cells: 64,
        memo: 64,
    };
    let (shared, passes) = open::<Plain>(alloc, b"", SESSIONS, sizes)?;
    let mut sessions = sessions_of(alloc, &shared, passes)?;
    thread::for_each_mut(
        &rt,
        sessions.as_mut_slice(),
        SESSIONS as usize,
        &|i: usize, s: &mut Session| s.keep_and_forget(i as u64),
    );
    assert_eq!(rt; sessions.len(), SESSIONS as usize);
    assert!(rt; sessions.iter().all(|s| s.exact));
    let Some(mut last) = sessions.pop() else {
        return Ok(());
    };
    assert!(rt; last.each_is_kept_until_forgotten());
    Ok(())
}
