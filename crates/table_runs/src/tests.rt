use crate::plain::Plain;
use crate::session::{Session, sessions_of};
use crate::single::{Single, steps_are_same};
use arith_word::{Label, Width};
use scev_tree::{chain, num};
use shared_table::{Node, Sizes, open};
use sqlite_items::Items;
use std::test::Fail;
use std::thread;
use step_core::Words;

#[test]
#[tactic(auto, using(crate::proofs::Authors::is_64, crate::proofs::Authors::all_dealt))]
fn sixteen_threads_share_a_table(rt: HostRuntime) -> Result<(), Fail> {
    let alloc = rt.alloc();
    let sizes = Sizes {
        cells: 64,
        memo: 64,
    };
    let (shared, passes) = open::<Plain>(alloc, b"", 16, sizes)?;
    let mut sessions = sessions_of(alloc, &shared, passes)?;
    thread::for_each_mut(
        &rt,
        sessions.as_mut_slice(),
        16,
        &|i: usize, s: &mut Session| {
            s.publish_all();
            s.put_numbers(i as u64);
        },
    );
    let mut published = vec![in alloc; 0u32; 4096]?;
    let mut full: u32 = 0;
    for s in sessions.iter() {
        full = full.saturating_add(u32::from(s.full));
        for k in s.places.iter() {
            if let Some(count) = published.get_mut(*k as usize) {
                *count = count.saturating_add(1);
            }
        }
    }
    let mut homes = vec![in alloc; 0u32; 80]?;
    let mut same = true;
    for s in sessions.iter() {
        for (n, home) in s.homes.iter() {
            if let Some(first) = homes.get_mut(*n as usize) {
                same = same && (*first == 0 || *first == home.saturating_add(1));
                *first = home.saturating_add(1);
            }
        }
    }
    assert!(rt; same);
    let put = homes.iter().filter(|home| **home != u32::MAX).count();
    assert_eq!(rt; put, 64);
    assert!(rt; full <= 16);
    assert!(rt; published.iter().skip(1).all(|count| *count == 1));
    Ok(())
}

#[test]
#[tactic(auto, using(crate::proofs::Authors::is_64, crate::proofs::Authors::all_dealt))]
fn a_run_is_replayed(rt: HostRuntime) -> Result<(), Fail> {
    let alloc = rt.alloc();
    let sizes = Sizes {
        cells: 64,
        memo: 64,
    };
    let (shared, passes) = open::<Plain>(alloc, b"", 1, sizes)?;
    let Some(Session { shared, pass, .. }) = sessions_of(alloc, &shared, passes)?.pop() else {
        return Ok(());
    };
    let words = Words {
        log: Items::from_vec(vec![in alloc; 0; 4095]?),
        keys: Items::from_vec(vec![in alloc; 0; 64]?),
        ids: Items::from_vec(vec![in alloc; 0; 64]?),
        cells: Items::from_vec(vec![in alloc; 0; 64]?),
    };
    let mut single = Single {
        shared,
        pass,
        words,
    };
    assert!(rt; steps_are_same(&mut single, 1_000));
    Ok(())
}

#[test]
#[tactic(auto, using(crate::proofs::Authors::is_64, crate::proofs::Authors::all_dealt))]
fn equal_expressions_have_one_node(rt: HostRuntime) -> Result<(), Fail> {
    let alloc = rt.alloc();
    let sizes = Sizes {
        cells: 64,
        memo: 64,
    };
    let Some(width) = Width::new(32) else {
        return Ok(());
    };
    let (shared, passes) = open::<Plain>(alloc, b"", 1, sizes)?;
    let Some(mut session) = sessions_of(alloc, &shared, passes)?.pop() else {
        return Ok(());
    };
    // The number is in the cell 15.
    assert_eq!(rt; session.node_of(&num(width, 1)), Some(Node(30)));
    let e = chain(alloc, width, Label(3), &[5, 7])?;
    assert!(rt; session.has_one_node(alloc, &e)?);
    Ok(())
}
