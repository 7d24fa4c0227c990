ghost use Rattle.std.specs.Prelude.{◌≡◌, ◌<◌, ◌≤◌, [], ◌∷◌, None, IfOk, vec_capacity, vec_len};
ghost use Rattle.step_core.specs.declared.limits.TheConstants.{MOST_AUTHORS};
ghost use Rattle.step_core.specs.Views.{dealer, dealt};
ghost use Rattle.step_core.specs.Words.{IsSize};
ghost use Rattle.shared_table.specs.Known.{IsOpened, IsPassOf, opened};
ghost use Rattle.shared_table.specs.Opening.{AreDealt, IsDealtOf, IsFirst};

use crate::pass::Pass;
use crate::play::Deal;
use crate::rule::About;
use crate::shared::Shared;
use crate::sizes::{FIRST_KEY, Sizes};
use atomic_table::Table;
use std::alloc::{AllocError, Global};
use step_core::MemoMeaning;

/// Gives the first author of a pass without events to a new pass.
fn deal<M: MemoMeaning>(shared: &Shared<M>, p: &mut Pass, author: u8) -> Pass
    requires table { IsPassOf shared.now.table.shared.table_id shared.now.sizes p.old }
    requires fresh { (p.old.view.events ≡ []) × (p.old.author ≡ None) }
    requires first { dealt p.old.view ≡ opened p.old.view.base p.old.view.count (author ∷ []) }
    ensures rest { IsPassOf shared.now.table.shared.table_id shared.now.sizes p.new }
    ensures nobody { p.new.author ≡ None }
    ensures dealer { p.new.view ≡ dealer p.old.view }
    ensures dealt { IsDealtOf p.old.view shared.now.table.shared.table_id shared.now.sizes author
        result }
{
    let seat = shared.table.shared.split_seat::<Deal>(&mut p.seat);
    Pass {
        seat,
        seen: 0,
        author: Some(author),
    }
}

/// The pass, which has one author, with this author as its own.
fn own(p: Pass, author: u8) -> Pass
    requires { p.view ≡ opened p.view.base p.view.count (author ∷ []) }
    ensures { IsOpened p.view.base p.view.count p.table p.sizes author result }
{
    let Pass { seat, seen, .. } = p;
    Pass {
        seat,
        seen,
        author: Some(author),
    }
}

/// Gives each author to a pass of its own.
fn deal_all<M: MemoMeaning>(shared: &Shared<M>, all: Pass, passes: &mut Vec<Pass>, authors: u8)
    requires dealer { IsFirst all.view.base authors shared.now.table.shared.table_id
        shared.now.sizes all }
    requires authors { 0 < authors }
    requires room { (passes.old.items ≡ []) × (authors ≤ vec_capacity passes.old) }
    ensures count { vec_len passes.new ≡ authors }
    ensures passes { AreDealt all.view.base authors shared.now.table.shared.table_id
        shared.now.sizes passes.new.items }
{
    let mut rest = all;
    let last = authors - 1;
    for i in 0..last {
        let one = deal(shared, &mut rest, i);
        passes.push_reserved(one);
    }
    passes.push_reserved(own(rest, last));
}

/// The table without a full place, and a pass that has all authors.
fn make<M: MemoMeaning>(
    alloc: Global,
    base: &[u8],
    authors: u8,
    sizes: Sizes,
) -> Result<(Shared<M>, Pass), AllocError>
    requires authors { authors ≤ MOST_AUTHORS }
    requires sizes { IsSize sizes.cells × IsSize sizes.memo }
    ensures pass { IfOk result
        (λ r. IsFirst base.now authors r.0.table.shared.table_id sizes r.1) }
    ensures sizes { IfOk result (λ r. r.0.sizes ≡ sizes) }
{
    let memo = sizes.memo as usize;
    let count = FIRST_KEY + (memo + memo) + sizes.cells as usize;
    let words: Vec<u64> = vec![in alloc; 0; count]?;
    let about = About {
        base: base.to_vec(alloc)?,
        authors,
        sizes,
    };
    let (table, seat) = Table::of_words(alloc, words.as_slice(), &about)?;
    Ok((
        Shared { table, sizes },
        Pass {
            seat,
            seen: 0,
            author: None,
        },
    ))
}

/// Opens a table for a text: no place is full. Answers it with a pass for each author, in order.
pub fn open<M: MemoMeaning>(
    alloc: Global,
    base: &[u8],
    authors: u8,
    sizes: Sizes,
) -> Result<(Shared<M>, Vec<Pass>), AllocError>
    requires authors { (0 < authors) × (authors ≤ MOST_AUTHORS) }
    requires sizes { IsSize sizes.cells × IsSize sizes.memo }
    ensures sizes { IfOk result (λ r. r.0.sizes ≡ sizes) }
    ensures count { IfOk result (λ r. vec_len r.1 ≡ authors) }
    ensures passes { IfOk result
        (λ r. AreDealt base.now authors r.0.table.shared.table_id sizes r.1.items) }
{
    let mut passes = Vec::with_capacity(alloc, authors as usize)?;
    let (shared, all) = make(alloc, base, authors, sizes)?;
    deal_all(&shared, all, &mut passes, authors);
    Ok((shared, passes))
}
