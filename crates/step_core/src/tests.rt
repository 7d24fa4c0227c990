use crate::{Event, Place, Seen, Words, replay, start};
use sqlite_items::Items;
use std::test::Fail;

#[test]
fn paths_of_small_numbers_start_apart(rt: HostRuntime) {
    // The words of the numbers 0, 1 and 2.
    assert_eq!(rt; start(0x2000_0000_0000_0000, 64), 40);
    assert_eq!(rt; start(0x2000_0000_0000_0001, 64), 15);
    assert_eq!(rt; start(0x2000_0000_0000_0002, 64), 55);
    // The word of the expression of width 32 whose tree is in the cell 15.
    assert_eq!(rt; start(0xc000_0000_0200_000f, 64), 30);
}

#[test]
fn a_place_is_written_once(rt: HostRuntime) -> Result<(), Fail> {
    let alloc = rt.alloc();
    let mut words = Words {
        log: Items::from_slice(alloc, &[0])?,
        keys: Items::from_slice(alloc, &[7])?,
        ids: Items::from_slice(alloc, &[0])?,
        cells: Items::from_slice(alloc, &[0])?,
    };
    let events = [
        Event::PutId {
            seat: 0,
            at: 0,
            word: 5,
        },
        Event::PutId {
            seat: 1,
            at: 0,
            word: 6,
        },
        Event::ClearId {
            seat: 1,
            at: 0,
            old: 5,
        },
        Event::Load {
            seat: 0,
            at: Place::Id(0),
        },
        Event::Load {
            seat: 0,
            at: Place::Key(0),
        },
    ];
    let answers = replay(alloc, &mut words, &events)?;
    assert_eq!(rt; answers.first(), Some(&Seen::Won));
    assert_eq!(rt; answers.get(1), Some(&Seen::Was(5)));
    assert_eq!(rt; answers.get(2), Some(&Seen::Won));
    assert_eq!(rt; answers.get(3), Some(&Seen::Word(0)));
    assert_eq!(rt; answers.get(4), Some(&Seen::Word(7)));
    Ok(())
}
