use crate::{CellForm, cell_word, cells_of, read_cell};
use arith_word::{Label, Width};
use scev_tree::{chain, num};
use std::test::Fail;

#[test]
fn words_are_read_back(rt: HostRuntime) {
    let variable = CellForm::Ext(5, Label(9), true);
    assert_eq!(rt; read_cell(cell_word(&variable)), Some(variable));
    assert_eq!(rt; cell_word(&CellForm::Last(3)), 0x8000_0000_0000_0003);
    assert_eq!(rt; read_cell(0), None);
    // A width of 65 bits.
    assert_eq!(rt; read_cell(0xc000_0000_0410_0000), None);
}

#[test]
fn cells_are_counted_as_often_as_visited(rt: HostRuntime) -> Result<(), Fail> {
    let Some(width) = Width::new(64) else {
        return Ok(());
    };
    assert_eq!(rt; cells_of(&num(width, 7)), 2);
    assert_eq!(rt; cells_of(&num(width, 1 << 56)), 3);
    // The root, the variable, and a place and a number three times.
    assert_eq!(rt;
        cells_of(&chain(rt.alloc(), width, Label(3), &[7, 7, 7])?),
        8
    );
    Ok(())
}
