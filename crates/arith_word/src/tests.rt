//! Rows computed by hand and by a short program in another language from the rules of the dialect.

ghost use Rattle.std.specs.Prelude.{◌≡◌};

use super::*;
use std::str;
use std::test::Fail;

const OPS: [BinOp; 17] = [
    BinOp::Addi,
    BinOp::Subi,
    BinOp::Muli,
    BinOp::Andi,
    BinOp::Ori,
    BinOp::Xori,
    BinOp::Minsi,
    BinOp::Maxsi,
    BinOp::Minui,
    BinOp::Maxui,
    BinOp::Shli,
    BinOp::Shrui,
    BinOp::Shrsi,
    BinOp::Divui,
    BinOp::Remui,
    BinOp::Divsi,
    BinOp::Remsi,
];

const PREDS: [Pred; 10] = [
    Pred::Eq,
    Pred::Ne,
    Pred::Slt,
    Pred::Sle,
    Pred::Sgt,
    Pred::Sge,
    Pred::Ult,
    Pred::Ule,
    Pred::Ugt,
    Pred::Uge,
];

/// Widths, each with two numbers.
const OPERANDS: [(u32, u64, u64); 23] = [
    (1, 0, 1),
    (1, 1, 0),
    (1, 1, 1),
    (2, 2, 3),
    (2, 3, 2),
    (7, 64, 127),
    (7, 83, 6),
    (7, 27, 125),
    (8, 200, 100),
    (8, 128, 255),
    (8, 156, 7),
    (8, 100, 249),
    (8, 5, 0),
    (8, 129, 8),
    (32, 0x80000000, 31),
    (32, 0xdeadbeef, 0x12345678),
    (32, 0x80000000, 0xffffffff),
    (63, 0x4000000000000000, 0x7fffffffffffffff),
    (63, 0x7edcba9876543210, 62),
    (64, 0x8000000000000000, 0xffffffffffffffff),
    (64, 0xfedcba9876543210, 63),
    (64, 0xfedcba9876543210, 64),
    (64, 0x8000000000000001, 0xfffffffffffffff9),
];

/// The same, each with what the operations of `OPS` give in order.
const ROWS: [&str; 23] = [
    "1 0 1: 1 1 0 0 1 1 1 0 0 1 0 0 0 0 0 0 0",
    "1 1 0: 1 1 0 0 1 1 1 0 0 1 1 1 1 trap trap trap trap",
    "1 1 1: 0 0 1 1 1 0 1 1 1 1 0 0 0 1 0 trap trap",
    "2 2 3: 1 3 2 2 3 1 2 3 2 3 0 0 0 0 2 trap trap",
    "2 3 2: 1 1 2 2 3 1 2 3 2 3 0 0 0 1 1 0 3",
    "7 64 127: 63 65 64 64 127 63 64 127 64 127 0 0 0 0 64 trap trap",
    "7 83 6: 89 77 114 2 87 85 83 6 6 83 64 1 127 13 5 121 125",
    "7 27 125: 24 30 47 25 127 102 125 27 27 125 0 0 0 0 27 119 0",
    "8 200 100: 44 100 32 64 236 172 200 100 100 200 0 0 0 2 0 0 200",
    "8 128 255: 127 129 128 128 255 127 128 255 128 255 0 0 0 0 128 trap trap",
    "8 156 7: 163 149 68 4 159 155 156 7 7 156 0 1 255 22 2 242 254",
    "8 100 249: 93 107 68 96 253 157 249 100 100 249 0 0 0 0 100 242 2",
    "8 5 0: 5 5 0 0 5 5 0 5 0 5 5 5 5 trap trap trap trap",
    "8 129 8: 137 121 8 0 137 137 129 8 8 129 0 0 0 16 1 241 249",
    "32 2147483648 31: 2147483679 2147483617 2147483648 0 2147483679 2147483679 2147483648 31 31 2147483648 0 1 4294967295 69273666 2 4225693630 4294967294",
    "32 3735928559 305419896: 4041348455 3430508663 1445054984 304354920 3736993535 3432638615 3735928559 305419896 305419896 3735928559 0 0 0 12 70889807 4294967295 4041348455",
    "32 2147483648 4294967295: 2147483647 2147483649 2147483648 2147483648 4294967295 2147483647 2147483648 4294967295 2147483648 4294967295 0 0 0 0 2147483648 trap trap",
    "63 4611686018427387904 9223372036854775807: 4611686018427387903 4611686018427387905 4611686018427387904 4611686018427387904 9223372036854775807 4611686018427387903 4611686018427387904 9223372036854775807 4611686018427387904 9223372036854775807 0 0 0 0 4611686018427387904 trap trap",
    "63 9141386507638288912 62: 9141386507638288974 9141386507638288850 4140269225432588256 16 9141386507638288958 9141386507638288942 9141386507638288912 62 62 9141386507638288912 0 1 9223372036854775807 147441717865133692 8 9222049689609348600 0",
    "64 9223372036854775808 18446744073709551615: 9223372036854775807 9223372036854775809 9223372036854775808 9223372036854775808 18446744073709551615 9223372036854775807 9223372036854775808 18446744073709551615 9223372036854775808 18446744073709551615 0 0 0 0 9223372036854775808 trap trap",
    "64 18364758544493064720 63: 18364758544493064783 18364758544493064657 13281655733070877168 16 18364758544493064767 18364758544493064751 18364758544493064720 63 63 18364758544493064720 0 1 18446744073709551615 291504103880842297 9 18445442716102940713 18446744073709551609",
    "64 18364758544493064720 64: 18364758544493064784 18364758544493064656 13199670203854390272 0 18364758544493064784 18364758544493064784 18364758544493064720 64 64 18364758544493064720 0 0 0 286949352257704136 16 18445463049815544009 18446744073709551568",
    "64 9223372036854775809 18446744073709551609: 9223372036854775802 9223372036854775816 9223372036854775801 9223372036854775809 18446744073709551609 9223372036854775800 9223372036854775809 18446744073709551609 9223372036854775809 18446744073709551609 0 0 0 0 9223372036854775809 1317624576693539401 0",
];

/// The low bits of `v` as a word.
fn word(w: Width, v: u64) -> Word
    ensures { result.w ≡ w }
{
    Word { w, v: add(w, v, 0) }
}

#[test]
fn operations_give_their_rows(rt: HostRuntime) -> Result<(), Fail> {
    for ((bits, x, y), want) in OPERANDS.into_iter().zip(ROWS) {
        let w = Width::new(bits).expect(&rt, "a width");
        let mut text = format!(in rt.alloc(); "{bits} {x} {y}:")?;
        for op in OPS {
            match apply(op, word(w, x), word(w, y)) {
                Step::Value(v) => write!(text, " {}", v.v)?,
                Step::Trap => write!(text, " trap")?,
            }
        }
        assert_eq!(rt; text.as_str(), want);
    }
    Ok(())
}

#[test]
fn casts_extend_and_truncate(rt: HostRuntime) {
    // the number with its sign, and without
    let wider = [
        (1, 1, 8, 255, 1),
        (1, 0, 64, 0, 0),
        (7, 64, 8, 192, 64),
        (8, 200, 63, 0x7fffffffffffffc8, 200),
        (32, 0x80000001, 64, 0xffffffff80000001, 0x80000001),
        (33, 0x180000000, 63, 0x7fffffff80000000, 0x180000000),
    ];
    for (from, x, to, signed, unsigned) in wider {
        let from = Width::new(from).expect(&rt, "a width");
        let to = Width::new(to).expect(&rt, "a width");
        assert!(rt; from.bits() < to.bits());
        assert_eq!(rt; cast(CastOp::Extsi, word(from, x), to).v, signed, "{x}");
        assert_eq!(rt; cast(CastOp::IndexCast, word(from, x), to).v, signed, "{x}");
        assert_eq!(rt; cast(CastOp::Extui, word(from, x), to).v, unsigned, "{x}");
        assert_eq!(rt;
            cast(CastOp::IndexCastui, word(from, x), to).v,
            unsigned,
            "{x}"
        );
    }
    let narrower = [
        (2, 3, 1, 1),
        (8, 200, 7, 72),
        (64, 0xfedcba9876543210, 32, 0x76543210),
        (64, 0xfffffffffffffffd, 63, 0x7ffffffffffffffd),
        (64, 511, 8, 255),
    ];
    for (from, x, to, low) in narrower {
        let from = Width::new(from).expect(&rt, "a width");
        let to = Width::new(to).expect(&rt, "a width");
        assert!(rt; to.bits() < from.bits());
        assert_eq!(rt; cast(CastOp::Trunci, word(from, x), to).v, low, "{x}");
        assert_eq!(rt; cast(CastOp::IndexCast, word(from, x), to).v, low, "{x}");
        assert_eq!(rt; cast(CastOp::IndexCastui, word(from, x), to).v, low, "{x}");
    }
}

#[test]
fn predicates_compare(rt: HostRuntime) -> Result<(), Fail> {
    // what holds of the two numbers
    let rows = [
        (1, 0, 1, " Ne Sgt Sge Ult Ule"),
        (1, 1, 1, " Eq Sle Sge Ule Uge"),
        (2, 2, 1, " Ne Slt Sle Ugt Uge"),
        (7, 64, 63, " Ne Slt Sle Ugt Uge"),
        (8, 5, 5, " Eq Sle Sge Ule Uge"),
        (8, 255, 0, " Ne Slt Sle Ugt Uge"),
        (32, 3, 0x80000000, " Ne Sgt Sge Ult Ule"),
        (63, 0x4000000000000000, 1, " Ne Slt Sle Ugt Uge"),
        (
            64,
            0x8000000000000000,
            0x7fffffffffffffff,
            " Ne Slt Sle Ugt Uge",
        ),
        (64, 0xffffffffffffffff, 0, " Ne Slt Sle Ugt Uge"),
        (64, 2, 3, " Ne Slt Sle Ult Ule"),
    ];
    for (bits, x, y, want) in rows {
        let w = Width::new(bits).expect(&rt, "a width");
        let mut text = String::new(rt.alloc());
        for pred in PREDS {
            if compare(pred, word(w, x), word(w, y)) {
                write!(text, " {pred:?}")?;
            }
        }
        assert_eq!(rt; text.as_str(), want, "{x} and {y} at {bits} bits");
    }
    Ok(())
}

#[test]
fn odd_numbers_have_inverses(rt: HostRuntime) {
    let rows = [
        (1, 1, 1),
        (2, 3, 3),
        (7, 5, 77),
        (8, 255, 255),
        (32, 3, 0xaaaaaaab),
        (63, 0x123456789abcdef, 0x10fef010fef010f),
        (64, 0x9e3779b97f4a7c15, 0xf1de83e19937733d),
        (64, 0xffffffffffffffff, 0xffffffffffffffff),
    ];
    for (bits, o, want) in rows {
        let w = Width::new(bits).expect(&rt, "a width");
        assert!(rt; o % 2 == 1);
        assert_eq!(rt; inverse_odd(w, o), want, "{o} at {bits} bits");
    }
    for (v, want) in [
        (1, 0),
        (12, 2),
        (0x8000000000000000, 63),
        (0xfffffffffffffff0, 4),
    ] {
        assert!(rt; v > 0);
        assert_eq!(rt; twos(v), want, "{v}");
    }
}

#[test]
fn readings_and_negations(rt: HostRuntime) {
    let rows = [
        (1, 1, -1, 1),
        (2, 2, -2, 2),
        (8, 127, 127, 129),
        (8, 200, -56, 56),
        (64, 0x8000000000000000, i64::MIN, 0x8000000000000000),
        (64, 1, 1, u64::MAX),
    ];
    for (bits, x, reading, less) in rows {
        let w = Width::new(bits).expect(&rt, "a width");
        assert_eq!(rt; w.bits(), bits);
        assert_eq!(rt; signed(word(w, x)), reading, "{x} at {bits} bits");
        assert_eq!(rt; neg(w, x), less, "{x} at {bits} bits");
        assert_eq!(rt; sub(w, 0, x), less, "{x} at {bits} bits");
        assert_eq!(rt; mul(w, w.mask(), x), less, "{x} at {bits} bits");
    }
    assert_eq!(rt; (Width::new(0), Width::new(65)), (None, None));
}

#[test]
fn lists_and_texts_keep_their_contents(rt: HostRuntime) -> Result<(), Fail> {
    let labels = List::from_vec(vec![in rt.alloc(); Label(1), Label(2)]?);
    assert_eq!(rt; labels.as_slice().len(), 2);
    assert_eq!(rt; labels.into_vec().last(), Some(&Label(2)));
    let text = Text::from_string(format!(in rt.alloc(); "%{}", 7)?);
    assert_eq!(rt; text.as_str(), "%7");
    let shown = format!(in rt.alloc(); "{text}")?;
    assert_eq!(rt; shown.as_str(), "%7");
    let same = Text::from_bytes(rt.alloc(), text.as_bytes())?;
    assert!(rt; matches!(&same, Some(t) if t.as_str() == "%7"));
    assert!(rt; Text::from_bytes(rt.alloc(), &[0xff])?.is_none());
    assert_eq!(rt; Text::from_str(rt.alloc(), "%é")?.as_str(), "%é");
    Ok(())
}

#[test]
fn texts_about_the_border_of_short_ones(rt: HostRuntime) -> Result<(), Fail> {
    let long = "%abcdefghijklmno0";
    for len in [0, 1, 15, 16, 17] {
        let front = long.as_bytes().split_at(len).0;
        let text = Text::from_bytes(rt.alloc(), front)?;
        assert!(rt; matches!(&text, Some(t) if t.as_bytes() == front));
        if str::from_utf8(front).is_ok() {
            let text = Text::from_front(rt.alloc(), long.as_bytes(), len)?;
            assert!(rt; text.as_bytes() == front);
            let text = Text::from_front(rt.alloc(), front, len)?;
            assert!(rt; text.as_bytes() == front);
        }
    }
    // a character of two bytes that ends at the border, and one that crosses it
    for wide in ["abcdefghijklmné", "abcdefghijklmnoé"] {
        let text = Text::from_bytes(rt.alloc(), wide.as_bytes())?;
        assert!(rt; matches!(&text, Some(t) if t.as_str() == wide));
        let cut = wide.as_bytes().split_at(wide.len() - 1).0;
        assert!(rt; Text::from_bytes(rt.alloc(), cut)?.is_none());
    }
    Ok(())
}

#[test]
fn texts_are_shown_with_their_bytes(rt: HostRuntime) -> Result<(), Fail> {
    let text = Text::from_bytes(rt.alloc(), "%x".as_bytes())?;
    let shown = format!(in rt.alloc(); "{text:?}")?;
    assert_eq!(rt; shown.as_str(), "Some(Text { inner: \"%x\" })");
    Ok(())
}

#[test]
fn labels_are_made_of_their_parts(rt: HostRuntime) {
    let rows = [
        (0, 0, 0, 0),
        (0, 1, 0, 16384),
        (3, 2, 1, 50364417),
        (255, 1023, 16383, u32::MAX),
    ];
    for (func, item, index, number) in rows {
        assert!(rt; item < 1024 && index < 16384);
        let label = Label::new(func, item, index);
        assert_eq!(rt; label, Label(number));
        assert_eq!(rt;
            (label.func(), label.item(), label.index()),
            (func, item, index)
        );
    }
}
