use crate::{ParseFault, parse};
use mlir_ir::Form;
use std::alloc::{AllocError, Global};
use std::process::Abort;
use std::test::Fail;

/// A text with each form of the grammar.
const EVERY_FORM: &str = "module @m {
  func.func private @p(i64, index) -> i32
  func.func @q()
  func.func @r(%a: i8)
  func.func @none() -> () { func.return }
  func.func @f(%a: i32, %b: i1) -> (i32, index) { // a comment
    %c = arith.constant -3 : i32
    %h = arith.constant 0x1F : i64
    %t = arith.constant true
    %n = arith.constant false
    %0 = arith.muli %a, %c overflow<nsw, nuw> : i32
    %1 = arith.shli %0, %c overflow<nuw, nsw> : i32
    %s = arith.subi %0, %c overflow<nuw> : i32
    %2 = arith.andi %0, %1 : i32
    %3 = arith.extsi %2 : i32 to i64
    %4 = arith.trunci %3 overflow<nsw> : i64 to i8
    %5 = arith.cmpi slt, %a, %c : i32
    %6 = arith.select %5, %a, %c : i32
    %7 = func.call @p(%3, %i) : (i64, index) -> i32
    call @q() : () -> ()
    %8:2 = scf.if %t -> (i32, i32) {
      scf.yield %a, %c : i32, i32
    } else {
      scf.yield %8#0, %8#1 : i32, i32
    }
    scf.if %t { }
    %9, %10:2 = scf.for %i = %a to %c step %c iter_args(%x = %a, %y = %c) -> (i32, i32) : i32 {
      scf.yield %x, %y : i32, i32
    }
    scf.for %i = %a to %c step %c { scf.yield }
    %11 = scf.while (%x = %a) : (i32) -> i32 {
      scf.condition(%t) %x : i32
    } do {
    ^bb0(%y: i32):
      scf.yield %y : i32
    }
    scf.while : () -> () { scf.condition(%t) } do { ^bb0: scf.yield }
    scf.while : () -> () { scf.condition(%t) } do { scf.yield }
    return %a, %i : i32, index
  }
}
";

/// Texts that are read, each with the number of parts of its tree.
const TEXTS: [(&str, usize); 5] = [
    (EVERY_FORM, 9),
    ("", 0),
    ("// nothing", 0),
    ("module {}", 3),
    ("func.func @a() func.func @b()", 2),
];

/// Texts with a token that stops them to be the front of a text, each with its byte.
const SYNTAX_FAULTS: [(&str, ParseFault); 25] = [
    ("func.func", ParseFault::Syntax(9)),
    ("func.func @f() {", ParseFault::Syntax(16)),
    ("module { // no end", ParseFault::Syntax(18)),
    ("func.func @f() {} ", ParseFault::Syntax(16)),
    ("func.func @f() { return ) }", ParseFault::Syntax(24)),
    ("func.func @f() { return foo", ParseFault::Syntax(24)),
    ("func.func @f() { scf.yield }", ParseFault::Syntax(17)),
    ("func.func @f() { %x = return", ParseFault::Syntax(22)),
    (
        "func.func @f() { scf.if %c { return",
        ParseFault::Syntax(29),
    ),
    ("func.func @f() { scf.if %c foo", ParseFault::Syntax(27)),
    (
        "func.func @f() { scf.while : () -> () { scf.yield",
        ParseFault::Syntax(40),
    ),
    ("module attributes {}", ParseFault::Syntax(7)),
    ("module { return", ParseFault::Syntax(9)),
    ("module {} func.func", ParseFault::Syntax(10)),
    ("module {} foo", ParseFault::Syntax(10)),
    ("func.func @f(%a: i8, i8)", ParseFault::Syntax(21)),
    ("func.func @f(i8) {", ParseFault::Syntax(17)),
    ("func.func @f(%a->", ParseFault::Syntax(16)),
    ("func.func @f() { arith.addi 1", ParseFault::Syntax(28)),
    (
        "func.func @f() { arith.andi %a, %a overflow<nsw>",
        ParseFault::Syntax(35),
    ),
    (
        "func.func @f() { arith.addi %a, %a overflow<foo>",
        ParseFault::Syntax(44),
    ),
    ("func.func @f() { arith.cmpi foo", ParseFault::Syntax(28)),
    (
        "func.func @f() { %x:0x2 = arith.constant",
        ParseFault::Syntax(20),
    ),
    (
        "func.func @f() { arith.constant 0x : i8",
        ParseFault::Syntax(33),
    ),
    (
        "func.func @f() { arith.constant -true",
        ParseFault::Syntax(33),
    ),
];

/// Texts with a word that names nothing where an operation or a type could stand, each with its byte.
const NOT_HERE_FAULTS: [(&str, ParseFault); 12] = [
    ("foo", ParseFault::NotHere(0)),
    ("module { foo", ParseFault::NotHere(9)),
    ("func.func @f(%a: vector<4xi8>)", ParseFault::NotHere(17)),
    ("func.func @f(%a: i65)", ParseFault::NotHere(17)),
    ("func.func @f(%a: i08)", ParseFault::NotHere(17)),
    ("func.func @f() { arith.foo }", ParseFault::NotHere(17)),
    ("func.func @f() { to", ParseFault::NotHere(17)),
    ("func.func @f() { %x = foo", ParseFault::NotHere(22)),
    ("func.func @f() { return } foo", ParseFault::NotHere(26)),
    ("func.func @f() { scf.if %c {} foo", ParseFault::NotHere(30)),
    ("func.func private @p(i64) foo", ParseFault::NotHere(26)),
    ("func.func private @p(i64) -> foo", ParseFault::NotHere(29)),
];

/// Texts with a byte where no token begins, each with the byte.
const LEX_FAULTS: [(&str, ParseFault); 5] = [
    ("?", ParseFault::Lex(0)),
    ("func.func @f() {return} ?", ParseFault::Lex(24)),
    ("foo ?", ParseFault::Lex(4)),
    ("module { % }", ParseFault::Lex(9)),
    ("module / comment", ParseFault::Lex(7)),
];

/// Whether the text has this fault.
fn has_fault(alloc: Global, text: &str, wanted: ParseFault) -> bool {
    text.len() < 4096 && matches!(parse(alloc, text), Err(fault) if fault == wanted)
}

/// Each text has its fault.
fn have_faults(rt: &impl Abort, alloc: Global, rows: &[(&str, ParseFault)]) {
    for (text, fault) in rows {
        assert!(rt; has_fault(alloc, text, *fault), "at {text}");
    }
}

#[test]
fn each_form_is_read(rt: HostRuntime) {
    for (text, parts) in TEXTS.as_slice() {
        assert!(rt; text.len() < 4096);
        match parse(rt.alloc(), text) {
            Ok(syntax) => {
                assert!(rt; syntax.root.form == Form::Whole);
                assert_eq!(rt; syntax.root.token, 0);
                assert_eq!(rt; syntax.root.parts.len(), *parts, "at {text}");
                assert!(rt; syntax.length as usize == text.len());
            }
            Err(_) => assert!(rt; false, "no syntax of {text}"),
        }
    }
}

#[test]
fn faults_stand_at_the_first_token_that_cannot(rt: HostRuntime) {
    have_faults(&rt, rt.alloc(), SYNTAX_FAULTS.as_slice());
    have_faults(&rt, rt.alloc(), NOT_HERE_FAULTS.as_slice());
    have_faults(&rt, rt.alloc(), LEX_FAULTS.as_slice());
}

#[test]
fn tokens_have_their_places(rt: HostRuntime) {
    match parse(rt.alloc(), "module @m {} // end") {
        Ok(syntax) => {
            for (token, byte) in [(0, 0), (1, 7), (2, 10), (3, 11), (4, 19), (5, 19)] {
                assert_eq!(rt; syntax.place(token), byte);
            }
        }
        Err(_) => assert!(rt; false),
    }
}

/// A body with that many `scf.if` one inside the other, up to the innermost brace.
fn nested(alloc: Global, depth: usize) -> Result<String, AllocError> {
    let mut text = String::new(alloc);
    text.push_str("func.func @f(%c: i1) {")?;
    for _ in 0..depth {
        text.push_str("scf.if %c {")?;
    }
    Ok(text)
}

#[test]
fn the_thirteenth_region_is_too_deep(rt: HostRuntime) -> Result<(), Fail> {
    let mut text = nested(rt.alloc(), 11)?;
    text.push_str("}}}}}}}}}}} return }")?;
    assert!(rt; text.len() < 4096);
    assert!(rt; parse(rt.alloc(), text.as_str()).is_ok());
    let deep = nested(rt.alloc(), 12)?;
    // the head has 22 bytes, and each `scf.if` 11
    assert!(rt; has_fault(rt.alloc(), deep.as_str(), ParseFault::TooDeep(153)));
    Ok(())
}
