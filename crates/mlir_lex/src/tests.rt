use crate::{LexError, tokens};
use mlir_ir::TokenKind;
use std::alloc::Global;
use std::process::Abort;
use std::test::Fail;

/// Checks the kinds, the texts and the byte offsets of the tokens of a text.
fn same_tokens(
    rt: &impl Abort,
    alloc: Global,
    text: &str,
    wanted: &[(TokenKind, &str, u32)],
) -> Result<(), Fail> {
    assert!(rt; text.len() < 1000);
    let found = match tokens(alloc, text) {
        Ok(found) => found.into_vec(),
        Err(_) => return Ok(assert!(rt; false, "no tokens in {text}")),
    };
    assert_eq!(rt; found.len(), wanted.len(), "at {text}");
    for (token, (kind, bytes, from)) in found.iter().zip(wanted) {
        assert!(rt; token.kind == *kind, "at {text}");
        assert_eq!(rt; token.text.as_str(), *bytes, "at {text}");
        assert_eq!(rt; token.from, *from, "at {text}");
        assert!(rt;
            token.to as usize == *from as usize + bytes.len(),
            "at {text}"
        );
    }
    Ok(())
}

#[test]
fn each_kind_is_as_long_as_possible(rt: HostRuntime) -> Result<(), Fail> {
    use TokenKind::*;
    same_tokens(&rt, rt.alloc(), "", &[])?;
    same_tokens(
        &rt,
        rt.alloc(),
        "arith.addi _a$1",
        &[(Word, "arith.addi", 0), (Word, "_a$1", 11)],
    )?;
    same_tokens(
        &rt,
        rt.alloc(),
        "%a->%0b",
        &[
            (Value, "%a-", 0),
            (Mark, ">", 3),
            (Value, "%0", 4),
            (Word, "b", 6),
        ],
    )?;
    same_tokens(
        &rt,
        rt.alloc(),
        "@$._-9^bb0:",
        &[(Symbol, "@$._-9", 0), (Caret, "^bb0", 6), (Mark, ":", 10)],
    )?;
    same_tokens(
        &rt,
        rt.alloc(),
        "%r#12x",
        &[(Value, "%r", 0), (Pick, "#12", 2), (Word, "x", 5)],
    )?;
    same_tokens(
        &rt,
        rt.alloc(),
        "0x1fG 0xg 007",
        &[
            (Number, "0x1f", 0),
            (Word, "G", 4),
            (Number, "0", 6),
            (Word, "xg", 7),
            (Number, "007", 10),
        ],
    )?;
    same_tokens(&rt, rt.alloc(), "0x", &[(Number, "0", 0), (Word, "x", 1)])?;
    same_tokens(
        &rt,
        rt.alloc(),
        "(){}<>,:=-->",
        &[
            (Mark, "(", 0),
            (Mark, ")", 1),
            (Mark, "{", 2),
            (Mark, "}", 3),
            (Mark, "<", 4),
            (Mark, ">", 5),
            (Mark, ",", 6),
            (Mark, ":", 7),
            (Mark, "=", 8),
            (Mark, "-", 9),
            (Mark, "->", 10),
        ],
    )
}

#[test]
fn comments_go_to_the_end_of_their_line(rt: HostRuntime) -> Result<(), Fail> {
    use TokenKind::*;
    same_tokens(
        &rt,
        rt.alloc(),
        "a// ? \" \r b\n\tc //",
        &[(Word, "a", 0), (Word, "c", 13)],
    )?;
    same_tokens(&rt, rt.alloc(), "//\u{e9}\n%1", &[(Value, "%1", 5)])
}

#[test]
fn faults_stand_where_no_token_begins(rt: HostRuntime) -> Result<(), Fail> {
    for (text, at) in [
        ("func.func @f() {return} ?", 24),
        ("%", 0),
        ("a %\n", 2),
        ("@\"f\"", 0),
        ("^:", 0),
        ("# 1", 0),
        ("a / b", 2),
        ("a \u{e9}", 2),
        ("$a", 0),
    ] {
        match tokens(rt.alloc(), text) {
            Err(LexError::Fault(fault)) => assert_eq!(rt; fault.at, at, "at {text}"),
            _ => assert!(rt; false, "no fault in {text}"),
        }
    }
    Ok(())
}
