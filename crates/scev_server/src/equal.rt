ghost use Rattle.std.specs.Prelude.{◌≡◌, ◌++◌, ◌↔◌, ◌&&◌, not, [], IsTrue, List, ℕ, IfOk, OnOk, filter, map, string_bytes};
ghost use Rattle.std.specs.List.{list_any};
ghost use Rattle.fresh_scev.specs.Expressions.{expression_of};
ghost use Rattle.scev_server.specs.Equal.{AreNumbered, IsEqualSection, behind_blanks, class_lines, is_one_with};
ghost use Rattle.scev_server.specs.Members.{IsFirstEqual, class_line, is_one_of, member_of};
ghost use Rattle.scev_server.specs.Shown.{named_of};

use arith_word::Text;
use scev_tree::{Expr, same};
use std::alloc::{AllocError, Global};

/// A held name, with that of its session and its expression.
#[derive(Drop)]
pub struct Named<'a> {
    pub session: &'a Text,
    pub name: &'a Text,
    pub expr: Expr,
}

/// A held name, with that of its session and a number that stands for its expression.
#[derive(Drop)]
struct Member<'a> {
    session: &'a Text,
    name: &'a Text,
    number: usize,
}

/// Whether width and polynomial are equal.
fn are_equal(a: &Expr, b: &Expr) -> bool
    ensures { IsTrue result ↔ (expression_of a.now ≡ expression_of b.now) }
{
    same(a, b)
}

/// The place of the first name whose expression is equal to this one; how many names there are where
/// none is.
fn first_equal(held: &[Named<'_>], expr: &Expr) -> usize
    ensures { IsFirstEqual (map named_of held.now) (expression_of expr.now) result }
{
    'places: for (place, named) in held.iter().enumerate() {
        if are_equal(&named.expr, expr) {
            return place;
        }
    }
    held.len()
}

/// The names with numbers in place of their expressions. Equal expressions have the same number.
fn numbered<'a>(alloc: Global, held: &[Named<'a>]) -> Result<Vec<Member<'a>>, AllocError>
    ensures { IfOk result (λ members. AreNumbered (map named_of held.now)
        (map member_of members.items)) }
{
    let mut members = Vec::with_capacity(alloc, held.len())?;
    'names: for named in held {
        members.push(Member {
            session: named.session,
            name: named.name,
            number: first_equal(held, &named.expr),
        })?;
    }
    Ok(members)
}

/// Whether the members have one number.
fn is_one(member: &Member<'_>, other: &Member<'_>) -> bool
    ensures { result ≡ is_one_of member.now other.now }
{
    member.number == other.number
}

/// Whether one of the members has the number of this one.
fn is_among(members: &[Member<'_>], member: &Member<'_>) -> bool
    ensures { result ≡ list_any (is_one_of member.now) members.now }
{
    members.iter().any(|other| is_one(member, other))
}

/// Whether the member is the first of its number, and not the last.
fn begins_class(before: &[Member<'_>], member: &Member<'_>, behind: &[Member<'_>]) -> bool
    ensures { result ≡ (not (list_any (is_one_of member.now) before.now)
        && list_any (is_one_of member.now) behind.now) }
{
    !is_among(before, member) && is_among(behind, member)
}

/// Adds the members with the number of this one, each behind a blank.
fn push_others(
    out: &mut String,
    member: &Member<'_>,
    behind: &[Member<'_>],
) -> Result<(), AllocError>
    ensures { OnOk result (string_bytes out.new ≡ string_bytes out.old
        ++ behind_blanks (filter (is_one_with (member_of member.now)) (map member_of behind.now))) }
{
    'others: for other in behind {
        if is_one(member, other) {
            write!(out, " {}.{}", other.session, other.name)?;
        }
    }
    Ok(())
}

/// Adds the line of the class that a member begins. A class of one has no line.
fn push_class(
    out: &mut String,
    before: &[Member<'_>],
    member: &Member<'_>,
    behind: &[Member<'_>],
) -> Result<(), AllocError>
    ensures { OnOk result (string_bytes out.new ≡ string_bytes out.old
        ++ class_line (map member_of before.now) (member_of member.now)
        (map member_of behind.now)) }
{
    if !begins_class(before, member, behind) {
        return Ok(());
    }
    write!(out, "{}.{}", member.session, member.name)?;
    push_others(out, member, behind)?;
    writeln!(out)?;
    Ok(())
}

/// Adds a line for each class of two or more members.
fn push_classes(out: &mut String, members: &[Member<'_>]) -> Result<(), AllocError>
    ensures { OnOk result (string_bytes out.new ≡ string_bytes out.old
        ++ class_lines [] (map member_of members.now)) }
{
    'members: for (place, member) in members.iter().enumerate() {
        push_class(out, &members[..place], member, &members[place + 1..])?;
    }
    Ok(())
}

/// Adds the section of equal names.
pub fn push_equal(alloc: Global, out: &mut String, held: &[Named<'_>]) -> Result<(), AllocError>
    ensures { OnOk result ((text : List ℕ) × IsEqualSection (map named_of held.now) text
        × (string_bytes out.new ≡ string_bytes out.old ++ text)) }
{
    let members = numbered(alloc, held)?;
    writeln!(out, "== equal")?;
    push_classes(out, members.as_slice())
}
