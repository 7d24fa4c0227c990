ghost use Rattle.std.specs.Prelude.{◌≡◌, IfOk};
ghost use Rattle.std.specs.List.{list_all};
ghost use Rattle.scev_script.specs.Names as names;

use crate::bytes::{is_session, place_of_first};
use crate::limits::{INDEX_LIMIT, SESSION_NAME_LIMIT};
use crate::numbers::{number_up_to, place};
use crate::script::ValueName;
use arith_word::Text;
use mlir_ir::is_name;
use std::alloc::{AllocError, Global};

fn are_session(bytes: &[u8]) -> bool
    ensures { result ≡ list_all names.is_session_byte bytes.now }
{
    bytes.iter().all(|b| is_session(*b))
}

/// Whether the bytes are the name of a session: 1 to 32 letters, digits or `_`.
fn is_session_name(name: &[u8]) -> bool
    ensures { result ≡ names.is_session_name name.now }
{
    !name.is_empty() && name.len() <= SESSION_NAME_LIMIT && are_session(name)
}

/// The word, where it is the name of a session.
#[tactic(auto, using(crate::proofs::Ascii::session_utf8))]
pub fn session_name(alloc: Global, word: &[u8]) -> Result<Option<Text>, AllocError>
    ensures { IfOk result (λ o. o ≡ names.name_of_session word.now) }
{
    if is_session_name(word) {
        Ok(Some(Text::from_front(alloc, word, word.len())?))
    } else {
        Ok(None)
    }
}

/// The name of a function or a value behind that mark.
#[tactic(auto, using(crate::proofs::Ascii::name_utf8))]
fn name_behind(alloc: Global, mark: u8, word: &[u8]) -> Result<Option<Text>, AllocError>
    ensures { IfOk result (λ o. o ≡ names.name_behind mark word.now) }
{
    match word.split_first() {
        None => Ok(None),
        Some((first, name)) => {
            if *first == mark && is_name(name) {
                Ok(Some(Text::from_front(alloc, name, name.len())?))
            } else {
                Ok(None)
            }
        }
    }
}

/// The name of a function, behind its `@`.
pub fn symbol(alloc: Global, word: &[u8]) -> Result<Option<Text>, AllocError>
    ensures { IfOk result (λ o. o ≡ names.symbol_of word.now) }
{
    name_behind(alloc, b'@', word)
}

/// The place behind a mark; where there is no mark, the usual one.
fn place_behind(usual: u32, bytes: &[u8]) -> Option<u32>
    ensures { result ≡ names.place_behind usual bytes.now }
{
    match bytes.split_first() {
        None => Some(usual),
        Some((_, digits)) => place(digits),
    }
}

/// The value of that name, with the words of its places.
fn placed(name: Text, nth: &[u8], pack: &[u8]) -> Option<ValueName>
    ensures { result ≡ names.value_at name nth.now pack.now }
{
    let nth = place_behind(1, nth)?;
    let result = place_behind(0, pack)?;
    Some(ValueName { name, nth, result })
}

/// The value of a word `%v`, `%v!K`, `%v#J` or `%v!K#J`.
#[tactic(auto, unfolding(crate::specs::Names::value_named))]
pub fn value_named(alloc: Global, word: &[u8]) -> Result<Option<ValueName>, AllocError>
    ensures { IfOk result (λ o. o ≡ names.value_named word.now) }
{
    let (front, pack) = word.split_at(place_of_first(b'#', word));
    let (value, nth) = front.split_at(place_of_first(b'!', front));
    match name_behind(alloc, b'%', value)? {
        None => Ok(None),
        Some(name) => Ok(placed(name, nth, pack)),
    }
}

/// The number of a loop in a word `#L`.
pub fn loop_number(word: &[u8]) -> Option<u16>
    ensures { result ≡ names.loop_of word.now }
{
    match word.split_first() {
        None => None,
        Some((first, digits)) => {
            if *first == b'#' {
                let number = number_up_to(INDEX_LIMIT, digits)?;
                Some(number as u16)
            } else {
                None
            }
        }
    }
}
