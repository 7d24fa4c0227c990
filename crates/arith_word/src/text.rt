ghost use Rattle.std.specs.Prelude.{◌≡◌, ◌≤◌, IfOk, MatchOption, IsUtf8, length, take, string_bytes, Some};

use Inner::*;
use std::alloc::{AllocError, Global};
use std::marker::Model;
use std::{fmt, str};

// The longest text that lies in the value itself.
const MAX_SHORT: usize = 16;

/// A text that contracts see as its bytes. Up to 16 bytes take no allocation, but for those of `from_string`.
#[derive(Drop)]
pub struct Text {
    inner: Inner,
}

#[derive(Drop)]
enum Inner {
    // How many of the bytes are the text. In this order both are moved as whole words.
    Short(usize, [u8; MAX_SHORT]),
    Long(String),
}

impl Model for Text {
    ghost use Rattle.std.specs.Prelude as prelude;
    ghost use Rattle.std.specs.Prelude.{ℕ};
    ghost use Rattle.arith_word.specs.TextInner.{inner_bytes, IsValidInner};

    ghost Value = { prelude.List ℕ };

    ghost view = { λ text. inner_bytes text.inner };

    ghost invariant = { λ text. IsValidInner text.inner };
}

impl Text {
    /// The text of the string.
    pub fn from_string(inner: String) -> Text
        ensures { result ≡ string_bytes inner }
    {
        Text { inner: Long(inner) }
    }

    /// A copy of the text.
    pub fn from_str(alloc: Global, text: &str) -> Result<Text, AllocError>
        ensures { IfOk result (λ made. made ≡ text.now) }
    {
        if text.len() <= MAX_SHORT {
            return Ok(Text::short(text));
        }
        Ok(Text {
            inner: Long(String::from_str(alloc, text)?),
        })
    }

    /// The text of these bytes; `None` exactly where they are no UTF-8.
    pub fn from_bytes(alloc: Global, bytes: &[u8]) -> Result<Option<Text>, AllocError>
        ensures { IfOk result (λ o. MatchOption o (IsUtf8 bytes.now → ⊥) (λ text. text ≡ bytes.now)) }
    {
        match str::from_utf8(bytes) {
            Ok(text) => Ok(Some(Text::from_str(alloc, text)?)),
            Err(_) => Ok(None),
        }
    }

    /// The text of the first `len` bytes.
    pub fn from_front(alloc: Global, bytes: &[u8], len: usize) -> Result<Text, AllocError>
        requires within { len ≤ length bytes.now }
        requires utf8 { IsUtf8 (take len bytes.now) }
        ensures { IfOk result (λ made. made ≡ take len bytes.now) }
    {
        if len <= MAX_SHORT {
            // One copy of a fixed size is fast. What lies behind the text is never seen.
            if let Some((chunk, _)) = bytes.split_first_chunk::<MAX_SHORT>() {
                return Ok(Text::of_chunk(chunk, len));
            }
        }
        let (front, _) = bytes.split_at(len);
        Text::from_str(alloc, unsafe { str::from_utf8_unchecked(front) })
    }

    // The text of the first `len` bytes of the chunk.
    fn of_chunk(chunk: &[u8; MAX_SHORT], len: usize) -> Text
        requires within { len ≤ 16 }
        requires utf8 { IsUtf8 (take len chunk.now) }
        ensures { result ≡ take len chunk.now }
    {
        Text {
            inner: Short(len, *chunk),
        }
    }

    // The text, in the value itself.
    fn short(text: &str) -> Text
        requires { length text.now ≤ 16 }
        ensures { result ≡ text.now }
    {
        let mut bytes = [0; MAX_SHORT];
        bytes[..text.len()].copy_from_slice(text.as_bytes());
        Text {
            inner: Short(text.len(), bytes),
        }
    }

    /// The text as a `&str`.
    pub fn as_str(&self) -> &str
        ensures { result.now ≡ self.now }
    {
        match &self.inner {
            // A `Text` holds nothing but UTF-8.
            Short(len, bytes) => unsafe { str::from_utf8_unchecked(&bytes[..*len]) },
            Long(text) => text.as_str(),
        }
    }

    /// The bytes of the text.
    pub fn as_bytes(&self) -> &[u8]
        ensures { result.now ≡ self.now }
    {
        self.as_str().as_bytes()
    }
}

impl fmt::Debug for Text {
    fn fmt<W: fmt::Write>(&self, f: &mut fmt::Formatter<W>) -> fmt::Result {
        f.debug_struct("Text")
            .field("inner", &self.as_str())
            .finish()
    }
}

impl fmt::Display for Text {
    ghost output = { λ text. Some text };

    fn fmt<W: fmt::Write>(&self, f: &mut fmt::Formatter<W>) -> fmt::Result {
        f.write_str(self.as_str())
    }
}
