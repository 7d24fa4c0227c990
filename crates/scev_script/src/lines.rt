ghost use Rattle.std.specs.Prelude.{◌≡◌, ◌≤◌, ◌<◌, length, take};
ghost use Rattle.std.specs.Str.Lines.{strip_carriage_return};
ghost use Rattle.scev_script.specs.FirstLine.{IsFirstLine};

use crate::bytes::place_of_first;

/// How many bytes of a line are its text, and how many there are with its end.
#[derive(Clone, Copy, Debug)]
pub struct LineSize {
    pub text: usize,
    pub whole: usize,
}

/// How many bytes there are before a CR at the end.
fn text_len(part: &[u8]) -> usize
    ensures text { take result part.now ≡ strip_carriage_return part.now }
    ensures within { result ≤ length part.now }
{
    if !part.is_empty() && part[part.len() - 1] == b'\r' {
        part.len() - 1
    } else {
        part.len()
    }
}

/// The size of the first line.
pub fn first_line(bytes: &[u8]) -> LineSize
    requires { 0 < length bytes.now }
    ensures { IsFirstLine bytes.now result }
{
    let end = place_of_first(b'\n', bytes);
    if end == bytes.len() {
        LineSize {
            text: end,
            whole: end,
        }
    } else {
        LineSize {
            text: text_len(bytes.split_at(end).0),
            whole: end + 1,
        }
    }
}
