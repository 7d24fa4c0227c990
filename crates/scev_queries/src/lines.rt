ghost use Rattle.std.specs.Prelude.{◌≡◌, IfOk, string_bytes};
ghost use Rattle.scev_queries.specs.Answers.{line_of};

use arith_word::Text;
use scev_script::Reply;
use std::alloc::AllocError;

/// The reply of one line, which is written without its end.
pub fn line_reply(line: String) -> Result<Reply, AllocError>
    ensures { IfOk result (λ reply. reply ≡ line_of (string_bytes line)) }
{
    let mut line = line;
    writeln!(line)?;
    Ok(Reply::Lines(Text::from_string(line)))
}
