ghost use Rattle.std.specs.Prelude.{◌≡◌, ◌<◌, ◌^◌, IfOk, length};
ghost use Rattle.scev_server.specs.Reply.{IsReply};

use crate::gate::Gate;
use crate::sessions::output_text;
use scev_input::{Refused, push_fault, read};
use std::alloc::{AllocError, Global};

/// The text that answers an input or refuses other bytes, and which of the two it is.
#[derive(Debug, Drop)]
pub struct Reply {
    pub text: Vec<u8>,
    pub accepted: bool,
}

/// The reply to these bytes. The gate is passed before each command.
pub fn reply_to<G: Gate>(alloc: Global, bytes: &[u8], gate: &G) -> Result<Reply, AllocError>
    requires { length bytes.now < 2 ^ 32 }
    ensures { IfOk result (λ r. IsReply r.accepted bytes.now r.text.items) }
{
    match read(alloc, bytes) {
        Ok(input) => Ok(Reply {
            text: output_text(alloc, &input.module, input.sessions.as_slice(), gate)?.into_bytes(),
            accepted: true,
        }),
        Err(Refused::Fault(fault)) => {
            let mut line = String::new(alloc);
            push_fault(&mut line, &fault)?;
            Ok(Reply {
                text: line.into_bytes(),
                accepted: false,
            })
        }
        Err(Refused::NoMemory) => Err(AllocError),
    }
}
