ghost use Rattle.std.specs.Prelude.{◌≡◌, ◌≢◌, ℕ, ◌+◌, ◌<◌, ◌≤◌, ◌↔◌, List, Bool, Option, None, length, map, take, string_bytes, IfSome};
ghost use Rattle.scev_io.specs.Bytes.{before_giving, after_putting};
ghost use Rattle.scev_io.specs.Faults.{Rose};
ghost use Rattle.scev_server.specs.Reply.{input_limit, IsReply, IsAnswer, IsRefusal};
ghost use Rattle.scev_server.specs.Options.{options_of};
ghost use Rattle.scev_server.specs.Serving.{ReadToEnd, HasTaken, IsSilent, CallsFor};

use crate::gate::Gate;
use crate::reply::reply_to;
use crate::status::Status;
use scev_io::{ReadEnd, Sink, Source, read_all, write_all};
use std::alloc::Global;
use std::thread::Threads;

/// The most bytes of an input.
const INPUT_LIMIT: u32 = 4_194_304;

/// Answers the input that the source gives, and says how that ended. `words` are the program's
/// arguments without its name; none are taken.
pub fn serve<R: Threads + Sync, S: Source, K: Sink, G: Gate + Sync>(
    rt: &R,
    alloc: Global,
    words: &[String],
    src: &mut S,
    out: &mut K,
    gate: &G,
) -> Status
    // Words are refused, and then nothing is read or written.
    ensures bad_words { (result ≡ Status.BadWords)
        ↔ (options_of (map string_bytes words.now) ≡ None) }
    ensures unread { result ≡ Status.BadWords → src.new ≡ src.old }
    ensures silent { IsSilent result → out.new ≡ out.old }
    // The source was read to its end, and the answer or the refusal was written whole.
    ensures done { result ≡ Status.Done → (read : List ℕ) × (text : List ℕ)
        × ReadToEnd (S.left src.old) (S.left src.new) read
        × IsAnswer read text
        × (K.written out.new ≡ after_putting (K.written out.old) text) }
    ensures bad_input { result ≡ Status.BadInput → (read : List ℕ) × (text : List ℕ)
        × ReadToEnd (S.left src.old) (S.left src.new) read
        × IsRefusal read text
        × (K.written out.new ≡ after_putting (K.written out.old) text) }
    // A fault of this call, and not of an earlier one.
    ensures read_fault { result ≡ Status.ReadFault → Rose (S.faults src.old) (S.faults src.new) }
    ensures write_fault { result ≡ Status.WriteFault → Rose (K.faults out.old) (K.faults out.new) }
    ensures written_part { result ≡ Status.WriteFault → (accepted : Bool) × (read : List ℕ)
        × (text : List ℕ) × (n : ℕ)
        × ReadToEnd (S.left src.old) (S.left src.new) read
        × IsReply accepted read text
        × (n < length text)
        × (K.written out.new ≡ after_putting (K.written out.old) (take n text)) }
    // One byte more than the limit was read, and else at most as many as the limit, unless memory ran out.
    ensures too_long { result ≡ Status.TooLong → (read : List ℕ) × (length read ≡ input_limit + 1)
        × (S.left src.old ≡ before_giving read (S.left src.new)) }
    ensures within { HasTaken (input_limit + 1) (S.left src.old) (S.left src.new) }
    ensures short { result ≢ Status.TooLong → result ≢ Status.NoMemory
        → HasTaken input_limit (S.left src.old) (S.left src.new) }
    // Where the source tells its bytes, no words are given and no fault comes, the bytes decide.
    ensures complete { options_of (map string_bytes words.now) ≢ None
        → ¬ Rose (S.faults src.old) (S.faults src.new)
        → ¬ Rose (K.faults out.old) (K.faults out.new)
        → IfSome (S.left src.old) (λ bytes. CallsFor bytes result) }
    ensures read_count { S.faults src.old ≤ S.faults src.new }
    ensures write_count { K.faults out.old ≤ K.faults out.new }
{
    let _ = rt;
    if !words.is_empty() {
        return Status::BadWords;
    }
    let bytes = match read_all(alloc, src, INPUT_LIMIT) {
        Ok(bytes) => bytes,
        Err(ReadEnd::Fault) => return Status::ReadFault,
        Err(ReadEnd::TooLong) => return Status::TooLong,
        Err(ReadEnd::NoMemory) => return Status::NoMemory,
    };
    let reply = match reply_to(alloc, bytes.as_slice(), gate) {
        Ok(reply) => reply,
        Err(_) => return Status::NoMemory,
    };
    match write_all(out, reply.text.as_slice()) {
        Err(_) => Status::WriteFault,
        Ok(()) => {
            if reply.accepted {
                Status::Done
            } else {
                Status::BadInput
            }
        }
    }
}

#[cfg(test)]
mod tests {
    use super::*;
    use crate::gate::OpenGate;
    use scev_io::{MemSink, MemSource};
    use std::alloc::AllocError;
    use std::process::Abort;
    use std::sync::atomic::{AtomicUsize, Ordering};
    use std::test::Fail;

    const LINES: &[u8] = b"== log\n== equal\n";

    const REFUSAL: &[u8] = b"bad input: lex at 0\n";

    /// An input without a session.
    const INPUT: &[u8] = b"func.func @f() {\n  return\n}\n";

    /// What a call is given: words, bytes, and how the source and the sink behave.
    #[derive(Drop)]
    struct Case<'a> {
        words: Vec<String>,
        bytes: Vec<u8>,
        read_faults: &'a [u32],
        room: u32,
        write_faults: &'a [u32],
        piece: u32,
    }

    /// Ample room and no faults.
    fn ample<'a>(alloc: Global, bytes: Vec<u8>) -> Case<'a> {
        Case {
            words: Vec::new(alloc),
            bytes,
            read_faults: &[],
            room: 4096,
            write_faults: &[],
            piece: 4096,
        }
    }

    /// How a call ended.
    #[derive(Drop)]
    struct Ended {
        status: Status,
        src: MemSource,
        out: MemSink,
    }

    fn run(rt: &(impl Threads + Sync), alloc: Global, case: Case<'_>) -> Result<Ended, AllocError> {
        let failing = Vec::from_slice(alloc, case.read_faults)?;
        let mut src = MemSource::new(case.bytes, failing);
        let failing = Vec::from_slice(alloc, case.write_faults)?;
        let mut out = MemSink::new(alloc, case.room, failing, case.piece)?;
        let status = serve(
            rt,
            alloc,
            case.words.as_slice(),
            &mut src,
            &mut out,
            &OpenGate,
        );
        Ok(Ended { status, src, out })
    }

    fn expect(rt: &impl Abort, ended: &Ended, status: Status, written: &[u8], faults: (u64, u64)) {
        assert_eq!(rt; ended.status, status);
        assert_eq!(rt; ended.out.written(), written);
        assert_eq!(rt; (ended.src.fault_count(), ended.out.fault_count()), faults);
    }

    #[test]
    fn answers_with_ample_memory(rt: HostRuntime) -> Result<(), Fail> {
        let alloc = rt.alloc();
        let ended = run(&rt, alloc, ample(alloc, INPUT.to_vec(alloc)?))?;
        expect(&rt, &ended, Status::Done, LINES, (0, 0));
        let ended = run(&rt, alloc, ample(alloc, b"?".to_vec(alloc)?))?;
        expect(&rt, &ended, Status::BadInput, REFUSAL, (0, 0));
        Ok(())
    }

    #[test]
    fn reads_nothing_where_words_are_given(rt: HostRuntime) -> Result<(), Fail> {
        let alloc = rt.alloc();
        let mut case = ample(alloc, b"abc".to_vec(alloc)?);
        case.words.push("--stats".to_string(alloc)?)?;
        let ended = run(&rt, alloc, case)?;
        expect(&rt, &ended, Status::BadWords, b"", (0, 0));
        assert_eq!(rt; ended.src.rest(), b"abc".as_slice());
        Ok(())
    }

    #[test]
    fn stops_at_a_read_fault(rt: HostRuntime) -> Result<(), Fail> {
        let alloc = rt.alloc();
        let mut case = ample(alloc, vec![in alloc; b' '; 10_000]?);
        case.read_faults = &[2];
        let ended = run(&rt, alloc, case)?;
        expect(&rt, &ended, Status::ReadFault, b"", (1, 0));
        Ok(())
    }

    #[test]
    fn stops_at_a_write_fault(rt: HostRuntime) -> Result<(), Fail> {
        let alloc = rt.alloc();
        let mut full = ample(alloc, INPUT.to_vec(alloc)?);
        full.room = 0;
        let ended = run(&rt, alloc, full)?;
        expect(&rt, &ended, Status::WriteFault, b"", (0, 1));
        let mut failing = ample(alloc, INPUT.to_vec(alloc)?);
        failing.write_faults = &[2];
        failing.piece = 3;
        let ended = run(&rt, alloc, failing)?;
        expect(&rt, &ended, Status::WriteFault, b"== log", (0, 1));
        Ok(())
    }

    #[test]
    fn calls_nothing_behind_the_last_byte(rt: HostRuntime) -> Result<(), Fail> {
        let alloc = rt.alloc();
        // One call gives the input and the next one the end; one takes the output.
        let mut case = ample(alloc, INPUT.to_vec(alloc)?);
        case.read_faults = &[2];
        case.write_faults = &[1];
        let ended = run(&rt, alloc, case)?;
        expect(&rt, &ended, Status::Done, LINES, (0, 0));
        Ok(())
    }

    #[test]
    fn writes_byte_by_byte(rt: HostRuntime) -> Result<(), Fail> {
        let alloc = rt.alloc();
        let mut case = ample(alloc, INPUT.to_vec(alloc)?);
        case.piece = 1;
        let ended = run(&rt, alloc, case)?;
        expect(&rt, &ended, Status::Done, LINES, (0, 0));
        Ok(())
    }

    #[test]
    fn stops_behind_the_limit(rt: HostRuntime) -> Result<(), Fail> {
        let alloc = rt.alloc();
        for (length, status, written) in [
            (INPUT_LIMIT as usize, Status::Done, LINES),
            (INPUT_LIMIT as usize + 1, Status::TooLong, b"".as_slice()),
        ] {
            let ended = run(&rt, alloc, ample(alloc, vec![in alloc; b' '; length]?))?;
            expect(&rt, &ended, status, written, (0, 0));
        }
        Ok(())
    }

    /// A gate that keeps its calls in order, each in two decimal digits: ten times the session, plus
    /// the command, plus one.
    #[derive(Drop)]
    struct RecordingGate {
        calls: AtomicUsize,
    }

    impl Gate for RecordingGate {
        fn pass(&self, session: u32, command: u32) {
            let call = (session as usize)
                .wrapping_mul(10)
                .wrapping_add(command as usize)
                .wrapping_add(1);
            let before = self.calls.load(Ordering::SeqCst);
            let calls = before.wrapping_mul(100).wrapping_add(call);
            self.calls.store(calls, Ordering::SeqCst);
        }
    }

    #[test]
    fn passes_the_gate_before_each_command(rt: HostRuntime) -> Result<(), Fail> {
        let alloc = rt.alloc();
        let bytes = b"== session a\npin 0\npin 0\n== session b\npin 0\n".to_vec(alloc)?;
        let gate = RecordingGate {
            calls: AtomicUsize::new(0),
        };
        let mut src = MemSource::new(bytes, Vec::new(alloc));
        let mut out = MemSink::new(alloc, 4096, Vec::new(alloc), 4096)?;
        let status = serve(&rt, alloc, &[], &mut src, &mut out, &gate);
        assert_eq!(&rt; status, Status::Done);
        assert_eq!(&rt; gate.calls.load(Ordering::SeqCst), 10_211);
        Ok(())
    }
}
