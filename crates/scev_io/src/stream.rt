ghost use Rattle.std.specs.Prelude.{◌≡◌, ℕ, ◌<◌, ◌≤◌, List, Option, length, take, IfOk, OnErr};
ghost use Rattle.scev_io.specs.Bytes.{before_giving, after_putting, IsSpent};
ghost use Rattle.scev_io.specs.Faults.{HasCause};

/// The error of a call that gave or took no bytes.
#[derive(Clone, Copy, Debug, PartialEq, Eq)]
pub struct Failed;

/// Where bytes come from.
pub trait Source {
    /// The bytes still to come, where the source tells them. A source that tells them before a call
    /// tells them after it, and one that doesn't never does.
    ghost left: { Self → Option (List ℕ) };

    /// A count of faults, which never falls.
    ghost faults: { Self → ℕ };

    /// Gives the next bytes: the first `n` of the buffer. 0 for a buffer that isn't empty is the
    /// end. A call that fails gives nothing.
    fn take(&mut self, buf: &mut [u8]) -> Result<usize, Failed>
        ensures bound { IfOk result (λ n. n ≤ length buf.new) }
        ensures gives { IfOk result (λ n. left self.old ≡ before_giving (take n buf.new) (left self.new)) }
        ensures ends { IfOk result (λ n. n ≡ 0 → 0 < length buf.new → IsSpent (left self.new)) }
        ensures keeps { OnErr result (left self.new ≡ left self.old) }
        ensures cause { HasCause (faults self.old) (faults self.new) result };
}

/// Where bytes go.
pub trait Sink {
    /// The bytes that were put, where the sink tells them. A sink that tells them before a call
    /// tells them after it, and one that doesn't never does.
    ghost written: { Self → Option (List ℕ) };

    /// A count of faults, which never falls.
    ghost faults: { Self → ℕ };

    /// Takes the first `n` bytes of the piece, at least one where the piece isn't empty. A call
    /// that fails takes nothing. No empty piece is ever put.
    fn put(&mut self, bytes: &[u8]) -> Result<usize, Failed>
        requires { 0 < length bytes.now }
        ensures bound { IfOk result (λ n. n ≤ length bytes.now) }
        ensures some { IfOk result (λ n. 0 < length bytes.now → 0 < n) }
        ensures puts { IfOk result (λ n. written self.new ≡ after_putting (written self.old) (take n bytes.now)) }
        ensures keeps { OnErr result (written self.new ≡ written self.old) }
        ensures cause { HasCause (faults self.old) (faults self.new) result };
}
