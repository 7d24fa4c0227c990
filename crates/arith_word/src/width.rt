ghost use Rattle.std.specs.Prelude.{◌≡◌, ◌+◌, ◌≤◌, ◌^◌, nat_lt, ◌&&◌, if◌then◌else◌, Some, None};

use std::marker::Model;

/// A width in bits, 1 to 64, which contracts see as that number.
#[derive(Clone, Copy, Debug, PartialEq, Eq)]
pub struct Width {
    bits: u32,
}

impl Model for Width {
    ghost use Rattle.std.specs.Prelude.{ℕ, ◌≤◌};

    ghost Value = { ℕ };

    ghost view = { λ width. width.bits };

    ghost invariant = { λ width. (1 ≤ width.bits) × (width.bits ≤ 64) };

    ghost inverse = { λ n. record { bits = n } };
}

impl Width {
    /// The width of `n` bits; `None` exactly for 0 and above 64.
    pub fn new(n: u32) -> Option<Width>
        ensures { result ≡ (if nat_lt 0 n && nat_lt n 65 then Some n else None) }
    {
        if n == 0 || n > 64 {
            None
        } else {
            Some(Width { bits: n })
        }
    }

    /// The number of bits.
    pub fn bits(self) -> u32
        ensures value { result ≡ self }
        ensures at_least { 1 ≤ self }
        ensures at_most { self ≤ 64 }
    {
        self.bits
    }

    /// The greatest number of this width, 2 to the width less 1.
    pub fn mask(self) -> u64
        ensures value { result + 1 ≡ 2 ^ self }
        ensures at_least { 1 ≤ self }
        ensures at_most { self ≤ 64 }
    {
        if self.bits == 64 {
            u64::MAX
        } else {
            (1u64 << self.bits) - 1
        }
    }
}
