ghost use Rattle.std.specs.Prelude.{◌≡◌, ◌+◌, ◌<◌, ◌≤◌, ◌^◌};
ghost use Rattle.mlir_ir.specs.Check as spec;
ghost use Rattle.mlir_ir.specs.Limits.{loop_limit, region_limit};

use crate::rules::{Nest, Position};

impl Position {
    /// The position past that many labels and operations more.
    pub(crate) fn past(self, labels: u32, ops: u32) -> Position
        requires labels { self.next + labels < 2 ^ 32 }
        requires ops { self.ops + ops < 2 ^ 32 }
        ensures { result ≡ spec.past labels ops self }
    {
        let next = self.next + labels;
        Position {
            next,
            last: if labels == 0 { self.last } else { next - 1 },
            ops: self.ops + ops,
        }
    }
}

impl Nest {
    /// Inside a region of an `scf.if`.
    pub(crate) fn opened(self) -> Nest
        requires { self.regions ≤ region_limit }
        ensures { result ≡ spec.opened self }
    {
        Nest {
            regions: self.regions + 1,
            loops: self.loops,
            item_fits: self.item_fits,
        }
    }

    /// Inside a region of a loop.
    pub(crate) fn looped(self) -> Nest
        requires regions { self.regions ≤ region_limit }
        requires loops { self.loops ≤ loop_limit }
        ensures { result ≡ spec.looped self }
    {
        Nest {
            regions: self.regions + 1,
            loops: self.loops + 1,
            item_fits: self.item_fits,
        }
    }
}
