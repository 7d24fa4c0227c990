ghost use Rattle.std.specs.Prelude.{◌≡◌};
ghost use Rattle.mlir_ir.specs.Words.{bits_of};

use crate::types::IrType;
use arith_word::Width;

impl IrType {
    /// How many bits a value of the type has: 64 for `index`.
    pub fn width(self) -> Width
        ensures { result ≡ bits_of self }
    {
        match self {
            IrType::Int(width) => width,
            IrType::Index => Width::new(64).unwrap(),
        }
    }
}
