ghost use Rattle.std.specs.Prelude.{◌≡◌};
ghost use Rattle.scev_server.specs.Serving.{status_number};

/// How a call of the server ended.
#[derive(Clone, Copy, Debug, PartialEq, Eq)]
pub enum Status {
    /// The input was read to its end and its whole output was written.
    Done,
    /// The words aren't taken. Nothing was read or written.
    BadWords,
    /// The source had a fault. Nothing was written.
    ReadFault,
    /// The bytes read to the end are no input, and one line that says so was written.
    BadInput,
    /// The sink had a fault. A front part of the output or of the line was written.
    WriteFault,
    /// Memory ran out. Nothing was written.
    NoMemory,
    /// One byte more than an input may have was read. Nothing was written.
    TooLong,
}

impl Status {
    /// The number that the program ends with: 0 for `Done`, and 2 to 7 for the others in order.
    pub fn number(self) -> u8
        ensures { result ≡ status_number self }
    {
        match self {
            Status::Done => 0,
            Status::BadWords => 2,
            Status::ReadFault => 3,
            Status::BadInput => 4,
            Status::WriteFault => 5,
            Status::NoMemory => 6,
            Status::TooLong => 7,
        }
    }
}
