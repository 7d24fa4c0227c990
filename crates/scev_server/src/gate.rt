/// What is passed before each command of an input.
pub trait Gate {
    /// Returns, and takes no memory. Sessions, and the commands of each, are numbered from 0.
    fn pass(&self, session: u32, command: u32);
}

/// A gate that does nothing.
#[derive(Clone, Copy, Debug, PartialEq, Eq)]
pub struct OpenGate;

impl Gate for OpenGate {
    fn pass(&self, _session: u32, _command: u32) {}
}
