//! What a script calls round each of its lines.

/// What is called before and after each line of a script, with the line's number, by the thread that does the line. A test makes
/// threads wait for each other by it; nothing is proved of when it is called.
pub trait Gate: Sync {
    /// Called right before the line of this number is done.
    fn before(&self, line: usize);

    /// Called once it is done, before its worker's next line.
    fn after(&self, line: usize);
}

/// A gate that nobody waits at.
#[derive(Clone, Copy, Debug, Drop)]
pub struct OpenGate;

impl Gate for OpenGate {
    fn before(&self, _line: usize) {}

    fn after(&self, _line: usize) {}
}
