/// A gate that a thread of a script passes before each of its lines. It is told the number of the
/// thread, from 1, and the number of the line in the input. It may take its time, so that tests can
/// order what threads do, and returns from each call. It tells nothing.
pub trait Gate: Sync {
    /// Comes before this line of this thread.
    fn before(&self, thread: u32, line: u32);
}

/// A gate that is always open: it does nothing.
#[derive(Clone, Copy, Debug)]
pub struct OpenGate;

impl Gate for OpenGate {
    fn before(&self, _thread: u32, _line: u32) {}
}
