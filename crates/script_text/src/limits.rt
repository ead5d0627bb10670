//! How much there may be of each thing in a script.

/// The most lines of a text.
pub const MOST_LINES: u32 = 65_536;

/// The most bytes of a line, without its end.
pub const MOST_LINE_BYTES: usize = 16_384;

/// The most threads of a script.
pub const MOST_THREADS: u32 = 16;

/// The most partitions of a session.
pub const MOST_PARTITIONS: u32 = 32;

/// The most bytes of a name.
pub const MOST_NAME_BYTES: usize = 16;
