//! The statuses with which a run ends.

/// The whole report was written.
pub const DONE: u8 = 0;

/// The words are no command.
pub const USAGE: u8 = 1;

/// The dump, or what the command asks of it, is refused.
pub const REFUSED: u8 = 2;

/// The whole report was written, and it has a finding.
pub const FOUND: u8 = 3;

/// The dump can't be opened or read.
pub const UNREAD: u8 = 4;

/// A write failed.
pub const UNWRITTEN: u8 = 5;

/// There was no memory.
pub const NO_MEMORY: u8 = 6;
