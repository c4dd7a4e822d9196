//! The realtime bytes that a host and an audit look for. Every byte from 0x80 is one; what each asks for is in `code_table`.

/// Resets the machine.
pub const RESET: u8 = 0x18;

/// Asks for a report.
pub const QUERY: u8 = b'?';

/// Holds the machine.
pub const HOLD: u8 = b'!';

/// Resumes the machine, or starts what is queued.
pub const RESUME: u8 = b'~';

/// Cancels jogs.
pub const CANCEL: u8 = 0x85;
