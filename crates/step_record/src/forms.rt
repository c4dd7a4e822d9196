//! The forms of step texts, and the lines that they have.

use step_line::{Bits, Record};

/// How the records of a text are written.
#[derive(Clone, Copy, Debug, PartialEq, Eq)]
pub enum Form {
    /// Each record has its line.
    One,
    /// Behind the version, equal events that stand together are one line, and each other record has its line.
    Two,
}

/// A line of a text in either form.
#[derive(Clone, Copy, Debug, PartialEq, Eq)]
pub enum Line {
    /// A record's.
    One(Record),
    /// So many equal events, at least two.
    Run(u32, Bits),
    /// What a text of form 2 begins with.
    Version,
}
