//! The refusals of lines, each with its number. The numbers are Grbl's.

use crate::Code;

impl Code {
    /// A word does not begin with a letter.
    pub const EXPECTED_LETTER: Code = Code(1);

    /// No number is where one has to be, or a greater one than is read.
    pub const BAD_NUMBER: Code = Code(2);

    /// A line that begins with `$` is not served, or what it sets is out of range.
    pub const INVALID_STATEMENT: Code = Code(3);

    pub const NEGATIVE_VALUE: Code = Code(4);

    /// The line waits for a machine that stands.
    pub const NOT_IDLE: Code = Code(8);

    /// The machine jogs, or is locked.
    pub const LOCKED_OUT: Code = Code(9);

    /// More bytes are kept of the line than are read.
    pub const LINE_TOO_LONG: Code = Code(11);

    /// A jog leaves the travel.
    pub const TRAVEL_EXCEEDED: Code = Code(15);

    /// No jog takes this code.
    pub const INVALID_JOG: Code = Code(16);

    pub const UNSUPPORTED_COMMAND: Code = Code(20);

    /// Two codes are of one modal group.
    pub const MODAL_GROUP_VIOLATION: Code = Code(21);

    pub const UNDEFINED_FEED: Code = Code(22);

    pub const COMMAND_NOT_WHOLE: Code = Code(23);

    /// Two codes take the axis words.
    pub const AXIS_COMMAND_CONFLICT: Code = Code(24);

    pub const REPEATED_WORD: Code = Code(25);

    pub const NO_AXIS_WORDS: Code = Code(26);

    pub const INVALID_LINE_NUMBER: Code = Code(27);

    /// A command has no word of those that it needs.
    pub const VALUE_WORD_MISSING: Code = Code(28);

    pub const UNSUPPORTED_SYSTEM: Code = Code(29);

    /// Machine coordinates are asked for where nothing moves.
    pub const MACHINE_COORDINATES_WITHOUT_MOTION: Code = Code(30);

    pub const AXIS_WORDS_WITHOUT_MOTION: Code = Code(31);

    /// A target, or an offset, is farther than is served.
    pub const TARGET_OUT_OF_RANGE: Code = Code(33);

    pub const UNUSED_WORDS: Code = Code(36);

    pub const TOOL_OUT_OF_RANGE: Code = Code(38);
}
