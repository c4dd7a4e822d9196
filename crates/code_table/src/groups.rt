//! The modal groups of codes: a line may have one code of each.

/// G codes that are not modal.
pub const NOT_MODAL: u16 = 0;

/// How axis words move.
pub const MOTION: u16 = 1;

pub const PLANE: u16 = 2;

/// Whether axis words count from the position.
pub const DISTANCE: u16 = 3;

pub const ARC_DISTANCE: u16 = 4;

pub const FEED_MODE: u16 = 5;

/// Inches or millimetres.
pub const UNITS: u16 = 6;

pub const CUTTER: u16 = 7;

pub const TOOL_LENGTH: u16 = 8;

/// The coordinate system.
pub const SYSTEM: u16 = 12;

pub const PATH: u16 = 13;

/// M codes that stop the program.
pub const FLOW: u16 = 20;

pub const SPINDLE: u16 = 21;

pub const COOLANT: u16 = 22;
