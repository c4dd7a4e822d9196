//! The G and M codes that a line is asked for.

use code_table::groups::{
    COOLANT, DISTANCE, FLOW, MOTION, NOT_MODAL, PLANE, SPINDLE, SYSTEM, UNITS,
};

/// A G or M code: its letter, ten times its number, and its modal group.
#[derive(Clone, Copy)]
pub struct Command {
    pub(crate) letter: u8,
    pub(crate) key: u16,
    pub(crate) group: u16,
}

macro_rules! g {
    ($key:literal, $group:ident) => {
        Command {
            letter: b'G',
            key: $key,
            group: $group,
        }
    };
}

macro_rules! m {
    ($key:literal, $group:ident) => {
        Command {
            letter: b'M',
            key: $key,
            group: $group,
        }
    };
}

pub const G0: Command = g!(0, MOTION);

pub const G1: Command = g!(10, MOTION);

pub const G4: Command = g!(40, NOT_MODAL);

pub const G10: Command = g!(100, NOT_MODAL);

pub const G17: Command = g!(170, PLANE);

pub const G18: Command = g!(180, PLANE);

pub const G19: Command = g!(190, PLANE);

pub const G20: Command = g!(200, UNITS);

pub const G21: Command = g!(210, UNITS);

pub const G28: Command = g!(280, NOT_MODAL);

pub const G28_1: Command = g!(281, NOT_MODAL);

pub const G30: Command = g!(300, NOT_MODAL);

pub const G30_1: Command = g!(301, NOT_MODAL);

pub const G53: Command = g!(530, NOT_MODAL);

pub const G54: Command = g!(540, SYSTEM);

pub const G55: Command = g!(550, SYSTEM);

pub const G56: Command = g!(560, SYSTEM);

pub const G57: Command = g!(570, SYSTEM);

pub const G58: Command = g!(580, SYSTEM);

pub const G59: Command = g!(590, SYSTEM);

pub const G80: Command = g!(800, MOTION);

pub const G90: Command = g!(900, DISTANCE);

pub const G91: Command = g!(910, DISTANCE);

pub const G92: Command = g!(920, NOT_MODAL);

pub const G92_1: Command = g!(921, NOT_MODAL);

pub const M0: Command = m!(0, FLOW);

pub const M2: Command = m!(20, FLOW);

pub const M3: Command = m!(30, SPINDLE);

pub const M4: Command = m!(40, SPINDLE);

pub const M5: Command = m!(50, SPINDLE);

pub const M8: Command = m!(80, COOLANT);

pub const M9: Command = m!(90, COOLANT);

pub const M30: Command = m!(300, FLOW);
