//! What a G-code parser keeps from one line to the next: the modes, the offsets, the position, and the
//! last feed, spindle speed and tool.
#![tactic(auto)]

ghost use Rattle.std.specs.Prelude.{◌≡◌, ◌≤◌, ◌+ℤ◌, nat_abs};
ghost use Rattle.units.specs.Lengths.{IsPlace, IsScale};
ghost use Rattle.units.specs.Limits.{OnEachAxis};
ghost use Rattle.modal_state.specs.Modes.{opening_parser, offset_of, plus, wco_of, rebased, program_ended, farthest, IsWithin, IsSystem, IsOffsets, IsParser};

use units::{Nm3, Per3, Steps3, to_nm};

/// How an axis word moves: as a rapid, at a feed, or not at all.
#[derive(Clone, Copy, Debug, PartialEq, Eq)]
pub enum MotionMode {
    G0,
    G1,
    G80,
}

/// How the spindle turns: M5, M3 or M4.
#[derive(Clone, Copy, Debug, PartialEq, Eq)]
pub enum SpindleMode {
    Off,
    Cw,
    Ccw,
}

/// The modes that stay until a later line changes them.
#[derive(Clone, Copy, Debug, PartialEq, Eq)]
pub struct Modal {
    pub motion: MotionMode,
    /// The number of G17, G18 or G19.
    pub plane: u8,
    /// G20, and not G21.
    pub inch: bool,
    /// G91, and not G90.
    pub relative: bool,
    /// 1 for G54 to 6 for G59.
    pub system: u8,
    pub spindle: SpindleMode,
    /// M8, and not M9.
    pub flood: bool,
}

/// The offsets of G54 to G59, the points of G28.1 and G30.1, and the offset of G92, in nm.
#[derive(Clone, Copy, Debug, PartialEq, Eq)]
pub struct Offsets {
    pub s1: Nm3,
    pub s2: Nm3,
    pub s3: Nm3,
    pub s4: Nm3,
    pub s5: Nm3,
    pub s6: Nm3,
    pub home28: Nm3,
    pub home30: Nm3,
    pub g92: Nm3,
}

/// The state of a parser.
#[derive(Clone, Copy, Debug, PartialEq, Eq)]
pub struct Parser {
    pub modal: Modal,
    pub offsets: Offsets,
    /// The position in nm from the machine's zero.
    pub pos_nm: Nm3,
    /// The position in steps.
    pub pos_steps: Steps3,
    /// The last feed, in nm per minute.
    pub feed: i64,
    /// The last spindle speed, in turns per minute.
    pub rpm: u32,
    pub tool: u8,
}

const ORIGIN: Nm3 = Nm3 { x: 0, y: 0, z: 0 };

/// The sum of two lengths on an axis.
fn sum(a: i64, b: i64) -> i64
    requires a { nat_abs a ≤ farthest }
    requires b { nat_abs b ≤ farthest }
    ensures { result ≡ a +ℤ b }
{
    a + b
}

/// The sum of two points, axis by axis.
fn plus(a: Nm3, b: Nm3) -> Nm3
    requires a { IsWithin farthest a }
    requires b { IsWithin farthest b }
    ensures { result ≡ plus a b }
{
    Nm3 {
        x: sum(a.x, b.x),
        y: sum(a.y, b.y),
        z: sum(a.z, b.z),
    }
}

impl Offsets {
    /// The offset of a system, 1 for G54 to 6 for G59.
    pub fn of_system(&self, system: u8) -> Nm3
        requires offsets { IsOffsets self.now }
        requires system { IsSystem system }
        ensures offset { result ≡ offset_of self.now system }
        ensures near { IsWithin farthest result }
    {
        match system {
            1 => self.s1,
            2 => self.s2,
            3 => self.s3,
            4 => self.s4,
            5 => self.s5,
            _ => self.s6,
        }
    }
}

impl Parser {
    /// The state before the first line: G0, G17, G21, G90, G54, M5, M9, and zero everywhere else.
    pub fn opening() -> Parser
        ensures state { result ≡ opening_parser }
        ensures valid { IsParser result }
    {
        Parser {
            modal: Modal {
                motion: MotionMode::G0,
                plane: 17,
                inch: false,
                relative: false,
                system: 1,
                spindle: SpindleMode::Off,
                flood: false,
            },
            offsets: Offsets {
                s1: ORIGIN,
                s2: ORIGIN,
                s3: ORIGIN,
                s4: ORIGIN,
                s5: ORIGIN,
                s6: ORIGIN,
                home28: ORIGIN,
                home30: ORIGIN,
                g92: ORIGIN,
            },
            pos_nm: ORIGIN,
            pos_steps: Steps3 { x: 0, y: 0, z: 0 },
            feed: 0,
            rpm: 0,
            tool: 0,
        }
    }

    /// The work coordinate offset in nm: the selected system's offset and the G92 offset together.
    pub fn wco(&self) -> Nm3
        requires { IsParser self.now }
        ensures { result ≡ wco_of self.now }
    {
        plus(self.offsets.of_system(self.modal.system), self.offsets.g92)
    }

    /// Makes a place in steps the position, with its length in nm on each axis; all else stays. Called after a cut of
    /// jogs.
    pub fn rebase(&mut self, at: Steps3, per_mm: &Per3)
        requires valid { IsParser self.old }
        requires place { IsPlace at }
        requires scales { OnEachAxis IsScale per_mm.now }
        ensures state { self.new ≡ rebased self.old at per_mm.now }
        ensures valid { IsParser self.new }
    {
        self.pos_nm = Nm3 {
            x: to_nm(at.x, per_mm.x),
            y: to_nm(at.y, per_mm.y),
            z: to_nm(at.z, per_mm.z),
        };
        self.pos_steps = at;
    }

    /// Sets the modes that M2 and M30 set: G1, G17, G90, G54, M5 and M9; all else stays.
    pub fn end_program(&mut self)
        requires { IsParser self.old }
        ensures state { self.new ≡ program_ended self.old }
        ensures valid { IsParser self.new }
    {
        self.modal.motion = MotionMode::G1;
        self.modal.plane = 17;
        self.modal.relative = false;
        self.modal.system = 1;
        self.modal.spindle = SpindleMode::Off;
        self.modal.flood = false;
    }
}
