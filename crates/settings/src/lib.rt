//! The numbered settings.
#![tactic(auto)]

ghost use Rattle.std.specs.Prelude.{◌≡◌, ◌<◌, ◌≤◌, slice_get, ◌&&◌, false, nat_le, int_lt, pos, Some, None, IsTrue, OnOk, OnErr, IfOk, IfErr};
ghost use Rattle.code_table.specs.Tables.{value_of};
ghost use Rattle.settings.specs.Numbers.{values, defaults, is_kept_whole, is_whole, kept, shown, set_refusal, value_set, with_value, can_have_at, IsSettings};

mod laws;

use code_table::Code;
pub use laws::{
    numbers_are_in_order, ranges_are_those_of_the_rows, values_are_all, what_is_set_is_read,
};
use units::{Decimal, Limits, Per3};

/// The settings of a controller.
#[derive(Clone, Copy, Debug, PartialEq, Eq)]
pub struct Settings {
    /// What reports show: bit 0 for the machine position, bit 1 for free room.
    pub report: u8,
    /// How far a junction may leave its corner, in µm.
    pub deviation: u32,
    /// Whether targets are held within travel.
    pub soft: bool,
    pub limits: Limits,
    /// How far each axis may go below zero, in µm.
    pub travel: Per3,
}

/// How the value of a setting is kept: its whole part, whether its whole part isn't 0, or three decimals.
#[derive(Clone, Copy)]
enum Keeping {
    Whole,
    Switch,
    Thousandths,
}

/// Gives the rows of the settings to another macro. A row is a number, how the value is kept, the lowest
/// and the highest value that it takes, and the field that has it.
macro_rules! with_rows {
    ($then:ident $given:tt) => {
        $then! { $given
            10 Whole 0..=255, report;
            11 Thousandths 0..=10_000, deviation;
            20 Switch 0..=255, soft;
            100 Thousandths 1_000..=10_000_000, limits.per_mm.x;
            101 Thousandths 1_000..=10_000_000, limits.per_mm.y;
            102 Thousandths 1_000..=10_000_000, limits.per_mm.z;
            110 Thousandths 1_000..=1_000_000_000, limits.rate.x;
            111 Thousandths 1_000..=1_000_000_000, limits.rate.y;
            112 Thousandths 1_000..=1_000_000_000, limits.rate.z;
            120 Thousandths 1_000..=1_000_000_000, limits.accel.x;
            121 Thousandths 1_000..=1_000_000_000, limits.accel.y;
            122 Thousandths 1_000..=1_000_000_000, limits.accel.z;
            130 Thousandths 1_000..=10_000_000, travel.x;
            131 Thousandths 1_000..=10_000_000, travel.y;
            132 Thousandths 1_000..=10_000_000, travel.z;
        }
    };
}

/// The value of the setting with a number.
macro_rules! read_row {
    (($settings:ident, $n:ident) $($number:literal $keeping:ident $low:literal..=$high:literal, $($field:ident).+;)+) => {
        match $n {
            $($number => Some(u64::from($settings.$($field).+)),)+
            _ => None,
        }
    };
}

/// The number of each setting, and its value.
macro_rules! list_rows {
    (($settings:ident) $($number:literal $keeping:ident $low:literal..=$high:literal, $($field:ident).+;)+) => {
        [$(($number, u32::from($settings.$($field).+)),)+]
    };
}

/// What the setting with a number takes of a value.
macro_rules! take_row {
    (($n:ident, $v:ident) $($number:literal $keeping:ident $low:literal..=$high:literal, $($field:ident).+;)+) => {
        match $n {
            $($number => taken(Keeping::$keeping, $v, $low, $high),)+
            _ => Err(Code::INVALID_STATEMENT),
        }
    };
}

/// Whether the setting with a number is a whole number.
macro_rules! whole_row {
    (($n:ident) $($number:literal $keeping:ident $low:literal..=$high:literal, $($field:ident).+;)+) => {
        match $n {
            $($number => is_kept_whole(Keeping::$keeping),)+
            _ => false,
        }
    };
}

/// A value as the type of a setting that keeps it.
macro_rules! as_kept {
    (Whole $value:expr) => { $value as u8 };
    (Switch $value:expr) => { $value != 0 };
    (Thousandths $value:expr) => { $value };
}

/// Writes a value to the setting with a number.
macro_rules! write_row {
    (($settings:ident, $n:ident, $value:ident) $($number:literal $keeping:ident $low:literal..=$high:literal, $($field:ident).+;)+) => {
        match $n {
            $($number => $settings.$($field).+ = as_kept!($keeping $value),)+
            _ => unreachable!(),
        }
    };
}

/// Whether the whole part of a value is kept, or whether that isn't 0.
fn is_kept_whole(keeping: Keeping) -> bool
    ensures { result ≡ is_kept_whole keeping }
{
    matches!(keeping, Keeping::Whole | Keeping::Switch)
}

/// Whether the value of the setting with a number is a whole number. That of the others has three decimals.
pub fn is_whole(n: u16) -> bool
    ensures { result ≡ is_whole n }
{
    with_rows!(whole_row(n))
}

/// What is kept of a value.
fn kept(keeping: Keeping, v: Decimal) -> u64
    ensures { result ≡ kept keeping v }
{
    let micro = v.micro.unsigned_abs();
    match keeping {
        Keeping::Whole | Keeping::Switch => micro / 1_000_000,
        Keeping::Thousandths => micro / 1_000,
    }
}

/// What a setting takes of a value, if that is in its range.
fn taken(keeping: Keeping, v: Decimal, low: u32, high: u32) -> Result<u32, Code>
    ensures value { IfOk result (λ value. value ≡ shown keeping (kept keeping v)) }
    ensures low { OnOk result (low ≤ kept keeping v) }
    ensures high { OnOk result (kept keeping v ≤ high) }
    ensures code { IfErr result (λ code. code ≡ record { 0 = 3 }) }
    ensures refused { OnErr result ((nat_le low (kept keeping v) && nat_le (kept keeping v) high) ≡ false) }
{
    let value = kept(keeping, v);
    if value < u64::from(low) || u64::from(high) < value {
        return Err(Code::INVALID_STATEMENT);
    }
    match keeping {
        Keeping::Switch => Ok(u32::from(value != 0)),
        Keeping::Whole | Keeping::Thousandths => Ok(value as u32),
    }
}

/// What the setting with a number takes of a value, or the first refusal.
fn take(n: u16, v: Decimal) -> Result<u32, Code>
    ensures value { IfOk result (λ value. value ≡ value_set n v) }
    ensures can { IfOk result (λ value. IsTrue (can_have_at n value)) }
    ensures passed { OnOk result (set_refusal n v ≡ None) }
    ensures refused { IfErr result (λ code. set_refusal n v ≡ Some code) }
{
    if v.micro < 0 {
        return Err(Code::NEGATIVE_VALUE);
    }
    with_rows!(take_row(n, v))
}

/// The same number on each axis.
fn each_axis(n: u32) -> Per3
    ensures { result ≡ record { x = n; y = n; z = n } }
{
    Per3 { x: n, y: n, z: n }
}

impl Settings {
    /// The defaults of the generic machine.
    pub fn generic() -> Settings
        ensures values { values result ≡ defaults }
        ensures valid { IsSettings result }
    {
        Settings {
            report: 1,
            deviation: 10,
            soft: false,
            limits: Limits {
                per_mm: each_axis(250_000),
                rate: each_axis(500_000),
                accel: each_axis(10_000),
            },
            travel: each_axis(200_000),
        }
    }

    /// The number of each setting, in order, and its value.
    #[inline]
    fn rows(&self) -> [(u16, u32); 15]
        ensures { result ≡ values self.now }
    {
        with_rows!(list_rows(self))
    }

    /// The number of the setting at a place, from 0, in the order of the numbers, and its value.
    pub fn row(&self, place: usize) -> (u16, u32)
        requires { place < 15 }
        ensures { slice_get (values self.now) place ≡ Some result }
    {
        self.rows()[place]
    }

    /// The value of a setting: the whole number for 10 and 20, and thousandths for the others. None
    /// exactly if no setting has the number.
    pub fn get(&self, n: u16) -> Option<u64>
        ensures { result ≡ value_of n (values self.now) }
    {
        with_rows!(read_row(self, n))
    }

    /// Gives the setting with a number a value that it can have.
    fn put(&mut self, n: u16, value: u32)
        requires valid { IsSettings self.old }
        requires can { IsTrue (can_have_at n value) }
        ensures values { values self.new ≡ with_value n value self.old }
        ensures valid { IsSettings self.new }
    {
        with_rows!(write_row(self, n, value))
    }

    /// Sets a setting by its number. Of the value three decimals count, and at 10 and 20 its whole part;
    /// 20 is on if that isn't 0.
    ///
    /// # Errors
    ///
    /// 4 if the value is negative; else 3 if no setting has the number, or if what counts of
    /// the value is out of the setting's range. Then nothing changes.
    pub fn set(&mut self, n: u16, v: Decimal) -> Result<(), Code>
        requires { IsSettings self.old }
        ensures refused { IfErr result (λ code. set_refusal n v ≡ Some code) }
        ensures unchanged { OnErr result (self.new ≡ self.old) }
        ensures passed { OnOk result (set_refusal n v ≡ None) }
        ensures values { OnOk result (values self.new ≡ with_value n (value_set n v) self.old) }
        ensures valid { IsSettings self.new }
    {
        let value = take(n, v)?;
        self.put(n, value);
        Ok(())
    }
}
