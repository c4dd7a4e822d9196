//! Status reports, and their text.

ghost use Rattle.std.specs.Prelude.{◌≡◌, ◌+◌, ◌*◌, ◌≤◌, ◌-ℤ◌, nat_abs, ◌∷◌, ◌++◌, length, decimal};
ghost use Rattle.units.specs.Lengths.{minus};
ghost use Rattle.arrayvec.specs.ArrayVec.{array_vec_len};
ghost use Rattle.modal_state.specs.Modes.{IsWithin};
ghost use Rattle.status_report.specs.Places.{place_text};
ghost use Rattle.status_report.specs.Reports.{state_name, position_name, position_shown, position_field, buffer_fields, speeds_field, offset_field, overrides_field, report_fields, barred, report_text, farthest_told, IsReport};

use crate::texts::{put_numbered, put_place};
use itoa::Buffer;
use overrides::Overrides;
use units::{Nm3, Text, append};

/// The state of the machine, as reports show it.
#[derive(Clone, Copy, Debug, PartialEq, Eq)]
pub enum State {
    Idle,
    Run,
    /// The motion is held.
    Hold0,
    /// The motion slows down to be held or stopped.
    Hold1,
    /// A jog, also while it is being cancelled.
    Jog,
    Alarm,
}

/// A status report.
#[derive(Clone, Copy, Debug, PartialEq, Eq)]
pub struct Report {
    pub state: State,
    /// Whether the position of the machine is shown, and not that of the work.
    pub machine: bool,
    /// The position of the machine, in thousandths of a mm.
    pub at: Nm3,
    /// The free blocks of the plan and the free bytes of the receive buffer, if they are shown.
    pub buffer: Option<(u8, u8)>,
    /// The feed, in mm per minute.
    pub f: u64,
    /// The spindle speed, in turns per minute.
    pub s: u64,
    /// The offset of the work's zero from the machine's, in thousandths of a mm.
    pub wco: Nm3,
    pub ov: Overrides,
}

fn state_name(state: State) -> &'static [u8]
    ensures text { result.now ≡ state_name state }
    ensures short { length result.now ≤ 6 }
{
    match state {
        State::Idle => b"Idle",
        State::Run => b"Run",
        State::Hold0 => b"Hold:0",
        State::Hold1 => b"Hold:1",
        State::Jog => b"Jog",
        State::Alarm => b"Alarm",
    }
}

/// A length on an axis, counted from another.
fn difference(at: i64, from: i64) -> i64
    requires at { nat_abs at ≤ farthest_told }
    requires from { nat_abs from ≤ farthest_told }
    ensures difference { result ≡ at -ℤ from }
    ensures near { nat_abs result ≤ 2 * farthest_told }
{
    at - from
}

/// A place, counted from another.
fn minus(at: Nm3, from: Nm3) -> Nm3
    requires at { IsWithin farthest_told at }
    requires from { IsWithin farthest_told from }
    ensures difference { result ≡ minus at from }
    ensures near { IsWithin (2 * farthest_told) result }
{
    Nm3 {
        x: difference(at.x, from.x),
        y: difference(at.y, from.y),
        z: difference(at.z, from.z),
    }
}

impl Report {
    /// The position that the report shows, in thousandths of a mm.
    fn position(&self) -> Nm3
        requires { IsReport self.now }
        ensures position { result ≡ position_shown self.now }
        ensures near { IsWithin (2 * farthest_told) result }
    {
        if self.machine {
            self.at
        } else {
            minus(self.at, self.wco)
        }
    }
}

fn position_name(machine: bool) -> &'static [u8]
    ensures text { result.now ≡ 124 ∷ position_name machine }
    ensures short { length result.now ≡ 6 }
{
    if machine { b"|MPos:" } else { b"|WPos:" }
}

/// Appends a short text and a number of at most three digits.
fn put_short(text: &[u8], number: u8, out: &mut Text)
    requires { array_vec_len out.old + length text.now + 3 ≤ 192 }
    ensures items { out.new.items ≡ out.old.items ++ (text.now ++ decimal number) }
    ensures len { array_vec_len out.new ≤ array_vec_len out.old + length text.now + 3 }
{
    let mut buffer = Buffer::new();
    append(text, out);
    append(buffer.format(number).as_bytes(), out);
}

/// Appends the field of the position. 74 bytes must be free.
fn put_position(report: &Report, out: &mut Text)
    requires report { IsReport report.now }
    requires room { array_vec_len out.old + 74 ≤ 192 }
    ensures text { out.new.items ≡ out.old.items ++ 124 ∷ position_field report.now }
    ensures len { array_vec_len out.new ≤ array_vec_len out.old + 53 }
{
    append(position_name(report.machine), out);
    put_place(&report.position(), out);
}

/// Appends the field of the free blocks and bytes, if they are shown. 11 bytes must be free.
fn put_buffer(buffer: Option<(u8, u8)>, out: &mut Text)
    requires { array_vec_len out.old + 11 ≤ 192 }
    ensures text { out.new.items ≡ out.old.items ++ barred (buffer_fields buffer) }
    ensures len { array_vec_len out.new ≤ array_vec_len out.old + 11 }
{
    if let Some((blocks, bytes)) = buffer {
        put_short(b"|Bf:", blocks, out);
        put_short(b",", bytes, out);
    }
}

/// Appends the field of the feed and of the spindle speed. 45 bytes must be free.
fn put_speeds(f: u64, s: u64, out: &mut Text)
    requires { array_vec_len out.old + 45 ≤ 192 }
    ensures text { out.new.items ≡ out.old.items ++ 124 ∷ speeds_field f s }
    ensures len { array_vec_len out.new ≤ array_vec_len out.old + 45 }
{
    put_numbered(b"|FS:", f, out);
    put_numbered(b",", s, out);
}

/// Appends the field of the offset of the work. 73 bytes must be free.
fn put_offset_of_work(wco: &Nm3, out: &mut Text)
    requires wco { IsWithin farthest_told wco.now }
    requires room { array_vec_len out.old + 73 ≤ 192 }
    ensures text { out.new.items ≡ out.old.items ++ 124 ∷ offset_field wco.now }
    ensures len { array_vec_len out.new ≤ array_vec_len out.old + 52 }
{
    append(b"|WCO:", out);
    put_place(wco, out);
}

/// Appends the field of the overrides. 15 bytes must be free.
fn put_overrides(ov: Overrides, out: &mut Text)
    requires { array_vec_len out.old + 15 ≤ 192 }
    ensures text { out.new.items ≡ out.old.items ++ 124 ∷ overrides_field ov }
    ensures len { array_vec_len out.new ≤ array_vec_len out.old + 15 }
{
    put_short(b"|Ov:", ov.feed, out);
    put_short(b",", ov.rapid, out);
    put_short(b",", ov.spindle, out);
}

/// Appends the fields of a report. 176 bytes must be free.
fn put_fields(report: &Report, out: &mut Text)
    requires report { IsReport report.now }
    requires room { array_vec_len out.old + 182 ≤ 192 }
    ensures text { out.new.items ≡ out.old.items ++ barred (report_fields report.now) }
    ensures len { array_vec_len out.new ≤ array_vec_len out.old + 176 }
{
    put_position(report, out);
    put_buffer(report.buffer, out);
    put_speeds(report.f, report.s, out);
    put_offset_of_work(&report.wco, out);
    put_overrides(report.ov, out);
}

/// Appends a report. 189 bytes must be free, of which it takes at most 184.
pub(crate) fn put_report(report: &Report, out: &mut Text)
    requires report { IsReport report.now }
    requires room { array_vec_len out.old + 189 ≤ 192 }
    ensures text { out.new.items ≡ out.old.items ++ report_text report.now }
    ensures len { array_vec_len out.new ≤ array_vec_len out.old + 184 }
{
    append(b"<", out);
    append(state_name(report.state), out);
    put_fields(report, out);
    append(b">", out);
}
