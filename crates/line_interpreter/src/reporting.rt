//! What a status report tells of a machine, and of the state that the lines left.

ghost use Rattle.std.specs.Prelude.{◌≡◌, ◌*◌, ◌/◌, ◌^◌, ◌<◌, nat_abs};
ghost use Rattle.modal_state.specs.Modes.{IsParser, IsWithin, farthest};
ghost use Rattle.run_rules.specs.Reports.{Shows, has_room, shows_room, steps_in_thousandths, turns_shown};
ghost use Rattle.run_rules.specs.States.{IsState};
ghost use Rattle.status_report.specs.Places.{in_thousandths};
ghost use Rattle.status_report.specs.Replies.{IsReply};
ghost use Rattle.status_report.specs.Reports.{HasWidths, farthest_told};
ghost use Rattle.status_report.specs.declared.Reply.{Reply as AnyReply};
ghost use Rattle.units.specs.Lengths.{IsPlace, IsScale};
ghost use Rattle.units.specs.Limits.{OnEachAxis};

use modal_state::SpindleMode;
use overrides::Overrides;
use run_rules::State;
use status_report::{Report, State as Shown};
use units::{Nm3, Per3, Steps3, nm_to_thousandths, to_thousandths};

/// What a report tells of a machine.
#[derive(Clone, Copy)]
pub struct Seen {
    pub state: Shown,
    /// Where it is, in steps.
    pub place: Steps3,
    /// The free blocks of the plan and the free bytes of the link, where they are told.
    pub buffer: Option<(u8, u8)>,
    /// The feed, in mm per minute.
    pub feed: u64,
    pub overrides: Overrides,
}

/// A place in steps, in thousandths of a mm.
fn steps_in_thousandths(place: Steps3, per_mm: &Per3) -> Nm3
    requires place { IsPlace place }
    requires scales { OnEachAxis IsScale per_mm.now }
    ensures at { result ≡ steps_in_thousandths place per_mm.now }
    ensures near { IsWithin farthest_told result }
{
    Nm3 {
        x: to_thousandths(place.x, per_mm.x),
        y: to_thousandths(place.y, per_mm.y),
        z: to_thousandths(place.z, per_mm.z),
    }
}

/// A place in nm, in thousandths of a mm.
fn in_thousandths(at: Nm3) -> Nm3
    requires near { IsWithin (2 * farthest) at }
    ensures at { result ≡ in_thousandths at }
    ensures near { IsWithin farthest_told result }
{
    Nm3 {
        x: nm_to_thousandths(at.x),
        y: nm_to_thousandths(at.y),
        z: nm_to_thousandths(at.z),
    }
}

/// The spindle speed by its override, in turns per minute, and 0 where the spindle is off.
fn turns_shown(mode: SpindleMode, rpm: u32, percent: u8) -> u64
    ensures { result ≡ turns_shown mode rpm percent }
{
    match mode {
        SpindleMode::Off => 0,
        SpindleMode::Cw | SpindleMode::Ccw => u64::from(rpm) * u64::from(percent) / 100,
    }
}

/// Whether reports tell the free room.
pub(crate) fn shows_room(state: &State) -> bool
    ensures { result ≡ shows_room state.now.settings.report }
{
    state.settings.report / 2 % 2 == 1
}

/// A report's numbers are as wide as their types.
fn known_widths(report: Report) -> Report
    ensures same { result ≡ report }
    ensures widths { HasWidths report }
{
    report
}

/// The report of a machine, where the lines left this state.
pub(crate) fn report(state: &State, seen: &Seen) -> Report
    requires valid { IsState state.now }
    requires place { IsPlace seen.now.place }
    requires room { has_room seen.now.buffer ≡ shows_room state.now.settings.report }
    ensures shows { Shows seen.now.place state.now result }
    ensures state { result.state ≡ seen.now.state }
    ensures buffer { result.buffer ≡ seen.now.buffer }
    ensures feed { result.f ≡ seen.now.feed }
    ensures overrides { result.ov ≡ seen.now.overrides }
    ensures valid { IsReply (AnyReply.Report result) }
    ensures wide { HasWidths result }
{
    known_widths(Report {
        state: seen.state,
        machine: state.settings.report % 2 == 1,
        at: steps_in_thousandths(seen.place, &state.settings.limits.per_mm),
        buffer: seen.buffer,
        f: seen.feed,
        s: turns_shown(
            state.parser.modal.spindle,
            state.parser.rpm,
            seen.overrides.spindle,
        ),
        wco: in_thousandths(state.parser.wco()),
        ov: seen.overrides,
    })
}
