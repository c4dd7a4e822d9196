//! The state that an accepted line leaves.

ghost use Rattle.std.specs.Prelude.{◌≡◌, ◌≤◌, length, map, All, IfSome};
ghost use Rattle.units.specs.Lengths.{IsPlace, IsScale};
ghost use Rattle.units.specs.Limits.{OnEachAxis};
ghost use Rattle.modal_state.specs.Modes.{IsParser, IsModal, IsOffsets, IsWithin, farthest};
ghost use Rattle.settings.specs.Numbers.{IsSettings};
ghost use Rattle.line_words.specs.Targets.{targets};
ghost use Rattle.travel_limits.specs.Reach.{IsNear, steps3};
ghost use Rattle.gcode_check.specs.NewOffsets.{new_offset};
ghost use Rattle.gcode_check.specs.Effects.{modal_after, with_offset, offsets_after, stops, last_of, ends_program, parser_moved, parser_after};

use crate::offsets::{new_g92, new_system_offset, set_system};
use arrayvec::ArrayVec;
use line_words::commands::{G10, G28_1, G30_1, G92, G92_1, M2, M30};
use line_words::{
    Line, ORIGIN, feed_of, flood_of, inch_of, motion_of, plane_of, relative_of, rpm_of, spindle_of,
    system_of, tool_of,
};
use modal_state::{Modal, Offsets, Parser};
use travel_limits::steps3;
use units::{Nm3, Per3, Steps3};

/// The modes after a line.
pub fn modal_after(p: &Parser, line: &Line<'_>) -> Modal
    requires { IsParser p.now }
    ensures modes { result ≡ modal_after p.now line.now }
    ensures valid { IsModal result }
{
    Modal {
        motion: motion_of(p, line),
        plane: plane_of(p, line),
        inch: inch_of(p, line),
        relative: relative_of(p, line),
        system: system_of(p, line),
        spindle: spindle_of(p, line),
        flood: flood_of(p, line),
    }
}

/// Changes the offset of a system.
fn set_offset(offsets: &mut Offsets, system: u32, at: Nm3)
    requires offsets { IsOffsets offsets.old }
    requires at { IsWithin farthest at }
    ensures offsets { offsets.new ≡ with_offset offsets.old system at }
    ensures valid { IsOffsets offsets.new }
{
    match system {
        1 => offsets.s1 = at,
        2 => offsets.s2 = at,
        3 => offsets.s3 = at,
        4 => offsets.s4 = at,
        5 => offsets.s5 = at,
        _ => offsets.s6 = at,
    }
}

/// Changes the offsets and stored points as a line does.
fn set_offsets(p: &mut Parser, line: &Line<'_>)
    requires valid { IsParser p.old }
    requires near { IfSome (new_offset p.old line.now) IsNear }
    ensures offsets { p.new ≡ record p.old { offsets = offsets_after p.old line.now } }
    ensures valid { IsParser p.new }
{
    if line.has(G10) {
        let at = new_system_offset(p, line);
        let system = set_system(p, line);
        set_offset(&mut p.offsets, system, at);
    } else if line.has(G92) {
        p.offsets.g92 = new_g92(p, line);
    } else if line.has(G92_1) {
        p.offsets.g92 = ORIGIN;
    } else if line.has(G28_1) {
        p.offsets.home28 = p.pos_nm;
    } else if line.has(G30_1) {
        p.offsets.home30 = p.pos_nm;
    }
}

/// The places in steps that a line moves to.
pub type Stops = ArrayVec<Steps3, 2>;

/// Points in steps.
pub fn stops(points: &[Nm3], per_mm: &Per3) -> Stops
    requires two { length points.now ≤ 2 }
    requires near { All (IsNear) points.now }
    requires scales { OnEachAxis IsScale per_mm.now }
    ensures stops { result.items ≡ map (steps3 per_mm.now) points.now }
    ensures near { All IsPlace result.items }
{
    let mut stops = ArrayVec::new();
    for point in points {
        stops.push(steps3(point, per_mm));
    }
    stops
}

/// Goes to the last of some points.
fn go_to_last(at: &mut Nm3, points: &[Nm3])
    requires here { IsWithin farthest at.old }
    requires near { All (IsNear) points.now }
    ensures last { at.new ≡ last_of at.old points.now }
    ensures near { IsWithin farthest at.new }
{
    if let [.., last] = points {
        *at = *last;
    }
}

/// Goes to the last of some places in steps.
fn step_to_last(at: &mut Steps3, stops: &[Steps3])
    requires here { IsPlace at.old }
    requires near { All IsPlace stops.now }
    ensures last { at.new ≡ last_of at.old stops.now }
    ensures near { IsPlace at.new }
{
    if let [.., last] = stops {
        *at = *last;
    }
}

/// Whether a line ends the program.
pub fn ends_program(line: &Line<'_>) -> bool
    ensures { result ≡ ends_program line.now }
{
    line.has(M2) || line.has(M30)
}

/// Takes the state behind the moves of a line that leaves these modes.
fn move_parser(p: &mut Parser, line: &Line<'_>, modal: &Modal, points: &[Nm3], stops: &[Steps3])
    requires valid { IsParser p.old }
    requires modes { modal.now ≡ modal_after p.old line.now }
    requires modal { IsModal modal.now }
    requires near { All IsNear points.now }
    requires near_steps { All IsPlace stops.now }
    requires offset { IfSome (new_offset p.old line.now) IsNear }
    ensures state { p.new ≡ parser_moved p.old line.now points.now stops.now }
    ensures valid { IsParser p.new }
{
    let feed = feed_of(p, line);
    set_offsets(p, line);
    p.modal = *modal;
    go_to_last(&mut p.pos_nm, points);
    step_to_last(&mut p.pos_steps, stops);
    p.feed = feed;
    p.rpm = rpm_of(p, line);
    p.tool = tool_of(p, line);
}

/// Takes the state after a line that leaves these modes and moves through these points.
#[tactic(auto, unfolding(crate::specs::Effects::parser_after))]
pub fn take_effects(
    p: &mut Parser,
    line: &Line<'_>,
    modal: &Modal,
    points: &[Nm3],
    stops: &[Steps3],
)
    requires valid { IsParser p.old }
    requires modes { modal.now ≡ modal_after p.old line.now }
    requires modal { IsModal modal.now }
    requires near { All IsNear points.now }
    requires near_steps { All IsPlace stops.now }
    requires offset { IfSome (new_offset p.old line.now) IsNear }
    ensures state { p.new ≡ parser_after p.old line.now points.now stops.now }
    ensures valid { IsParser p.new }
{
    move_parser(p, line, modal, points, stops);
    if ends_program(line) {
        p.end_program();
    }
}
