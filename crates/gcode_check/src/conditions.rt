//! What refuses a line whose words pass.

ghost use Rattle.std.specs.Prelude.{◌≡◌, ℕ, ◌+◌, ◌*◌, ◌/◌, ◌≤◌, ◌<◌, ◌^◌, nat_abs, ◌||◌, ◌&&◌, length, All, IfNone, IfSome, false};
ghost use Rattle.std.specs.List.{list_any};
ghost use Rattle.code_table.specs.Refusals.{first_refusal};
ghost use Rattle.modal_state.specs.Modes.{IsParser};
ghost use Rattle.line_words.specs.LineModes.{motion_of};
ghost use Rattle.line_words.specs.Targets.{targets};
ghost use Rattle.travel_limits.specs.Reach.{IsNear, is_far};
ghost use Rattle.gcode_check.specs.NewOffsets.{new_offset};
ghost use Rattle.gcode_check.specs.Conditions.{is_g80, is_g1, dwell_without_time, system_offset_without_axis, system_offset_without_system, system_out_of_range, system_offset_unsupported, shift_without_axis, machine_coordinates_without_motion, axis_words_without_motion, motion_without_feed, unused_words, sets_far, target_out_of_range, command_rows, value_rows, line_refusal};

use crate::offsets::{has_l, new_offset};
use code_table::Code;
use line_words::commands::{G4, G10, G53, G92};
use line_words::{
    Line, exceeds, feed_of, line_number_out_of_range, motion_of, moves, names_axis, whole_given,
};
use modal_state::{MotionMode, Parser};
use travel_limits::is_far;
use units::Nm3;

/// Whether a mode is G80.
fn is_g80(motion: MotionMode) -> bool
    ensures { result ≡ is_g80 motion }
{
    matches!(motion, MotionMode::G80)
}

/// Whether a mode is G1.
pub fn is_g1(motion: MotionMode) -> bool
    ensures { result ≡ is_g1 motion }
{
    matches!(motion, MotionMode::G1)
}

fn dwell_without_time(line: &Line<'_>) -> bool
    ensures { result ≡ dwell_without_time line.now }
{
    line.has(G4) && !line.stands(b'P')
}

fn system_offset_without_axis(line: &Line<'_>) -> bool
    ensures { result ≡ system_offset_without_axis line.now }
{
    line.has(G10) && !names_axis(line)
}

fn system_offset_without_system(line: &Line<'_>) -> bool
    ensures { result ≡ system_offset_without_system line.now }
{
    line.has(G10) && !line.stands(b'P') && !line.stands(b'L')
}

fn system_out_of_range(line: &Line<'_>) -> bool
    ensures { result ≡ system_out_of_range line.now }
{
    line.has(G10) && exceeds(6, whole_given(b'P', line))
}

fn system_offset_unsupported(line: &Line<'_>) -> bool
    ensures { result ≡ system_offset_unsupported line.now }
{
    line.has(G10) && !has_l(20, line) && (!has_l(2, line) || line.stands(b'R'))
}

fn shift_without_axis(line: &Line<'_>) -> bool
    ensures { result ≡ shift_without_axis line.now }
{
    line.has(G92) && !names_axis(line)
}

fn machine_coordinates_without_motion(p: &Parser, line: &Line<'_>) -> bool
    ensures { result ≡ machine_coordinates_without_motion p.now line.now }
{
    line.has(G53) && is_g80(motion_of(p, line))
}

fn axis_words_without_motion(p: &Parser, line: &Line<'_>, motion: MotionMode) -> bool
    requires { motion ≡ motion_of p.now line.now }
    ensures { result ≡ axis_words_without_motion p.now line.now }
{
    is_g80(motion) && names_axis(line)
}

fn motion_without_feed(p: &Parser, line: &Line<'_>, motion: MotionMode) -> bool
    requires valid { IsParser p.now }
    requires motion { motion ≡ motion_of p.now line.now }
    ensures { result ≡ motion_without_feed p.now line.now }
{
    moves(line) && is_g1(motion) && feed_of(p, line).unsigned_abs() == 0
}

fn unused_words(line: &Line<'_>) -> bool
    ensures { result ≡ unused_words line.now }
{
    let unused_p = line.stands(b'P') && !(line.has(G4) || line.has(G10));
    let unused_l = line.stands(b'L') && !line.has(G10);
    unused_p
        || unused_l
        || line.stands(b'I')
        || line.stands(b'J')
        || line.stands(b'K')
        || line.stands(b'R')
}

fn any_far(points: &[Nm3]) -> bool
    ensures { result ≡ list_any is_far points.now }
{
    points.iter().any(|point| is_far(point))
}

fn sets_far(offset: Option<Nm3>) -> bool
    ensures { result ≡ sets_far offset }
{
    match offset {
        Some(offset) => is_far(&offset),
        None => false,
    }
}

fn target_out_of_range(p: &Parser, line: &Line<'_>, points: &[Nm3]) -> bool
    requires valid { IsParser p.now }
    requires points { points.now ≡ targets p.now line.now }
    ensures { result ≡ target_out_of_range p.now line.now }
{
    any_far(points) || sets_far(new_offset(p, line))
}

/// The first of the errors of G4, G10, G92 and G53. A line has them only where a command of no modal group stands.
fn command_error(p: &Parser, line: &Line<'_>) -> Option<Code>
    ensures { result ≡ first_refusal (command_rows p.now line.now) }
{
    if !line.has_group_of(G4) {
        return None;
    }
    if dwell_without_time(line) {
        return Some(Code::VALUE_WORD_MISSING);
    }
    if system_offset_without_axis(line) {
        return Some(Code::NO_AXIS_WORDS);
    }
    if system_offset_without_system(line) {
        return Some(Code::VALUE_WORD_MISSING);
    }
    if system_out_of_range(line) {
        return Some(Code::UNSUPPORTED_SYSTEM);
    }
    if system_offset_unsupported(line) {
        return Some(Code::UNSUPPORTED_COMMAND);
    }
    if shift_without_axis(line) {
        return Some(Code::NO_AXIS_WORDS);
    }
    if machine_coordinates_without_motion(p, line) {
        return Some(Code::MACHINE_COORDINATES_WITHOUT_MOTION);
    }
    None
}

/// The first of the errors of the axis words and of the other values.
fn value_error(p: &Parser, line: &Line<'_>, motion: MotionMode, points: &[Nm3]) -> Option<Code>
    requires valid { IsParser p.now }
    requires motion { motion ≡ motion_of p.now line.now }
    requires points { points.now ≡ targets p.now line.now }
    ensures { result ≡ first_refusal (value_rows p.now line.now) }
{
    if axis_words_without_motion(p, line, motion) {
        return Some(Code::AXIS_WORDS_WITHOUT_MOTION);
    }
    if motion_without_feed(p, line, motion) {
        return Some(Code::UNDEFINED_FEED);
    }
    if unused_words(line) {
        return Some(Code::UNUSED_WORDS);
    }
    if target_out_of_range(p, line, points) {
        return Some(Code::TARGET_OUT_OF_RANGE);
    }
    None
}

/// The first of the errors of a line.
fn first_error(p: &Parser, line: &Line<'_>, motion: MotionMode, points: &[Nm3]) -> Option<Code>
    requires valid { IsParser p.now }
    requires motion { motion ≡ motion_of p.now line.now }
    requires points { points.now ≡ targets p.now line.now }
    ensures { result ≡ line_refusal p.now line.now }
{
    if line_number_out_of_range(line) {
        return Some(Code::INVALID_LINE_NUMBER);
    }
    match command_error(p, line) {
        Some(code) => Some(code),
        None => value_error(p, line, motion, points),
    }
}

/// What refuses a line whose words pass, in its motion mode. What nothing refuses stays near.
pub fn line_refusal(p: &Parser, line: &Line<'_>, motion: MotionMode, points: &[Nm3]) -> Option<Code>
    requires valid { IsParser p.now }
    requires motion { motion ≡ motion_of p.now line.now }
    requires points { points.now ≡ targets p.now line.now }
    ensures refusal { result ≡ line_refusal p.now line.now }
    ensures near { IfNone result (All (IsNear) (targets p.now line.now)) }
    ensures offset { IfNone result (IfSome (new_offset p.now line.now) (IsNear)) }
{
    first_error(p, line, motion, points)
}
