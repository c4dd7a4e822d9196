//! The modes of a line, by its words and the parser.

ghost use Rattle.std.specs.Prelude.{◌≡◌, ◌≤◌, ◌<◌, nat_eq, pos, ◌≤ℤ◌, true, false, IfSome, unwrap_or, option_map};
ghost use Rattle.std.specs.Map.{lookup};
ghost use Rattle.units.specs.Limits.{IsFeed};
ghost use Rattle.modal_state.specs.Modes.{IsParser};
ghost use Rattle.line_words.specs.Codes.{is_negative};
ghost use Rattle.line_words.specs.Given.{is_value_letter, given, whole_given, exceeds, line_number_out_of_range, names_axis, IsSoundValue};
ghost use Rattle.line_words.specs.LineModes.{motions, planes, inches, distances, coordinates, spindles, coolants, motion_of, plane_of, inch_of, relative_of, system_of, spindle_of, flood_of, length_in, feed_of, rpm_of, tool_of};
ghost use Rattle.line_words.specs.Targets.{IsLength};

use crate::line::Line;
use crate::words::whole_part;
use code_table::groups::{COOLANT, DISTANCE, MOTION, PLANE, SPINDLE, SYSTEM, UNITS};
use modal_state::{MotionMode, Parser, SpindleMode};
use units::{Decimal, inch_to_nm};

/// The motion mode that a code of its group asks for, or else the mode before.
fn motion_at(key: u64, before: MotionMode) -> MotionMode
    ensures { result ≡ unwrap_or (lookup (nat_eq key) motions) before }
{
    match key {
        0 => MotionMode::G0,
        10 => MotionMode::G1,
        800 => MotionMode::G80,
        _ => before,
    }
}

/// The motion mode of a line.
pub fn motion_of(p: &Parser, line: &Line<'_>) -> MotionMode
    ensures { result ≡ motion_of p.now line.now }
{
    match line.code_in(MOTION) {
        Some(key) => motion_at(key, p.modal.motion),
        None => p.modal.motion,
    }
}

/// The plane that a code of its group asks for, or else the one before.
fn plane_at(key: u64, before: u8) -> u8
    ensures { result ≡ unwrap_or (lookup (nat_eq key) planes) before }
{
    match key {
        170 => 17,
        180 => 18,
        190 => 19,
        _ => before,
    }
}

/// The plane of a line.
pub fn plane_of(p: &Parser, line: &Line<'_>) -> u8
    requires { IsParser p.now }
    ensures plane { result ≡ plane_of p.now line.now }
    ensures first { 17 ≤ result }
    ensures last { result ≤ 19 }
{
    match line.code_in(PLANE) {
        Some(key) => plane_at(key, p.modal.plane),
        None => p.modal.plane,
    }
}

/// Whether a code of its group asks for inches, or else whether lengths were in inches before.
fn inch_at(key: u64, before: bool) -> bool
    ensures { result ≡ unwrap_or (lookup (nat_eq key) inches) before }
{
    match key {
        200 => true,
        210 => false,
        _ => before,
    }
}

/// Whether the lengths of a line are in inches.
pub fn inch_of(p: &Parser, line: &Line<'_>) -> bool
    ensures { result ≡ inch_of p.now line.now }
{
    match line.code_in(UNITS) {
        Some(key) => inch_at(key, p.modal.inch),
        None => p.modal.inch,
    }
}

/// Whether a code of its group asks for lengths from the position, or else whether they counted so before.
fn relative_at(key: u64, before: bool) -> bool
    ensures { result ≡ unwrap_or (lookup (nat_eq key) distances) before }
{
    match key {
        900 => false,
        910 => true,
        _ => before,
    }
}

/// Whether the lengths of a line count from the position.
pub fn relative_of(p: &Parser, line: &Line<'_>) -> bool
    ensures { result ≡ relative_of p.now line.now }
{
    match line.code_in(DISTANCE) {
        Some(key) => relative_at(key, p.modal.relative),
        None => p.modal.relative,
    }
}

/// The system that a code of its group asks for, or else the one before.
fn system_at(key: u64, before: u8) -> u8
    ensures { result ≡ unwrap_or (lookup (nat_eq key) coordinates) before }
{
    match key {
        540 => 1,
        550 => 2,
        560 => 3,
        570 => 4,
        580 => 5,
        590 => 6,
        _ => before,
    }
}

/// The coordinate system of a line, from 1 to 6.
pub fn system_of(p: &Parser, line: &Line<'_>) -> u8
    requires { IsParser p.now }
    ensures system { result ≡ system_of p.now line.now }
    ensures first { 1 ≤ result }
    ensures last { result ≤ 6 }
{
    match line.code_in(SYSTEM) {
        Some(key) => system_at(key, p.modal.system),
        None => p.modal.system,
    }
}

/// How a code of its group has the spindle turn, or else how it turned before.
fn spindle_at(key: u64, before: SpindleMode) -> SpindleMode
    ensures { result ≡ unwrap_or (lookup (nat_eq key) spindles) before }
{
    match key {
        30 => SpindleMode::Cw,
        40 => SpindleMode::Ccw,
        50 => SpindleMode::Off,
        _ => before,
    }
}

/// How the spindle turns after a line.
pub fn spindle_of(p: &Parser, line: &Line<'_>) -> SpindleMode
    ensures { result ≡ spindle_of p.now line.now }
{
    match line.code_in(SPINDLE) {
        Some(key) => spindle_at(key, p.modal.spindle),
        None => p.modal.spindle,
    }
}

/// Whether a code of its group has the coolant flow, or else whether it flowed before.
fn flood_at(key: u64, before: bool) -> bool
    ensures { result ≡ unwrap_or (lookup (nat_eq key) coolants) before }
{
    match key {
        80 => true,
        90 => false,
        _ => before,
    }
}

/// Whether the coolant flows after a line.
pub fn flood_of(p: &Parser, line: &Line<'_>) -> bool
    ensures { result ≡ flood_of p.now line.now }
{
    match line.code_in(COOLANT) {
        Some(key) => flood_at(key, p.modal.flood),
        None => p.modal.flood,
    }
}

/// A length in nm.
fn length_in(inch: bool, v: &Decimal, letter: u8) -> i64
    requires { IsSoundValue letter v.now }
    ensures length { result ≡ length_in inch v.now }
    ensures small { IsLength result }
    ensures sign { is_negative v.now ≡ false → pos 0 ≤ℤ result }
{
    if inch { inch_to_nm(v.micro) } else { v.micro }
}

/// The length behind a letter, in nm.
pub fn length_given(letter: u8, inch: bool, line: &Line<'_>) -> Option<i64>
    requires { is_value_letter letter ≡ true }
    ensures length { result ≡ option_map (length_in inch) (given letter line.now) }
    ensures small { IfSome result IsLength }
{
    match line.given(letter) {
        Some(value) => Some(length_in(inch, &value, letter)),
        None => None,
    }
}

/// The feed of a line, in nm per minute.
pub fn feed_of(p: &Parser, line: &Line<'_>) -> i64
    requires { IsParser p.now }
    ensures feed { result ≡ feed_of p.now line.now }
    ensures range { IsFeed result }
{
    match line.given(b'F') {
        Some(feed) => length_in(inch_of(p, line), &feed, b'F'),
        None => p.feed,
    }
}

/// The whole part of the value behind a letter.
pub fn whole_given(letter: u8, line: &Line<'_>) -> Option<u32>
    requires { is_value_letter letter ≡ true }
    ensures value { result ≡ whole_given letter line.now }
    ensures small { IfSome result (λ n. n < 1000000000) }
{
    match line.given(letter) {
        Some(value) => Some(whole_part(&value) as u32),
        None => None,
    }
}

/// Whether a number stands that is over a bound.
pub fn exceeds(bound: u32, number: Option<u32>) -> bool
    ensures { result ≡ exceeds bound number }
{
    match number {
        Some(number) => number > bound,
        None => false,
    }
}

/// Whether the line number, the whole part of N, is over 10,000,000, which is error 27.
pub fn line_number_out_of_range(line: &Line<'_>) -> bool
    ensures { result ≡ line_number_out_of_range line.now }
{
    exceeds(10_000_000, whole_given(b'N', line))
}

/// The spindle speed after a line.
pub fn rpm_of(p: &Parser, line: &Line<'_>) -> u32
    requires { IsParser p.now }
    ensures rpm { result ≡ rpm_of p.now line.now }
    ensures small { result < 1000000000 }
{
    match whole_given(b'S', line) {
        Some(rpm) => rpm,
        None => p.rpm,
    }
}

/// The tool after a line.
pub fn tool_of(p: &Parser, line: &Line<'_>) -> u8
    ensures { result ≡ tool_of p.now line.now }
{
    match line.given(b'T') {
        Some(tool) => whole_part(&tool) as u8,
        None => p.tool,
    }
}

/// Whether an axis is named.
pub fn names_axis(line: &Line<'_>) -> bool
    ensures { result ≡ names_axis line.now }
{
    line.stands(b'X') || line.stands(b'Y') || line.stands(b'Z')
}
