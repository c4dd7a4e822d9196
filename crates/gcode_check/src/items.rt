//! What an accepted line gives to do.

ghost use Rattle.std.specs.Prelude.{◌≡◌, ◌+◌, ◌/◌, ◌≤◌, ◌<◌, ◌++◌, nat_abs, length, All, ◌==◌, true, IsTrue, if◌then◌else◌, not, [], ◌∷◌};
ghost use Rattle.units.specs.Lengths.{IsPlace, IsMove};
ghost use Rattle.units.specs.Limits.{IsRate};
ghost use Rattle.code_table.specs.Tables.{code};
ghost use Rattle.modal_state.specs.Modes.{IsParser};
ghost use Rattle.line_words.specs.Codes.{has_g};
ghost use Rattle.line_words.specs.LineModes.{motion_of, spindle_of, flood_of};
ghost use Rattle.gcode_check.specs.Items.{is_same_spindle, is_on, spindle_changes, speed_of, item_if, spindle_items, coolant_items, dwell_time, dwell_items, rate_of, moves_through, flow_items, items_of, IsMoveAt, IsItem};

use crate::conditions::is_g1;
use crate::effects::ends_program;
use crate::{Item, Items};
use line_words::commands::{G4, M0};
use line_words::{Line, feed_of, moves, rpm_of};
use modal_state::{Modal, MotionMode, Parser, SpindleMode};
use units::{Move, Rate, Steps3};

/// Whether two spindle modes are one.
fn is_same_spindle(a: SpindleMode, b: SpindleMode) -> bool
    ensures { result ≡ is_same_spindle a b }
{
    matches!(
        (a, b),
        (SpindleMode::Off, SpindleMode::Off)
            | (SpindleMode::Cw, SpindleMode::Cw)
            | (SpindleMode::Ccw, SpindleMode::Ccw)
    )
}

/// Whether the spindle turns.
fn is_on(mode: SpindleMode) -> bool
    ensures { result ≡ is_on mode }
{
    matches!(mode, SpindleMode::Cw | SpindleMode::Ccw)
}

/// Whether the spindle turns otherwise than before.
fn spindle_changes(p: &Parser, line: &Line<'_>, mode: SpindleMode) -> bool
    requires valid { IsParser p.now }
    requires mode { mode ≡ spindle_of p.now line.now }
    ensures { result ≡ spindle_changes p.now line.now }
{
    !is_same_spindle(mode, p.modal.spindle) || (is_on(mode) && rpm_of(p, line) != p.rpm)
}

/// The speed of the spindle after a line, 0 with M5.
fn speed_of(p: &Parser, line: &Line<'_>, mode: SpindleMode) -> u32
    requires valid { IsParser p.now }
    requires mode { mode ≡ spindle_of p.now line.now }
    ensures speed { result ≡ speed_of p.now line.now }
    ensures small { result < 1000000000 }
{
    if is_on(mode) { rpm_of(p, line) } else { 0 }
}

/// Whether the coolant flows otherwise than before.
fn coolant_changes(p: &Parser, flood: bool) -> bool
    ensures { result ≡ (if flood then not p.now.modal.flood else p.now.modal.flood) }
{
    if flood { !p.modal.flood } else { p.modal.flood }
}

/// How many milliseconds a line waits.
fn dwell_time(line: &Line<'_>) -> u64
    ensures { result ≡ dwell_time line.now }
{
    match line.given(b'P') {
        Some(time) => time.micro.unsigned_abs() / 1000,
        None => 0,
    }
}

/// How fast the moves of a line go.
fn rate_of(p: &Parser, line: &Line<'_>, motion: MotionMode) -> Rate
    requires valid { IsParser p.now }
    requires motion { motion ≡ motion_of p.now line.now }
    ensures rate { result ≡ rate_of p.now line.now }
    ensures sound { IsRate result }
{
    if moves(line) && is_g1(motion) {
        Rate::Feed(feed_of(p, line))
    } else {
        Rate::Rapid
    }
}

/// Appends an item where a condition holds.
#[tactic(auto, using(crate::proofs::Sound::pushed))]
fn push_if(items: &mut Items, holds: bool, item: Item)
    requires room { IsTrue holds → length items.old.items < 5 }
    requires item { IsItem item }
    requires sound { All IsItem items.old.items }
    ensures items { items.new.items ≡ items.old.items ++ item_if holds item }
    ensures count { length items.new.items ≡ length items.old.items + (if holds then 1 else 0) }
    ensures sound { All IsItem items.new.items }
{
    if holds {
        items.push(item);
    }
}

/// Appends a move.
#[tactic(auto, using(crate::proofs::Sound::pushed))]
fn push_move(items: &mut Items, way: Move, rate: Rate)
    requires room { length items.old.items < 5 }
    requires sound { All IsItem items.old.items }
    requires way { IsMoveAt way rate }
    ensures items { items.new.items ≡ items.old.items ++ (Item.Move way rate ∷ []) }
    ensures sound { All IsItem items.new.items }
{
    items.push(Item::Move(way, rate));
}

/// Appends moves from a place through others.
fn push_moves(items: &mut Items, at: &Steps3, stops: &[Steps3], rate: Rate)
    requires room { length items.old.items + length stops.now ≤ 5 }
    requires sound { All IsItem items.old.items }
    requires rate { IsRate rate }
    requires here { IsPlace at.now }
    requires near { All IsPlace stops.now }
    ensures items { items.new.items ≡ items.old.items ++ moves_through at.now stops.now rate }
    ensures count { length items.new.items ≡ length items.old.items + length stops.now }
    ensures sound { All IsItem items.new.items }
{
    let mut from = *at;
    for stop in stops {
        let to = *stop;
        push_move(items, Move { from, to }, rate);
        from = to;
    }
}

/// Appends the moves of a line, where it moves.
fn push_motion(items: &mut Items, p: &Parser, line: &Line<'_>, motion: MotionMode, stops: &[Steps3])
    requires valid { IsParser p.now }
    requires motion { motion ≡ motion_of p.now line.now }
    requires near { All IsPlace stops.now }
    requires room { length items.old.items + length stops.now ≤ 5 }
    requires sound { All IsItem items.old.items }
    ensures items { items.new.items ≡ items.old.items ++ moves_through p.now.pos_steps stops.now (rate_of p.now line.now) }
    ensures count { length items.new.items ≡ length items.old.items + length stops.now }
    ensures sound { All IsItem items.new.items }
{
    if stops.is_empty() {
        return;
    }
    push_moves(items, &p.pos_steps, stops, rate_of(p, line, motion));
}

/// Appends what a line does to spindle and coolant.
fn push_outputs(items: &mut Items, p: &Parser, line: &Line<'_>, mode: SpindleMode, flood: bool)
    requires valid { IsParser p.now }
    requires mode { mode ≡ spindle_of p.now line.now }
    requires flood { flood ≡ flood_of p.now line.now }
    requires room { length items.old.items ≡ 0 }
    requires sound { All IsItem items.old.items }
    ensures items { items.new.items ≡ items.old.items ++ spindle_items p.now line.now ++ coolant_items p.now line.now }
    ensures count { length items.new.items ≤ 2 }
    ensures sound { All IsItem items.new.items }
{
    let spindle = Item::Spindle(mode, speed_of(p, line, mode));
    push_if(items, spindle_changes(p, line, mode), spindle);
    push_if(items, coolant_changes(p, flood), Item::Coolant(flood));
}

/// Appends the dwell and the moves of a line.
fn push_ways(items: &mut Items, p: &Parser, line: &Line<'_>, motion: MotionMode, stops: &[Steps3])
    requires valid { IsParser p.now }
    requires motion { motion ≡ motion_of p.now line.now }
    requires near { All IsPlace stops.now }
    requires few { length stops.now ≤ 2 }
    requires one { has_g (code 4 0) line.now ≡ true → length stops.now ≤ 1 }
    requires room { length items.old.items ≤ 2 }
    requires sound { All IsItem items.old.items }
    ensures items { items.new.items ≡ items.old.items ++ dwell_items line.now ++ moves_through p.now.pos_steps stops.now (rate_of p.now line.now) }
    ensures count { length items.new.items ≤ 4 }
    ensures sound { All IsItem items.new.items }
{
    push_if(items, line.has(G4), Item::Dwell(dwell_time(line)));
    push_motion(items, p, line, motion, stops);
}

/// Appends a pause or the end of the program.
fn push_flow(items: &mut Items, line: &Line<'_>)
    requires room { length items.old.items ≤ 4 }
    requires sound { All IsItem items.old.items }
    ensures items { items.new.items ≡ items.old.items ++ flow_items line.now }
    ensures sound { All IsItem items.new.items }
{
    push_if(items, line.has(M0), Item::Pause);
    push_if(items, ends_program(line), Item::ProgramEnd);
}

/// Appends the items of a line that leaves these modes and moves through these places, in their order.
#[tactic(auto, unfolding(crate::specs::Items::items_of))]
pub fn push_items(items: &mut Items, p: &Parser, line: &Line<'_>, modal: &Modal, stops: &[Steps3])
    requires valid { IsParser p.now }
    requires motion { modal.now.motion ≡ motion_of p.now line.now }
    requires spindle { modal.now.spindle ≡ spindle_of p.now line.now }
    requires flood { modal.now.flood ≡ flood_of p.now line.now }
    requires near { All IsPlace stops.now }
    requires few { length stops.now ≤ 2 }
    requires one { has_g (code 4 0) line.now ≡ true → length stops.now ≤ 1 }
    requires none { items.old.items ≡ [] }
    ensures items { items.new.items ≡ items_of p.now line.now stops.now }
    ensures sound { All IsItem items.new.items }
{
    push_outputs(items, p, line, modal.spindle, modal.flood);
    push_ways(items, p, line, modal.motion, stops);
    push_flow(items, line);
}
