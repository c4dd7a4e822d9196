//! The texts of replies, part by part.

ghost use Rattle.std.specs.Prelude.{◌≡◌, ◌+◌, ◌*◌, ◌≤◌, ◌<◌, ◌^◌, ◌∷◌, ◌++◌, if◌then◌else◌, length, decimal};
ghost use Rattle.std.specs.List.{join_with_byte};
ghost use Rattle.arrayvec.specs.ArrayVec.{array_vec_len};
ghost use Rattle.modal_state.specs.Modes.{IsModal, IsWithin};
ghost use Rattle.status_report.specs.Places.{place_text, in_thousandths};
ghost use Rattle.status_report.specs.Reports.{farthest_told};
ghost use Rattle.status_report.specs.Replies.{message_text, setting_text, motion_word, spindle_word, feed_in_mm, modal_words, mode_words, modes_text, row_name, offset_text, said_by, end_of, IsModes, IsReply};

use crate::reports::put_report;
use crate::{Message, Modes, Reply};
use itoa::Buffer;
use modal_state::{Modal, MotionMode, SpindleMode};
use settings::is_whole;
use units::{Nm3, Text, append, nm_to_thousandths, put_fixed3};

/// Appends a blank and a word for which there is room.
fn put_word(word: &[u8], out: &mut Text)
    requires { array_vec_len out.old + length word.now < 192 }
    ensures items { out.new.items ≡ out.old.items ++ 32 ∷ word.now }
    ensures len { array_vec_len out.new ≡ array_vec_len out.old + length word.now + 1 }
{
    out.push(b' ');
    append(word, out);
}

/// Appends a short text and a number. Room for the text and 20 bytes must be free.
pub(crate) fn put_numbered(text: &[u8], number: u64, out: &mut Text)
    requires { array_vec_len out.old + length text.now + 20 ≤ 192 }
    ensures items { out.new.items ≡ out.old.items ++ (text.now ++ decimal number) }
    ensures len { array_vec_len out.new ≤ array_vec_len out.old + length text.now + 20 }
{
    let mut buffer = Buffer::new();
    append(text, out);
    append(buffer.format(number).as_bytes(), out);
}

fn message_text(message: Message) -> &'static [u8]
    ensures text { result.now ≡ message_text message }
    ensures short { length result.now ≤ 25 }
{
    match message {
        Message::Unlocked => b"[MSG:Caution: Unlocked]",
        Message::ProgramEnd => b"[MSG:Pgm End]",
        Message::ResetToContinue => b"[MSG:Reset to continue]",
        Message::Locked => b"[MSG:'$H'|'$X' to unlock]",
    }
}

/// Appends a setting. 64 bytes must be free.
fn put_setting(n: u16, value: u64, out: &mut Text)
    requires value { value < 2 ^ 63 }
    requires room { array_vec_len out.old + 64 ≤ 192 }
    ensures text { out.new.items ≡ out.old.items ++ setting_text n value }
    ensures len { array_vec_len out.new ≤ array_vec_len out.old + 64 }
{
    put_numbered(b"$", u64::from(n), out);
    if is_whole(n) {
        put_numbered(b"=", value, out);
        return;
    }
    append(b"=", out);
    put_fixed3(value as i64, out);
}

fn motion_word(motion: MotionMode) -> &'static [u8]
    ensures text { result.now ≡ motion_word motion }
    ensures short { length result.now ≤ 3 }
{
    match motion {
        MotionMode::G0 => b"G0",
        MotionMode::G1 => b"G1",
        MotionMode::G80 => b"G80",
    }
}

fn spindle_word(spindle: SpindleMode) -> &'static [u8]
    ensures text { result.now ≡ spindle_word spindle }
    ensures short { length result.now ≤ 2 }
{
    match spindle {
        SpindleMode::Off => b"M5",
        SpindleMode::Cw => b"M3",
        SpindleMode::Ccw => b"M4",
    }
}

/// The first of two words, or else the second.
fn either(first: bool, word: &'static [u8], other: &'static [u8]) -> &'static [u8]
    ensures { result.now ≡ (if first then word.now else other.now) }
{
    if first { word } else { other }
}

/// Appends the words of the modes. 80 bytes must be free.
fn put_modal(modal: &Modal, out: &mut Text)
    requires modal { IsModal modal.now }
    requires room { array_vec_len out.old + 80 ≤ 192 }
    ensures text { out.new.items ≡ out.old.items ++ join_with_byte 32 (modal_words modal.now) }
    ensures len { array_vec_len out.new ≤ array_vec_len out.old + 80 }
{
    append(motion_word(modal.motion), out);
    put_numbered(b" G", u64::from(53 + modal.system), out);
    put_numbered(b" G", u64::from(modal.plane), out);
    put_word(either(modal.inch, b"G20", b"G21"), out);
    put_word(either(modal.relative, b"G91", b"G90"), out);
    put_word(b"G94", out);
    put_word(spindle_word(modal.spindle), out);
    put_word(either(modal.flood, b"M8", b"M9"), out);
}

/// A feed in nm per minute, in mm per minute to the nearest whole number, a half upward.
fn feed_in_mm(feed: i64) -> u64
    ensures { result ≡ feed_in_mm feed }
{
    (feed.unsigned_abs() + 500_000) / 1_000_000
}

/// Appends the words of the modes, and those of tool, feed and speed. 150 bytes must be free.
fn put_mode_words(modes: &Modes, out: &mut Text)
    requires modes { IsModes modes.now }
    requires room { array_vec_len out.old + 150 ≤ 192 }
    ensures text { out.new.items ≡ out.old.items ++ join_with_byte 32 (mode_words modes.now) }
    ensures len { array_vec_len out.new ≤ array_vec_len out.old + 150 }
{
    put_modal(&modes.modal, out);
    put_numbered(b" T", u64::from(modes.tool), out);
    put_numbered(b" F", feed_in_mm(modes.feed), out);
    put_numbered(b" S", u64::from(modes.rpm), out);
}

/// Appends the modes. 160 bytes must be free.
fn put_modes(modes: &Modes, out: &mut Text)
    requires modes { IsModes modes.now }
    requires room { array_vec_len out.old + 160 ≤ 192 }
    ensures text { out.new.items ≡ out.old.items ++ modes_text modes.now }
    ensures len { array_vec_len out.new ≤ array_vec_len out.old + 160 }
{
    append(b"[GC:", out);
    put_mode_words(modes, out);
    append(b"]", out);
}

/// Appends a place in mm, given in thousandths. 68 bytes must be free.
pub(crate) fn put_place(at: &Nm3, out: &mut Text)
    requires { array_vec_len out.old + 68 ≤ 192 }
    ensures text { out.new.items ≡ out.old.items ++ place_text at.now }
    ensures len { array_vec_len out.new ≤ array_vec_len out.old + 65 }
    ensures short { IsWithin (2 * farthest_told) at.now → array_vec_len out.new ≤ array_vec_len out.old + 47 }
{
    put_fixed3(at.x, out);
    append(b",", out);
    put_fixed3(at.y, out);
    append(b",", out);
    put_fixed3(at.z, out);
}

/// A place in nm, to the nearest thousandths of a mm.
fn in_thousandths(at: &Nm3) -> Nm3
    ensures { result ≡ in_thousandths at.now }
{
    Nm3 {
        x: nm_to_thousandths(at.x),
        y: nm_to_thousandths(at.y),
        z: nm_to_thousandths(at.z),
    }
}

/// The name of a row of offsets that has a place.
fn row_name(row: u8) -> &'static [u8]
    requires { row < 9 }
    ensures name { result.now ≡ row_name row }
    ensures short { length result.now ≤ 3 }
{
    match row {
        0 => b"G54",
        1 => b"G55",
        2 => b"G56",
        3 => b"G57",
        4 => b"G58",
        5 => b"G59",
        6 => b"G28",
        7 => b"G30",
        _ => b"G92",
    }
}

/// Appends a row of offsets that has a place. 80 bytes must be free.
fn put_named_place(row: u8, at: &Nm3, out: &mut Text)
    requires row { row < 9 }
    requires room { array_vec_len out.old + 80 ≤ 192 }
    ensures text { out.new.items ≡ out.old.items ++ offset_text row at.now }
    ensures len { array_vec_len out.new ≤ array_vec_len out.old + 80 }
{
    append(b"[", out);
    append(row_name(row), out);
    append(b":", out);
    put_place(&in_thousandths(at), out);
    append(b"]", out);
}

/// Appends a row of offsets. 80 bytes must be free.
fn put_offset(row: u8, at: &Nm3, out: &mut Text)
    requires row { row ≤ 10 }
    requires room { array_vec_len out.old + 80 ≤ 192 }
    ensures text { out.new.items ≡ out.old.items ++ offset_text row at.now }
    ensures len { array_vec_len out.new ≤ array_vec_len out.old + 80 }
{
    match row {
        9 => append(b"[TLO:0.000]", out),
        10 => append(b"[PRB:0.000,0.000,0.000:0]", out),
        _ => put_named_place(row, at, out),
    }
}

/// Appends what a reply says. 189 bytes must be free, of which it takes at most 184.
pub(crate) fn put_words(r: &Reply, out: &mut Text)
    requires reply { IsReply r.now }
    requires room { array_vec_len out.old + 189 ≤ 192 }
    ensures text { out.new.items ≡ out.old.items ++ said_by r.now }
    ensures len { array_vec_len out.new ≤ array_vec_len out.old + 184 }
{
    match r {
        Reply::Banner => append(b"\r\nGrbl 1.1h ['$' for help]", out),
        Reply::Ok => append(b"ok", out),
        Reply::Error(n) => put_numbered(b"error:", u64::from(*n), out),
        Reply::Alarm(n) => put_numbered(b"ALARM:", u64::from(*n), out),
        Reply::Message(message) => append(message_text(*message), out),
        Reply::Report(report) => put_report(report, out),
        Reply::Setting { n, value } => put_setting(*n, *value, out),
        Reply::Modes(modes) => put_modes(modes, out),
        Reply::Offset { row, at } => put_offset(*row, at, out),
        Reply::Bye => {}
    }
}

/// What ends the text of a reply.
pub(crate) fn line_end(r: &Reply) -> &'static [u8]
    ensures text { result.now ≡ end_of r.now }
    ensures short { length result.now ≤ 2 }
{
    match r {
        Reply::Bye => b"",
        _ => b"\r\n",
    }
}
