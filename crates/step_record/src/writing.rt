//! Records, written as lines.

ghost use Rattle.std.specs.Prelude.{◌≡◌, ℕ, ◌+◌, ◌≤◌, [], ◌∷◌, ◌++◌, length, drop, decimal};
ghost use Rattle.arrayvec.specs.ArrayVec.{array_vec_len};
ghost use Rattle.step_line.specs.Records.{IsHead, IsMark, IsRecord};
ghost use Rattle.step_record.specs.Texts.{axis_text, event_text, head_text, mark_text, record_text};
ghost use Rattle.step_record.specs.Forms.{run_text};

use arrayvec::ArrayVec;
use itoa::{Buffer, write_digits};
use step_line::{Bits, Head, Mark, Record, SpindleCode};
use units::{Text, append};

/// The most bytes that the line of a record has.
pub const LONGEST_LINE: usize = 66;

/// The most bytes that the line of an event has.
pub const LONGEST_EVENT: usize = 7;

/// Appends a number, and the byte that ends it.
fn push_number<const N: usize>(n: u64, end: u8, out: &mut ArrayVec<u8, N>)
    requires { array_vec_len out.old + length (decimal n) + 1 ≤ N }
    ensures text { out.new.items ≡ out.old.items ++ (decimal n ++ end ∷ []) }
    ensures room { array_vec_len out.new ≡ array_vec_len out.old + length (decimal n) + 1 }
{
    let mut buffer = Buffer::new();
    append(buffer.format(n).as_bytes(), out);
    out.push(end);
}

/// Appends the letter and the sign of an axis that steps.
#[inline]
fn push_axis<const N: usize>(letter: u8, step: i8, out: &mut ArrayVec<u8, N>)
    requires { array_vec_len out.old + 2 ≤ N }
    ensures text { out.new.items ≡ out.old.items ++ axis_text letter step }
    ensures room { array_vec_len out.new ≤ array_vec_len out.old + 2 }
{
    if step == 0 {
        return;
    }
    out.push(letter);
    out.push(if step < 0 { b'-' } else { b'+' });
}

/// Appends the line of an event, axis by axis.
fn push_axes<const N: usize>(bits: &Bits, out: &mut ArrayVec<u8, N>)
    requires { array_vec_len out.old + LONGEST_EVENT ≤ N }
    ensures text { out.new.items ≡ out.old.items ++ event_text bits.now }
    ensures room { array_vec_len out.new ≤ array_vec_len out.old + LONGEST_EVENT }
{
    push_axis(b'X', bits.x, out);
    push_axis(b'Y', bits.y, out);
    push_axis(b'Z', bits.z, out);
    out.push(b'\n');
}

/// Appends the line of an event: for each axis that steps, in the order X, Y, Z, its letter and `+` or `-`.
/// `LONGEST_EVENT` bytes must be free. Most events step X or Y alone, or both: their lines are constant texts.
#[inline]
#[tactic(auto, unfolding(crate::specs::Texts::event_text))]
pub fn push_event<const N: usize>(bits: &Bits, out: &mut ArrayVec<u8, N>)
    requires { array_vec_len out.old + LONGEST_EVENT ≤ N }
    ensures text { out.new.items ≡ out.old.items ++ event_text bits.now }
    ensures room { array_vec_len out.new ≤ array_vec_len out.old + LONGEST_EVENT }
{
    match (bits.x, bits.y, bits.z) {
        (1, 0, 0) => append(b"X+\n", out),
        (-1, 0, 0) => append(b"X-\n", out),
        (0, 1, 0) => append(b"Y+\n", out),
        (0, -1, 0) => append(b"Y-\n", out),
        (1, 1, 0) => append(b"X+Y+\n", out),
        (1, -1, 0) => append(b"X+Y-\n", out),
        (-1, 1, 0) => append(b"X-Y+\n", out),
        (-1, -1, 0) => append(b"X-Y-\n", out),
        _ => push_axes(bits, out),
    }
}

/// Writes a number and the byte that ends it in front of a place. Where they begin is answered.
#[inline]
fn write_number(n: u64, ending: u8, line: &mut [u8], end: usize) -> usize
    requires { (length (decimal n) + 1 ≤ end) × (end ≤ length line.old) }
    ensures text { drop result line.new ≡ decimal n ++ ending ∷ drop end line.old }
    ensures begins { result + length (decimal n) + 1 ≡ end }
    ensures room { length line.new ≡ length line.old }
{
    line[end - 1] = ending;
    write_digits(n, line, end - 1)
}

/// Writes the line of a segment's head at the end of a row of bytes, its last number first. Where it begins is answered.
#[inline]
fn write_head(head: &Head, line: &mut [u8; LONGEST_LINE]) -> usize
    requires { IsHead head.now }
    ensures text { drop result line.new ≡ head_text head.now }
    ensures within { result ≤ LONGEST_LINE }
{
    let cycles = write_number(head.cycles, b'\n', line, LONGEST_LINE);
    let w = write_number(head.w, b' ', line, cycles);
    let n = write_number(head.n as u64, b' ', line, w);
    let number = write_number(head.line as u64, b' ', line, n);
    line[number - 1] = b' ';
    line[number - 2] = b's';
    number - 2
}

/// Appends the line of a segment's head.
fn push_head<const N: usize>(head: &Head, out: &mut ArrayVec<u8, N>)
    requires head { IsHead head.now }
    requires room { array_vec_len out.old + LONGEST_LINE ≤ N }
    ensures text { out.new.items ≡ out.old.items ++ head_text head.now }
    ensures room { array_vec_len out.new ≤ array_vec_len out.old + LONGEST_LINE }
{
    let mut line = [0; LONGEST_LINE];
    let start = write_head(head, &mut line);
    append(&line[start..], out);
}

/// Appends a number behind what says what it is.
fn push_named<const N: usize>(name: &[u8], n: u64, out: &mut ArrayVec<u8, N>)
    requires name { length name.now ≤ 3 }
    requires room { array_vec_len out.old + 24 ≤ N }
    ensures text { out.new.items ≡ out.old.items ++ (name.now ++ decimal n ++ 10 ∷ []) }
    ensures room { array_vec_len out.new ≤ array_vec_len out.old + 24 }
{
    append(name, out);
    push_number(n, b'\n', out);
}

/// Appends the line of a mark.
#[tactic(auto, unfolding(crate::specs::Texts::mark_text))]
fn push_mark<const N: usize>(mark: &Mark, out: &mut ArrayVec<u8, N>)
    requires { array_vec_len out.old + 24 ≤ N }
    ensures text { out.new.items ≡ out.old.items ++ mark_text mark.now }
    ensures room { array_vec_len out.new ≤ array_vec_len out.old + 24 }
{
    match mark {
        Mark::Dwell(ms) => push_named(b"D ", *ms, out),
        Mark::Spindle(SpindleCode::M3, speed) => push_named(b"M3 ", *speed as u64, out),
        Mark::Spindle(SpindleCode::M4, speed) => push_named(b"M4 ", *speed as u64, out),
        Mark::Spindle(SpindleCode::M5, _) => append(b"M5 0\n", out),
        Mark::Coolant(true) => append(b"M8 0\n", out),
        Mark::Coolant(false) => append(b"M9 0\n", out),
        Mark::Cut(line) => push_named(b"X ", *line as u64, out),
        Mark::Reset(line) => push_named(b"Z ", *line as u64, out),
    }
}

/// Appends how many events a run has, and a blank. Most runs are short.
#[inline]
fn push_count<const N: usize>(n: u32, out: &mut ArrayVec<u8, N>)
    requires { array_vec_len out.old + length (decimal n) + 1 ≤ N }
    ensures text { out.new.items ≡ out.old.items ++ (decimal n ++ 32 ∷ []) }
    ensures room { array_vec_len out.new ≡ array_vec_len out.old + length (decimal n) + 1 }
{
    if n < 10 {
        out.push(b'0' + n as u8);
        out.push(b' ');
        return;
    }
    push_number(n as u64, b' ', out);
}

/// Appends the line of so many equal events.
#[inline(never)]
#[tactic(auto, unfolding(crate::specs::Forms::run_text))]
pub(crate) fn push_run<const N: usize>(n: u32, bits: &Bits, out: &mut ArrayVec<u8, N>)
    requires { array_vec_len out.old + 20 ≤ N }
    ensures text { out.new.items ≡ out.old.items ++ run_text n bits.now }
    ensures room { array_vec_len out.new ≤ array_vec_len out.old + 20 }
{
    append(b"R ", out);
    push_count(n, out);
    push_event(bits, out);
}

/// Appends the line of a record. `LONGEST_LINE` bytes must be free.
#[inline]
pub fn push_record<const N: usize>(r: &Record, out: &mut ArrayVec<u8, N>)
    requires record { IsRecord r.now }
    requires room { array_vec_len out.old + LONGEST_LINE ≤ N }
    ensures text { out.new.items ≡ out.old.items ++ record_text r.now }
    ensures room { array_vec_len out.new ≤ array_vec_len out.old + LONGEST_LINE }
{
    match r {
        Record::Event(bits) => push_event(bits, out),
        Record::Head(head) => push_head(head, out),
        Record::Mark(mark) => push_mark(mark, out),
        Record::End => append(b"E\n", out),
    }
}

/// Puts the line of a record, in place of what stood there before.
pub fn put_record(r: &Record, out: &mut Text)
    requires { IsRecord r.now }
    ensures { out.new.items ≡ record_text r.now }
{
    out.clear();
    push_record(r, out);
}
