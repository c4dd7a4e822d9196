//! The line that sums up a run of the generated job.

ghost use Rattle.std.specs.Prelude.{◌≡◌, ◌≤◌, ◌<◌, ◌+◌, ◌*◌, ◌++◌, length, codes, pos};
ghost use Rattle.arrayvec.specs.ArrayVec.{array_vec_len};
ghost use Rattle.step_line.specs.Counting.{events_of};
ghost use Rattle.demo_job.specs.Jobs.{answers_text, axis_text, count_text, job_events, job_move, lines_text, pins_text, stop_text, stop, summary_of};

use crate::lines::target;
use itoa::Buffer;
use step_line::events;
use units::{Move, Steps3, Text, append, put_fixed3, to_thousandths};

/// Steps per millimetre, in thousandths of a step: the setting that a run begins with, on each axis.
const PER_MM: u32 = 250_000;

/// The place that move `i` goes to, in steps.
fn stop(i: u32) -> Steps3
    requires { i ≤ 100000 }
    ensures { result ≡ stop i }
{
    let to = target(i);
    Steps3 {
        x: (25 * to.x) as i64,
        y: (25 * to.y) as i64,
        z: 0,
    }
}

/// The events of move `i`.
#[tactic(auto, using(crate::proofs::Summing::is_move, crate::proofs::Summing::few_events))]
fn move_events(i: u32) -> u32
    requires { (1 ≤ i) × (i ≤ 100000) }
    ensures events { result ≡ events_of (job_move i) }
    ensures few { result ≤ 1225 }
{
    events(&Move {
        from: stop(i - 1),
        to: stop(i),
    })
}

/// The events of the moves from 1 to `n`.
#[tactic(auto, using(crate::proofs::Summing::no_events, crate::proofs::Summing::more_events))]
fn job_events(n: u32) -> u32
    requires { n ≤ 100000 }
    ensures { result ≡ job_events n }
{
    let mut total = 0;
    for i in 0..n {
        total += move_events(i + 1);
    }
    total
}

/// Appends a text and a number after it.
#[tactic(auto, using(crate::proofs::Summing::number_short), unfolding(crate::specs::Jobs::count_text))]
fn put_count(before: &[u8], number: u32, out: &mut Text)
    requires room { array_vec_len out.old + length before.now + 40 ≤ 192 }
    ensures text { out.new.items ≡ out.old.items ++ count_text before.now number }
    ensures room { array_vec_len out.new ≤ array_vec_len out.old + length before.now + 10 }
{
    append(before, out);
    let mut buffer = Buffer::new();
    append(buffer.format(number).as_bytes(), out);
}

/// Appends a text and a number of 64 bits after it.
#[tactic(auto, using(crate::proofs::Summing::long_number_short), unfolding(crate::specs::Jobs::count_text))]
fn put_long_count(before: &[u8], number: u64, out: &mut Text)
    requires room { array_vec_len out.old + length before.now + 40 ≤ 192 }
    ensures text { out.new.items ≡ out.old.items ++ count_text before.now number }
    ensures room { array_vec_len out.new ≤ array_vec_len out.old + length before.now + 20 }
{
    append(before, out);
    let mut buffer = Buffer::new();
    append(buffer.format(number).as_bytes(), out);
}

/// Appends a text and, after it, tenths of a millimetre as millimetres with three decimals.
#[tactic(auto, unfolding(crate::specs::Jobs::axis_text))]
fn put_axis(before: &[u8], tenths: u32, out: &mut Text)
    requires room { array_vec_len out.old + length before.now + 24 ≤ 192 }
    requires few { tenths < 100 }
    ensures text { out.new.items ≡ out.old.items ++ axis_text before.now (pos (25 * tenths)) }
    ensures room { array_vec_len out.new ≤ array_vec_len out.old + length before.now + 21 }
{
    append(before, out);
    put_fixed3(to_thousandths((25 * tenths) as i64, PER_MM), out);
}

/// Appends where move `n` goes.
fn put_place(n: u32, out: &mut Text)
    requires room { array_vec_len out.old + 75 ≤ 192 }
    requires moves { n ≤ 100000 }
    ensures text { out.new.items ≡ out.old.items ++ stop_text (stop n) }
    ensures room { array_vec_len out.new ≤ array_vec_len out.old + 69 }
{
    let to = target(n);
    put_axis(b" at ", to.x, out);
    put_axis(b",", to.y, out);
    put_axis(b",", 0, out);
}

/// Appends how many lines the job of `n` moves has.
fn put_lines(n: u32, out: &mut Text)
    requires room { array_vec_len out.old + 62 ≤ 192 }
    requires moves { n ≤ 100000 }
    ensures text { out.new.items ≡ out.old.items ++ lines_text n (n + 3) }
    ensures room { array_vec_len out.new ≤ array_vec_len out.old + 32 }
{
    put_count(b"demo ", n, out);
    put_count(b" lines ", n + 3, out);
}

/// How the lines of a run were answered.
#[derive(Clone, Copy, Debug, PartialEq, Eq)]
pub struct Answers {
    /// With `ok`.
    pub ok: u32,
    /// With an error.
    pub error: u32,
}

/// Appends how the lines of a run were answered.
fn put_answers(answers: Answers, out: &mut Text)
    requires room { array_vec_len out.old + 62 ≤ 192 }
    ensures text { out.new.items ≡ out.old.items ++ answers_text answers.ok answers.error }
    ensures room { array_vec_len out.new ≤ array_vec_len out.old + 31 }
{
    put_count(b" ok ", answers.ok, out);
    put_count(b" error ", answers.error, out);
}

/// Appends how many events the moves of the job of `n` moves have, and where the last of them goes.
fn put_motion(n: u32, out: &mut Text)
    requires room { array_vec_len out.old + 94 ≤ 192 }
    requires moves { (1 ≤ n) × (n ≤ 100000) }
    ensures text { out.new.items ≡ out.old.items ++ count_text (codes " events ") (job_events n) ++ stop_text (stop n) }
    ensures room { array_vec_len out.new ≤ array_vec_len out.old + 87 }
{
    put_count(b" events ", job_events(n), out);
    put_place(n, out);
}

/// Puts the line on a run of the job of `n` moves into a text, which is emptied before: how many lines it has, how they
/// were answered, how many events its moves have, and where the last of them goes.
pub fn put_summary(n: u32, answers: Answers, out: &mut Text)
    requires moves { (1 ≤ n) × (n ≤ 100000) }
    ensures { out.new.items ≡ summary_of n (n + 3) answers.ok answers.error (job_events n) (stop n) }
{
    out.clear();
    put_lines(n, out);
    put_answers(answers, out);
    put_motion(n, out);
    append(b"\n", out);
}

/// Puts the line on a run of the job of `n` moves whose subticks were counted into a text, which is emptied before: how many
/// subticks there were, and where the last move goes.
pub fn put_pins(n: u32, subticks: u64, out: &mut Text)
    requires moves { (1 ≤ n) × (n ≤ 100000) }
    ensures { out.new.items ≡ pins_text n subticks }
{
    out.clear();
    put_count(b"pins ", n, out);
    put_long_count(b" words ", subticks, out);
    put_place(n, out);
    append(b"\n", out);
}
