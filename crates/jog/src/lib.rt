//! Jogs: what becomes of the words after `$J=`. A jog is one move at a feed of its own, which changes no mode.
#![tactic(auto)]

ghost use Rattle.std.specs.Prelude.{◌≡◌, All, IfOk, IfNone, false, [], ◌∷◌};
ghost use Rattle.std.specs.List.{list_any};
ghost use Rattle.units.specs.Limits.{IsFeed};
ghost use Rattle.gcode_words.specs.Words.{IsSmallWord};
ghost use Rattle.modal_state.specs.Modes.{IsParser};
ghost use Rattle.settings.specs.Numbers.{IsSettings};
ghost use Rattle.travel_limits.specs.Reach.{IsNear};
ghost use Rattle.jog.specs.Jogs.{has_no_feed, unused_in_jog, is_other_code, jog_error, feed_said, jog_of, jogged, IsJog};

mod laws;
#[cfg(test)]
mod tests;

use code_table::Code;
use gcode_words::{Word, Words};
pub use laws::{jogs_begin_at_the_position, jogs_go_where_lines_go, jogs_have_one_cause};
use line_words::commands::{G20, G21, G53, G90, G91};
use line_words::{Line, feed_of, is_code, line_number_out_of_range, names_axis, target};
use modal_state::Parser;
use settings::Settings;
use travel_limits::{is_far, leave_travel, steps3};
use units::{Move, Nm3, Rate};

/// The move of a jog.
#[derive(Clone, Copy, Debug, PartialEq, Eq)]
pub struct JogMove {
    /// The way, in steps.
    pub mv: Move,
    /// `Rate::Jog` of the jog's own feed.
    pub rate: Rate,
    /// Where the jog ends, in nm from the machine's zero.
    pub target: Nm3,
}

impl JogMove {
    /// Takes the place where the jog ends. Modes, feed and offsets stay as they were.
    pub fn finish(&self, p: &mut Parser)
        requires parser { IsParser p.old }
        requires jog { IsJog self.now }
        ensures place { p.new ≡ jogged p.old self.now }
        ensures valid { IsParser p.new }
    {
        p.pos_nm = self.target;
        p.pos_steps = self.mv.to;
    }
}

/// Whether a jog has no feed of its own, or 0.
fn has_no_feed(line: &Line<'_>) -> bool
    ensures { result ≡ has_no_feed line.now }
{
    match line.given(b'F') {
        Some(feed) => feed.micro.unsigned_abs() == 0,
        None => true,
    }
}

/// Whether there is a word that no jog takes.
fn unused_in_jog(line: &Line<'_>) -> bool
    ensures { result ≡ unused_in_jog line.now }
{
    line.stands(b'I')
        || line.stands(b'J')
        || line.stands(b'K')
        || line.stands(b'L')
        || line.stands(b'P')
        || line.stands(b'R')
        || line.stands(b'S')
        || line.stands(b'T')
}

/// Whether a word is a code that no jog may have: any but G20, G21, G53, G90 and G91.
fn is_other_code(word: &Word) -> bool
    ensures { result ≡ is_other_code word.now }
{
    let is_command = word.letter == b'G' || word.letter == b'M';
    let is_jog_code = is_code(word, G20)
        || is_code(word, G21)
        || is_code(word, G53)
        || is_code(word, G90)
        || is_code(word, G91);
    is_command && !is_jog_code
}

fn has_other_code(line: &Line<'_>) -> bool
    ensures { result ≡ list_any is_other_code line.now }
{
    line.words().iter().any(|word| is_other_code(word))
}

/// The first of the errors of a jog whose words pass and that goes to this target.
#[tactic(auto, unfolding(crate::specs::Jogs::jog_error))]
fn first_error(s: &Settings, line: &Line<'_>, at: &Nm3) -> Option<Code>
    ensures { result ≡ jog_error s.now line.now at.now }
{
    if line_number_out_of_range(line) {
        return Some(Code::INVALID_LINE_NUMBER);
    }
    if has_no_feed(line) {
        return Some(Code::UNDEFINED_FEED);
    }
    if !names_axis(line) {
        return Some(Code::NO_AXIS_WORDS);
    }
    if unused_in_jog(line) {
        return Some(Code::UNUSED_WORDS);
    }
    if has_other_code(line) {
        return Some(Code::INVALID_JOG);
    }
    if is_far(at) {
        return Some(Code::TARGET_OUT_OF_RANGE);
    }
    if leave_travel(s, &[*at]) {
        return Some(Code::TRAVEL_EXCEEDED);
    }
    None
}

/// What refuses a jog whose words pass. If nothing does, the target is near.
fn refusal(s: &Settings, line: &Line<'_>, at: &Nm3) -> Option<Code>
    ensures refusal { result ≡ jog_error s.now line.now at.now }
    ensures near { IfNone result (IsNear at.now) }
{
    first_error(s, line, at)
}

/// The feed of a jog, in nm per minute.
fn feed_said(p: &Parser, line: &Line<'_>) -> i64
    requires { IsParser p.now }
    ensures feed { result ≡ feed_said p.now line.now }
    ensures range { IsFeed result }
{
    if !line.stands(b'F') {
        return 0;
    }
    feed_of(p, line)
}

/// What becomes of the words after `$J=`: one move from the position to the target that any line with these words has,
/// at their feed. The parser stays as it is; `JogMove::finish` takes it to the end of the jog.
///
/// # Errors
///
/// That of the first word that does not pass after those before it, as in any line; else the first of these: 27 if N is
/// over 10,000,000; 22 if there is no F word or F is 0; 26 if there is no axis word; 36 if there is an I, J, K, L, P,
/// R, S or T word; 16 if there is an M word or a G word other than G20, G21, G53, G90 and G91; 33 if the target is
/// beyond 10,000 mm of the machine's zero on some axis; 15 if soft limits are on and the target is outside travel on
/// some axis.
#[tactic(auto, unfolding(crate::specs::Jogs::jog_of))]
pub fn check_jog(p: &Parser, s: &Settings, w: &Words) -> Result<JogMove, Code>
    requires words { All IsSmallWord w.now.items }
    requires parser { IsParser p.now }
    requires settings { IsSettings s.now }
    ensures verdict { result ≡ jog_of p.now s.now w.now.items }
    ensures valid { IfOk result IsJog }
{
    let line = match Line::read(w.as_slice()) {
        Ok(line) => line,
        Err(code) => return Err(code),
    };
    let at = target(p, &line);
    if let Some(code) = refusal(s, &line, &at) {
        return Err(code);
    }
    let to = steps3(&at, &s.limits.per_mm);
    Ok(JogMove {
        mv: Move {
            from: p.pos_steps,
            to,
        },
        rate: Rate::Jog(feed_said(p, &line)),
        target: at,
    })
}
