//! What the board replies, and the texts of the replies.
#![tactic(auto)]

ghost use Rattle.std.specs.Prelude.{◌≡◌, ◌≤◌, length};
ghost use Rattle.status_report.specs.Replies.{reply_text, IsReply};

pub mod laws;
mod lists;
mod reports;
mod texts;

pub use lists::{OFFSET_REPLIES, SETTING_REPLIES, lists_are_whole, offset_reply, setting_reply};
use modal_state::Modal;
pub use reports::{Report, State};
use texts::{line_end, put_words};
use units::{Nm3, Text, append};

/// What the board sends beside its answers.
#[derive(Clone, Copy, Debug, PartialEq, Eq)]
pub enum Message {
    /// The alarm lock is off.
    Unlocked,
    /// A program has ended.
    ProgramEnd,
    /// A reset is needed to go on.
    ResetToContinue,
    /// The machine is locked, until it is unlocked.
    Locked,
}

/// The modes of a parser with its tool, its feed in nm per minute, and its spindle speed in turns per minute.
#[derive(Clone, Copy, Debug, PartialEq, Eq)]
pub struct Modes {
    pub modal: Modal,
    pub tool: u8,
    pub feed: i64,
    pub rpm: u32,
}

/// What the board replies.
#[derive(Clone, Copy, Debug, PartialEq, Eq)]
pub enum Reply {
    /// The greeting at the start.
    Banner,
    /// A line was accepted.
    Ok,
    /// A line was refused, with the number of the error.
    Error(u8),
    /// The board has locked itself, with the number of the alarm.
    Alarm(u8),
    /// A message.
    Message(Message),
    /// The status that `?` asked for.
    Report(Report),
    /// A setting: its number, and its value as `Settings::get` gives it.
    Setting { n: u16, value: u64 },
    /// The modes.
    Modes(Modes),
    /// A row of the offsets, with its place in nm: rows 0 to 5 are G54 to G59, then come the points of G28 and
    /// G30, the offset of G92, the tool length and the probe. The last two are not served, and are listed
    /// without their place.
    Offset { row: u8, at: Nm3 },
    /// The last reply; it has no text.
    Bye,
}

/// Clears `out`, and puts the text of a reply into it. Each text ends with CR LF, but `Bye` has none.
///
/// No text is longer than 186 bytes, and the longest report has as many. Settings 10 and 20 are written whole, and the
/// others with three decimals; offsets in mm with three decimals, the thousandth nearest; and the feed in mm per
/// minute, the whole number nearest, a half upward.
#[tactic(auto, unfolding(crate::specs::Replies::reply_text))]
pub fn put_reply(r: &Reply, out: &mut Text)
    requires { IsReply r.now }
    ensures text { out.new.items ≡ reply_text r.now }
    ensures short { length out.new.items ≤ 186 }
{
    out.clear();
    put_words(r, out);
    append(line_end(r), out);
}
