//! The replies that `$$`, `$G` and `$#` list, one by one.

ghost use Rattle.std.specs.Prelude.{◌≡◌, ◌<◌, false, length, Some, slice_get};
ghost use Rattle.modal_state.specs.Modes.{IsParser};
ghost use Rattle.modal_state.specs.declared.Offsets.{Offsets};
ghost use Rattle.settings.specs.declared.Settings.{Settings};
ghost use Rattle.status_report.specs.Lists.{setting_replies, modes_of, offset_replies};
ghost use Rattle.status_report.specs.Replies.{IsModes, IsReply};
ghost use Rattle.status_report.specs.Answering.{is_report};

use crate::{Modes, Reply};
use modal_state::{Offsets, Parser};
use settings::Settings;
use units::Nm3;

/// How many replies `$$` lists.
pub const SETTING_REPLIES: usize = 15;

/// How many replies `$#` lists.
pub const OFFSET_REPLIES: usize = 11;

/// The reply at a place, from 0, among those that `$$` lists: each setting, in the order of the numbers.
pub fn setting_reply(settings: &Settings, place: usize) -> Reply
    requires { place < SETTING_REPLIES }
    ensures listed { slice_get (setting_replies settings.now) place ≡ Some result }
    ensures valid { IsReply result }
    ensures plain { is_report result ≡ false }
{
    let (n, value) = settings.row(place);
    Reply::Setting {
        n,
        value: u64::from(value),
    }
}

impl Modes {
    /// The modes of a parser, which `$G` lists.
    pub fn of(parser: &Parser) -> Modes
        requires { IsParser parser.now }
        ensures modes { result ≡ modes_of parser.now }
        ensures valid { IsModes result }
    {
        Modes {
            modal: parser.modal,
            tool: parser.tool,
            feed: parser.feed,
            rpm: parser.rpm,
        }
    }
}

/// The place of a row of the offsets; the tool length and the probe have none.
#[tactic(auto, unfolding(crate::specs::Lists::offset_replies))]
fn row_place(offsets: &Offsets, row: u8) -> Nm3
    requires { row < OFFSET_REPLIES }
    ensures { slice_get (offset_replies offsets.now) row ≡ Some (Reply.Offset row result) }
{
    match row {
        0 => offsets.s1,
        1 => offsets.s2,
        2 => offsets.s3,
        3 => offsets.s4,
        4 => offsets.s5,
        5 => offsets.s6,
        6 => offsets.home28,
        7 => offsets.home30,
        8 => offsets.g92,
        _ => Nm3::default(),
    }
}

/// The reply at a place, from 0, among those that `$#` lists: the offsets of G54 to G59, the points of G28 and G30,
/// the offset of G92, the tool length and the probe.
pub fn offset_reply(offsets: &Offsets, place: usize) -> Reply
    requires { place < OFFSET_REPLIES }
    ensures listed { slice_get (offset_replies offsets.now) place ≡ Some result }
    ensures valid { IsReply result }
    ensures plain { is_report result ≡ false }
{
    let row = place as u8;
    Reply::Offset {
        row,
        at: row_place(offsets, row),
    }
}

/// `$$` lists fifteen replies, and `$#` eleven.
#[tactic(auto, unfolding(crate::specs::Lists::setting_replies, crate::specs::Lists::offset_replies))]
pub fn lists_are_whole()
    ensures settings { (settings : Settings) → length (setting_replies settings) ≡ SETTING_REPLIES }
    ensures offsets { (offsets : Offsets) → length (offset_replies offsets) ≡ OFFSET_REPLIES }
{}
