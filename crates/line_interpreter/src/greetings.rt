//! What greets behind a reset.

ghost use Rattle.std.specs.Prelude.{◌≡◌, Bool, drop, length, true, false};
ghost use Rattle.run_rules.specs.Work.{telling};
ghost use Rattle.run_rules.specs.Work.Task.{tell};
ghost use Rattle.status_report.specs.Answering.{is_report};
ghost use Rattle.status_report.specs.Replies.{IsReply};
ghost use Rattle.status_report.specs.declared.Reply.{Reply as AnyReply};
ghost use Rattle.line_interpreter.specs.Lefts.{greeting, IsNextOf};

use status_report::{Message, Reply};

/// The number of the alarm that a reset raises.
const RESET: u8 = 3;

/// How many replies greet behind a reset.
pub(crate) fn greeting_count(alarm: bool, locked: bool) -> usize
    ensures { result ≡ length (greeting alarm locked) }
{
    if alarm && locked {
        return 3;
    }
    if alarm || locked {
        return 2;
    }
    1
}

/// The reply that is next of what greets behind a reset with no alarm.
fn greeted_told(stage: u8) -> Reply
    ensures next { (locked : Bool) (reply : AnyReply) → IsNextOf (tell reply) (drop stage (telling (greeting false locked))) → result ≡ reply }
    ensures valid { IsReply result }
    ensures plain { is_report result ≡ false }
{
    if stage == 0 {
        return Reply::Banner;
    }
    Reply::Message(Message::Locked)
}

/// The reply that is next of what greets behind a reset with its alarm.
fn alarmed_told(stage: u8) -> Reply
    ensures next { (locked : Bool) (reply : AnyReply) → IsNextOf (tell reply) (drop stage (telling (greeting true locked))) → result ≡ reply }
    ensures valid { IsReply result }
    ensures plain { is_report result ≡ false }
{
    if stage == 0 {
        return Reply::Alarm(RESET);
    }
    if stage == 1 {
        return Reply::Banner;
    }
    Reply::Message(Message::Locked)
}

/// The reply that is next of what greets behind a reset.
pub(crate) fn greeting_told(alarm: bool, stage: u8) -> Reply
    ensures next { (locked : Bool) (reply : AnyReply) → IsNextOf (tell reply) (drop stage (telling (greeting alarm locked))) → result ≡ reply }
    ensures valid { IsReply result }
    ensures plain { is_report result ≡ false }
{
    if alarm {
        return alarmed_told(stage);
    }
    greeted_told(stage)
}
