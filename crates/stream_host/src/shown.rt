//! The texts of replies, as they are put behind what waits for the console.

ghost use Rattle.std.specs.Prelude.{◌≡◌, false};
ghost use Rattle.status_report.specs.Replies.{IsReply, reply_text};
ghost use Rattle.text_writer.specs.Writers.{is_due, with_text};

use status_report::{Reply, put_reply};
use text_writer::{ShortText, TextWriter, Waiting};
use units::{Text, append};

/// The text of `Reply::Ok`, by far the most of all replies.
#[derive(Clone, Copy)]
struct OkText;

impl ShortText for OkText {
    ghost use Rattle.status_report.specs.declared.Reply.TheVariants as replies;
    ghost use Rattle.status_report.specs.Replies.{reply_text};

    ghost has_text = { λ t. Unit {0} };

    ghost text = { λ t. reply_text replies.Ok };

    #[inline]
    #[tactic(auto, unfolding(status_report::specs::Replies::reply_text))]
    fn append_to(&self, waiting: &mut Waiting) {
        append(b"ok\r\n", waiting);
    }
}

/// Puts the text of any reply.
#[inline(never)]
fn put_any(reply: &Reply, writer: &mut TextWriter)
    requires reply { IsReply reply.now }
    requires ready { is_due writer.old ≡ false }
    ensures { writer.new ≡ with_text writer.old (reply_text reply.now) }
{
    let mut text = Text::new();
    put_reply(reply, &mut text);
    writer.put(&text);
}

/// Puts the text of a reply.
pub(crate) fn put_text(reply: &Reply, writer: &mut TextWriter)
    requires reply { IsReply reply.now }
    requires ready { is_due writer.old ≡ false }
    ensures { writer.new ≡ with_text writer.old (reply_text reply.now) }
{
    match reply {
        Reply::Ok => writer.put(&OkText),
        _ => put_any(reply, writer),
    }
}
