//! What is taken of a console.

ghost use Rattle.std.specs.Prelude.{◌≡◌, ◌↔◌, ◌<◌, ◌≤◌, ◌++◌, List, ℕ, Some, false, length, drop};
ghost use Rattle.outside.specs.Causes.{SourceState};
ghost use Rattle.status_report.specs.Answering.{is_report, is_bye};
ghost use Rattle.status_report.specs.Replies.{reply_text};
ghost use Rattle.status_report.specs.declared.Reply.{Reply as AnyReply};
ghost use Rattle.audit_rules.specs.Consoles.{GoesOnWith};
ghost use Rattle.audit_readers.specs.Windows.{ahead};
ghost use Rattle.audit_readers.specs.Console.{ConsoleRead, Skips};
ghost use Rattle.audit_readers.specs.Windows.{too_long};

/// Behind its reports a console goes on with a reply exactly if the text of that begins what waits, and so exactly if the
/// reply can be taken.
pub fn taken_replies_come_next()
    ensures { (old now : ConsoleRead) (before after : SourceState) (text : List ℕ) (reply : AnyReply) → Skips old now before after → now.place < too_long →
        ahead old.window before ≡ Some text → is_report reply ≡ false → is_bye reply ≡ false → length (reply_text reply) ≤ 192 →
        GoesOnWith text reply ↔ (now.window.waiting ≡ reply_text reply ++ drop (length (reply_text reply)) now.window.waiting) }
{}
