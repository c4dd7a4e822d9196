//! A console, reply by reply.

ghost use Rattle.std.specs.Prelude.{◌≡◌, ◌<◌, ◌≤◌, ◌++◌, ℕ, List, IfSome, None, length, drop};
ghost use Rattle.status_report.specs.declared.reports.Report.{Report as AnyReport};
ghost use Rattle.status_report.specs.declared.Reply.TheVariants as replies;
ghost use Rattle.status_report.specs.Reports.{IsReport, HasWidths};
ghost use Rattle.status_report.specs.Replies.{IsReply, reply_text};

use crate::texts::begins_with;
use crate::{Window, report_in};
use outside::{Failed, Source};
use status_report::{Reply, put_reply};
use std::marker::Model;
use units::Text;

/// How long the text of a reply is.
fn reply_len(reply: &Reply) -> usize
    requires { IsReply reply.now }
    ensures len { result ≡ length (reply_text reply.now) }
    ensures short { result ≤ 192 }
{
    let mut own = Text::new();
    put_reply(reply, &mut own);
    own.len()
}

/// The length of the report that begins a text, if one does.
fn report_len(text: &[u8]) -> Option<usize>
    ensures found { IfSome result (λ count. (report : AnyReport) × IsReport report × HasWidths report × (text.now ≡ reply_text (replies.Report report) ++ drop count text.now) × (count ≡ length (reply_text (replies.Report report)))) }
    ensures short { IfSome result (λ count. count ≤ 192) }
    ensures none { result ≡ None → (report : AnyReport) (rest : List ℕ) → IsReport report → HasWidths report → text.now ≡ reply_text (replies.Report report) ++ rest → ⊥ }
{
    let Some(report) = report_in(text) else {
        return None;
    };
    Some(reply_len(&Reply::Report(report)))
}

/// A reader of a console, reply by reply, in step with its source.
///
/// Contracts see the window on the text, and the place behind what was taken.
#[derive(Drop)]
pub struct ConsoleReader {
    window: Window,
    place: u64,
}

impl Model for ConsoleReader {
    ghost use Rattle.audit_readers.specs.Console.{ConsoleRead};

    ghost Value = { ConsoleRead };

    ghost view = { λ c. record { window = c.window; place = c.place } };
}

impl ConsoleReader {
    ghost use Rattle.std.specs.Prelude.{◌≡◌, ◌<◌, ◌≤◌, ◌^◌, ◌+◌, ◌++◌, ℕ, List, [], length, drop, false, MatchResult, OnOk, OnErr, IsTrue};
    ghost use Rattle.status_report.specs.Replies.{IsReply, reply_text};
    ghost use Rattle.audit_readers.specs.Console.{Skips, FailsToSkip, TakesReport};
    ghost use Rattle.status_report.specs.declared.reports.Report.{Report as AnyReport};
    ghost use Rattle.status_report.specs.declared.Reply.TheVariants as replies;
    ghost use Rattle.status_report.specs.Reports.{IsReport, HasWidths};
    ghost use Rattle.audit_readers.specs.Windows.{KnowsEnd, FillsUp, FailsToFill, TakesRest, FailsToTake, too_long};

    /// Nothing is read.
    pub fn new() -> ConsoleReader
        ensures waiting { result.window.waiting ≡ [] }
        ensures going { result.window.ended ≡ false }
        ensures place { result.place ≡ 0 }
    {
        ConsoleReader {
            window: Window::new(),
            place: 0,
        }
    }

    /// The place behind what was taken, in bytes of the text.
    pub fn place(&self) -> u64
        ensures { result ≡ self.now.place }
    {
        self.place
    }

    /// So many bytes are taken of those that wait.
    fn skip(&mut self, count: usize)
        requires within { count ≤ length self.old.window.waiting }
        requires short { count ≤ 192 }
        requires place { self.old.place < too_long }
        ensures waiting { self.new.window.waiting ≡ drop count self.old.window.waiting }
        ensures ended { self.new.window.ended ≡ self.old.window.ended }
        ensures place { self.new.place ≡ self.old.place + count }
    {
        self.window.take(count);
        self.place += count as u64;
    }

    /// Takes a reply, if its text begins what waits; behind `skip_reports` that is what follows.
    pub fn take(&mut self, reply: &Reply) -> bool
        requires reply { IsReply reply.now }
        requires place { self.old.place < too_long }
        ensures taken { IsTrue result → self.old.window.waiting ≡ reply_text reply.now ++ self.new.window.waiting }
        ensures ended { self.new.window.ended ≡ self.old.window.ended }
        ensures place { IsTrue result → self.new.place ≡ self.old.place + length (reply_text reply.now) }
        ensures other { result ≡ false → (rest : List ℕ) → self.old.window.waiting ≡ reply_text reply.now ++ rest → ⊥ }
        ensures same { result ≡ false → self.new ≡ self.old }
        ensures short { length (reply_text reply.now) ≤ 192 }
    {
        let count = reply_len(reply);
        if !begins_with(reply, self.window.waiting()) {
            return false;
        }
        self.skip(count);
        true
    }

    /// Takes the report that begins what waits, if one does.
    fn take_report(&mut self) -> bool
        requires place { self.old.place < too_long }
        ensures taken { IsTrue result → TakesReport self.old self.new }
        ensures none { result ≡ false → (report : AnyReport) (rest : List ℕ) → IsReport report → HasWidths report → self.old.window.waiting ≡ reply_text (replies.Report report) ++ rest → ⊥ }
        ensures same { result ≡ false → self.new ≡ self.old }
    {
        let Some(count) = report_len(self.window.waiting()) else {
            return false;
        };
        self.skip(count);
        true
    }

    /// Reads until enough waits.
    fn look<S: Source>(&mut self, source: &mut S) -> Result<(), Failed>
        requires known { KnowsEnd self.old.window (S.state source.old) }
        ensures place { self.new.place ≡ self.old.place }
        ensures filled { OnOk result (FillsUp self.old.window self.new.window (S.state source.old) (S.state source.new)) }
        ensures failed { OnErr result (FailsToFill self.old.window self.new.window (S.state source.old) (S.state source.new)) }
    {
        self.window.fill_up(source)
    }

    /// Takes all reports that stand next, or some of a text that is too long. After a failed read it may be called again.
    pub fn skip_reports<S: Source>(&mut self, source: &mut S) -> Result<(), Failed>
        requires known { KnowsEnd self.old.window (S.state source.old) }
        ensures { MatchResult result (λ e. Skips self.old self.new (S.state source.old) (S.state source.new)) (λ e. FailsToSkip self.old self.new (S.state source.old) (S.state source.new)) }
    {
        self.look(source)?;
        while self.place < 9_223_372_036_854_775_808 {
            if !self.take_report() {
                return Ok(());
            }
            self.look(source)?;
        }
        Ok(())
    }

    /// Takes all bytes that follow, or as many as are too many.
    pub fn take_rest<S: Source>(&mut self, source: &mut S) -> Result<(), Failed>
        requires known { KnowsEnd self.old.window (S.state source.old) }
        requires short { self.old.place < too_long }
        ensures { MatchResult result (λ e. TakesRest self.old.window self.new.window (S.state source.old) (S.state source.new) self.old.place self.new.place) (λ e. FailsToTake self.old.window self.new.window (S.state source.old) (S.state source.new)) }
    {
        self.place = self.window.take_rest(source, self.place)?;
        Ok(())
    }
}
