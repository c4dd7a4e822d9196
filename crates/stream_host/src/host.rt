//! The host.

ghost use Rattle.std.specs.Prelude.{◌+◌, ◌^◌, ◌≡◌, ◌≢◌, ◌↔◌, ◌≤◌, ◌<◌, ◌∷◌, [], ◌++◌, ℕ, List, true, false, length, ◌||◌, Bool, Some, None, cond};
ghost use Rattle.status_report.specs.Replies.{IsReply};
ghost use Rattle.outside.specs.declared.Turn.TheVariants.{Did};
ghost use Rattle.text_writer.specs.Writers.{is_due};
ghost use Rattle.host_journal.specs.Ports.{AnswersLines};
ghost use Rattle.run_rules.specs.Work.{is_limit};
ghost use Rattle.host_journal.specs.Steps.{Journal, port_log, got_of, live_of, awaits_report, is_attended, beginning};
ghost use Rattle.host_journal.specs.Holding.{pauses};
ghost use Rattle.host_journal.specs.Steps.PortStep.{stored, marked, raised, got, shut};
ghost use Rattle.host_journal.specs.Steps.Step.{at_port, scanned, turned};
ghost use Rattle.status_report.specs.Answering.{answers_in, is_bye};
ghost use Rattle.host_journal.specs.Jobs.{is_reset, sent_text};
ghost use Rattle.stream_host.specs.Conduct.{AreAnswered, waits_for_lines, IsSettled, MayShut};
ghost use Rattle.stream_host.specs.Hosts.{HostFits, HostWorked, HostTurned, HostTellsOn, HasPolled, IsBetween, DidAlone, MayScanOn, MayReadOn, HasRoom, HasShown, HostRests, HasLine, IsSummed, lengths, with_banner, begins_by, awaits_by, KeepsLine, KeepsCounts, is_too_long, unread, shown};
ghost use Rattle.outside.specs.Causes.{SourceState, SinkState};

use crate::counts::Counts;
use crate::line::SentLine;
use crate::polls::polls_behind_end;
use crate::reader::{Gave, LARGEST_JOB, Reader};
use crate::resets::Resets;
use crate::shown::put_text;
use gcode_words::realtime_bytes::{CANCEL, QUERY};
use host_journal::{
    Asking, HostPort, Reading, has_pause, is_held_after, pause_after, resumed_after,
};
use outside::{On, Sink, Source, Turn};
use run_rules::SOFT_LIMIT;
use serial_ring::Stored;
use status_report::Reply;
use text_writer::TextWriter;

/// Whether a realtime byte is raised only once each line before its own is answered: a `?` is, and the cancel of a jog.
fn waits_for_lines(byte: u8) -> bool
    ensures { result ≡ waits_for_lines byte }
{
    matches!(byte, QUERY | CANCEL)
}

/// Reads a job, raises its realtime bytes, sends its lines by counting characters, and shows the replies.
#[derive(Drop)]
pub struct Host {
    /// So many bytes on the link at most are of lines that have no answer.
    pub(crate) room: u8,
    /// The sender stands by.
    pub(crate) attended: bool,
    pub(crate) job: Reader,
    pub(crate) line: SentLine,
    pub(crate) asking: Asking,
    pub(crate) counts: Counts,
    pub(crate) text: TextWriter,
    pub(crate) polls: u16,
    pub(crate) resets: Resets,
    /// A `!` was raised, and no `~` since, nor did an epoch begin.
    pub(crate) held: bool,
    /// The number of the line whose answer shows that each hold is over which a `~` of this epoch was to end, or 0.
    pub(crate) resumed_at: u32,
    pub(crate) greeted: bool,
    /// An alarm was got that ends the run.
    pub(crate) alarm: bool,
    pub(crate) shut: bool,
    pub(crate) bye: bool,
}

impl Host {
    /// A host that has done nothing, at a link that has room for `room` bytes, at least 128: so that the longest line that is sent,
    /// 127 bytes and its LF, has its place there. Its sender stands by or not: then it raises each realtime byte as it scans it, and
    /// resumes the machine by itself only once the link is closed.
    pub fn new(room: u8, attended: bool) -> Host
        requires { 128 ≤ room }
        ensures { HostFits room result (beginning attended) }
    {
        Host {
            room,
            attended,
            job: Reader::new(),
            line: SentLine::new(),
            asking: Asking::Nothing,
            counts: Counts::new(),
            text: TextWriter::new(),
            polls: 0,
            resets: Resets::new(),
            held: false,
            resumed_at: 0,
            greeted: false,
            alarm: false,
            shut: false,
            bye: false,
        }
    }

    /// Makes one call of the console with what waits.
    fn write<Co: Sink>(&mut self, console: &mut Co)
        requires { is_due self.old.text ≡ true }
        ensures { (room : ℕ) (h : Journal) → HostFits room self.old h → (next : Journal) × DidAlone room self.old self.new h next
            × ((job : SourceState) → HostTellsOn self.old self.new h next job job (Co.state console.old) (Co.state console.new)) }
    {
        self.text.write(console);
    }

    /// Counts a reply.
    fn count(&mut self, reply: &Reply)
        requires { (room : ℕ) × (h : Journal) × HostFits room self.old h × AnswersLines (got reply.now ∷ port_log h) }
        ensures counts { (room : ℕ) (h : Journal) → HostFits room self.old h → AnswersLines (got reply.now ∷ port_log h) → KeepsCounts self.new.counts (live_of h) (got_of h ++ reply.now ∷ []) }
        ensures pause { self.new.counts.pause_at ≡ self.old.counts.pause_at }
        ensures all { self.new.counts.all ≡ self.old.counts.all }
        ensures same { self.new ≡ record self.old { counts = self.new.counts } }
    {
        match reply {
            Reply::Ok => self.counts.add_answer(),
            Reply::Error(_) => self.counts.add_error(),
            _ => {}
        }
    }

    /// Puts the text of a reply. All text is asked for behind the last one.
    fn show(&mut self, reply: &Reply)
        requires reply { IsReply reply.now }
        requires ready { is_due self.old.text ≡ false }
        ensures text { self.new.text ≡ shown self.old.text reply.now }
        ensures bye { self.new.bye ≡ (self.old.bye || is_bye reply.now) }
        ensures same { self.new ≡ record self.old { text = self.new.text; bye = self.new.bye } }
    {
        put_text(reply, &mut self.text);
        if let Reply::Bye = reply {
            self.bye = true;
            self.text.ask();
        }
    }

    /// An epoch begins where a reply is a Banner, and not the run's first: the lines that have no answer are forgotten, and so is
    /// a hold.
    fn begin_epoch(&mut self, reply: &Reply)
        requires few { self.old.resets.banners + 1 < 2 ^ 32 }
        ensures resets { self.new.resets ≡ with_banner self.old.resets reply.now }
        ensures begun { begins_by self.old.resets reply.now ≡ true → (lengths self.new.counts.unanswered ≡ []) × IsSummed self.new.counts.unanswered
            × (self.new ≡ record self.old { resets = self.new.resets; held = false; resumed_at = 0; counts = record self.old.counts { unanswered = self.new.counts.unanswered; lines = self.old.counts.answered; pause_at = 0 } }) }
        ensures none { begins_by self.old.resets reply.now ≡ false → self.new ≡ record self.old { resets = self.new.resets } }
        ensures text { self.new.text ≡ self.old.text }
    {
        if self.resets.told(reply) {
            self.counts.forget();
            self.held = false;
            self.resumed_at = 0;
        }
    }

    /// A reply was got: it is counted, and its text waits for the console. The polls are counted anew.
    fn take_reply(&mut self, reply: &Reply)
        requires reply { IsReply reply.now }
        requires ready { is_due self.old.text ≡ false }
        requires going { self.old.bye ≡ false }
        requires fits { (room : ℕ) × (h : Journal) × HostFits room self.old h × AnswersLines (got reply.now ∷ port_log h) }
        ensures fits { (room : ℕ) (h : Journal) → HostFits room self.old h → AnswersLines (got reply.now ∷ port_log h) → HostFits room self.new (at_port (got reply.now) ∷ h) }
        ensures tells { (h : Journal) (job : SourceState) (console : SinkState) → HostTellsOn self.old self.new h (at_port (got reply.now) ∷ h) job job console console }
    {
        self.count(reply);
        self.begin_epoch(reply);
        self.show(reply);
        self.asking = self.asking.told(reply);
        self.polls = 0;
        self.greeted = true;
        self.alarm = is_alarmed_after(reply, self.alarm);
    }

    /// Whether the next byte may be scanned.
    fn may_scan(&self) -> bool
        ensures may { result ≡ true → MayScanOn self.now }
        ensures may_not { result ≡ false → MayScanOn self.now → ⊥ }
    {
        !self.line.whole
            && !self.line.is_too_long()
            && self.line.due.is_none()
            && self.job.place < self.job.end
            && self.job.scanned < LARGEST_JOB
    }

    /// Scans the next byte.
    fn scan_byte(&mut self)
        requires may { MayScanOn self.old }
        requires going { self.old.shut ≡ false }
        requires calm { self.old.alarm ≡ false }
        requires epoch { awaits_by self.old.resets ≡ false }
        requires fits { (room : ℕ) × (h : Journal) × HostFits room self.old h }
        ensures fits { (room : ℕ) (h : Journal) → HostFits room self.old h → (b : ℕ) × HostFits room self.new (scanned b ∷ h) }
        ensures text { self.new.text ≡ self.old.text }
        ensures shut { self.new.shut ≡ self.old.shut }
        ensures alarm { self.new.alarm ≡ self.old.alarm }
        ensures resets { self.new.resets ≡ self.old.resets }
        ensures fewer { length (unread self.new.job) < length (unread self.old.job) }
    {
        let byte = self.job.next_byte();
        self.asking.scan(self.line.begun);
        if byte == b'\n' {
            finish_line(&mut self.line, &mut self.counts);
        } else {
            self.line.feed(byte);
        }
    }

    /// Scans the piece until a byte is to be raised, the line ends or has too many bytes, or the piece is used up.
    fn scan(&mut self)
        requires may { MayScanOn self.old }
        requires going { self.old.shut ≡ false }
        requires calm { self.old.alarm ≡ false }
        requires epoch { awaits_by self.old.resets ≡ false }
        requires fits { (room : ℕ) × (h : Journal) × HostFits room self.old h }
        ensures { (room : ℕ) (h : Journal) → HostFits room self.old h → (next : Journal) × DidAlone room self.old self.new h next
            × ((job : SourceState) (console : SinkState) → HostTellsOn self.old self.new h next job job console console) }
    {
        self.scan_byte();
        while self.may_scan() {
            self.scan_byte();
        }
    }

    /// Reads the next piece. Where there is none, a last line without LF is over.
    fn read<So: Source>(&mut self, job: &mut So)
        requires may { MayReadOn self.old }
        requires shown { HasShown self.old.text }
        requires going { self.old.shut ≡ false }
        requires calm { self.old.alarm ≡ false }
        requires epoch { awaits_by self.old.resets ≡ false }
        requires settled { (room : ℕ) (h : Journal) → HostFits room self.old h → IsSettled h }
        requires fits { (room : ℕ) × (h : Journal) × HostFits room self.old h }
        ensures { (room : ℕ) (h : Journal) → HostFits room self.old h → (next : Journal) × DidAlone room self.old self.new h next
            × ((console : SinkState) → HostTellsOn self.old self.new h next (So.state job.old) (So.state job.new) console console) }
    {
        match self.job.read(job) {
            Gave::Bytes => return,
            Gave::Fault => return,
            Gave::End => {}
        }
        if self.line.begun {
            finish_line(&mut self.line, &mut self.counts);
        }
    }

    /// Whether a byte that is due is not raised yet: a `?` or a cancel waits until each line of the epoch before its own is
    /// answered, unless the sender stands by.
    fn is_early(&self, byte: u8) -> bool
        ensures { (room : ℕ) (h : Journal) → HostFits room self.now h → (result ≡ false) ↔ (is_attended h ≡ false → waits_for_lines byte ≡ true → AreAnswered h) }
    {
        if self.attended {
            return false;
        }
        waits_for_lines(byte) && self.counts.answered < self.counts.lines
    }

    /// Whether the line in hand is not stored yet: it waits for a report that it asked for, or the lines that have no answer
    /// leave no room for it.
    fn is_held_back(&self) -> bool
        ensures { (room : ℕ) (h : Journal) → HostFits room self.now h → (result ≡ false) ↔ ((awaits_report h ≡ false) × (self.now.counts.unanswered.total ≤ room)) }
    {
        self.asking == Asking::Awaits || self.counts.unanswered.total > usize::from(self.room)
    }

    /// Stores the mark of the reset that is due.
    fn mark<P: HostPort>(&mut self, port: &mut P)
        requires due { self.old.line.due ≡ Some 0x18 }
        requires fresh { self.old.resets.marked ≡ false }
        requires calm { self.old.alarm ≡ false }
        requires stands { (rest : P.Rest) × (h : Journal) × P.stands port.old rest (port_log h) × HostFits P.room self.old h }
        ensures marked { (rest : P.Rest) (h : Journal) → P.stands port.old rest (port_log h) → HostFits P.room self.old h → P.stands port.new rest (marked ∷ port_log h)
            × HostFits P.room self.new (at_port marked ∷ h) }
        ensures text { self.new.text ≡ self.old.text }
    {
        port.mark();
        self.resets.marked = true;
    }

    /// Raises the byte that is due.
    fn raise<P: HostPort>(&mut self, port: &mut P, byte: u8)
        requires due { self.old.line.due ≡ Some byte }
        requires calm { self.old.alarm ≡ false }
        requires behind_mark { is_reset byte ≡ true → self.old.resets.marked ≡ true }
        requires after { (room : ℕ) (h : Journal) → HostFits room self.old h → is_attended h ≡ false → waits_for_lines byte ≡ true → AreAnswered h }
        requires stands { (rest : P.Rest) × (h : Journal) × P.stands port.old rest (port_log h) × HostFits P.room self.old h }
        ensures raised { (rest : P.Rest) (h : Journal) → P.stands port.old rest (port_log h) → HostFits P.room self.old h → (down : Bool) × P.stands port.new rest (raised byte down ∷ port_log h)
            × HostFits P.room self.new (at_port (raised byte down) ∷ h) }
        ensures text { self.new.text ≡ self.old.text }
    {
        port.raise(byte);
        self.line.due = None;
        self.resets.raise(byte);
        self.asking = self.asking.raised(byte);
        self.resumed_at = resumed_after(
            byte,
            self.held,
            self.counts.lines,
            self.counts.pause_at,
            self.resumed_at,
        );
        self.held = is_held_after(byte, self.held);
        self.counts.pause_at = pause_after(byte, self.counts.pause_at);
    }

    /// Stores the next byte of the line in hand.
    fn store<P: HostPort>(&mut self, port: &mut P)
        requires storing { self.old.line.whole ≡ true }
        requires calm { self.old.alarm ≡ false }
        requires epoch { awaits_by self.old.resets ≡ false }
        requires room { self.old.counts.unanswered.total ≤ self.old.room }
        requires reported { self.old.asking ≢ Asking.Awaits }
        requires stands { (rest : P.Rest) × (h : Journal) × P.stands port.old rest (port_log h) × HostFits P.room self.old h }
        ensures stored { (rest : P.Rest) (h : Journal) → P.stands port.old rest (port_log h) → HostFits P.room self.old h → (b : ℕ) × P.stands port.new rest (stored b ∷ port_log h)
            × HostFits P.room self.new (at_port (stored b) ∷ h) }
        ensures text { self.new.text ≡ self.old.text }
    {
        let byte = self.line.next_byte();
        match port.store(byte) {
            Stored::Stored => self.line.advance(),
            Stored::Dropped => unreachable!(),
        }
    }

    /// Closes the link. A sender that stood by is gone then, and polls are counted anew.
    fn close<P: HostPort>(&mut self, port: &mut P)
        requires going { self.old.shut ≡ false }
        requires may { (room : ℕ) (h : Journal) → HostFits room self.old h → MayShut h }
        requires stands { (rest : P.Rest) × (h : Journal) × P.stands port.old rest (port_log h) × HostFits P.room self.old h }
        ensures closed { (rest : P.Rest) (h : Journal) → P.stands port.old rest (port_log h) → HostFits P.room self.old h → P.stands port.new rest (shut ∷ port_log h)
            × HostFits P.room self.new (at_port shut ∷ h) }
        ensures text { self.new.text ≡ self.old.text }
    {
        port.close();
        self.shut = true;
        self.polls = polls_behind_end(self.attended, self.polls);
    }

    /// Whether the piece and the line in hand let the job be read on.
    fn may_read(&self) -> bool
        ensures may { result ≡ true → MayReadOn self.now }
        ensures may_not { result ≡ false → MayReadOn self.now → ⊥ }
    {
        self.line.due.is_none()
            && !self.line.whole
            && !self.line.is_too_long()
            && self.job.end <= self.job.place
            && matches!(self.job.reading, Reading::Stopped)
    }

    /// Nothing more is sent: the link is closed, but for a Banner that is awaited, and then replies are waited for.
    fn send_no_more<P: HostPort>(&mut self, port: &mut P) -> Turn
        requires alarm { self.old.alarm ≡ true }
        requires shown { HasShown self.old.text }
        requires stands { (rest : P.Rest) × (h : Journal) × P.stands port.old rest (port_log h) × HostFits P.room self.old h × HasPolled h }
        ensures goes_on { (rest : P.Rest) (h : Journal) → P.stands port.old rest (port_log h) → HostFits P.room self.old h → HasPolled h
            → (next : Journal) × P.stands port.new rest (port_log next) × HostWorked P.room result self.old self.new h next
            × ((job : SourceState) (console : SinkState) → HostTellsOn self.old self.new h next job job console console) }
        ensures going { result ≢ Turn.Done }
    {
        if self.shut {
            return Turn::Wait(On::Answer);
        }
        if self.resets.awaits() {
            return Turn::Wait(On::Answer);
        }
        self.close(port);
        Turn::Did
    }

    /// Takes one step of sending: marks and raises a byte that is due, or goes on with the line if no Banner is awaited. Behind an alarm
    /// nothing more is sent.
    fn send<P: HostPort, So: Source>(&mut self, port: &mut P, job: &mut So) -> Turn
        requires shown { HasShown self.old.text }
        requires stands { (rest : P.Rest) × (h : Journal) × P.stands port.old rest (port_log h) × HostFits P.room self.old h × HasPolled h }
        ensures goes_on { (rest : P.Rest) (h : Journal) → P.stands port.old rest (port_log h) → HostFits P.room self.old h → HasPolled h
            → (next : Journal) × P.stands port.new rest (port_log next) × HostWorked P.room result self.old self.new h next
            × ((console : SinkState) → HostTellsOn self.old self.new h next (So.state job.old) (So.state job.new) console console) }
        ensures going { result ≢ Turn.Done }
    {
        if self.alarm {
            return self.send_no_more(port);
        }
        if let Some(byte) = self.line.due {
            return self.raise_due(port, byte);
        }
        if self.resets.awaits() {
            return Turn::Wait(On::Answer);
        }
        self.send_line(port, job)
    }

    /// Raises a byte that is due, a reset behind its mark, which is stored in a turn of its own. Where it is too early, a reply is
    /// waited for.
    fn raise_due<P: HostPort>(&mut self, port: &mut P, byte: u8) -> Turn
        requires due { self.old.line.due ≡ Some byte }
        requires calm { self.old.alarm ≡ false }
        requires shown { HasShown self.old.text }
        requires stands { (rest : P.Rest) × (h : Journal) × P.stands port.old rest (port_log h) × HostFits P.room self.old h × HasPolled h }
        ensures goes_on { (rest : P.Rest) (h : Journal) → P.stands port.old rest (port_log h) → HostFits P.room self.old h → HasPolled h
            → (next : Journal) × P.stands port.new rest (port_log next) × HostWorked P.room result self.old self.new h next
            × ((job : SourceState) (console : SinkState) → HostTellsOn self.old self.new h next job job console console) }
        ensures going { result ≢ Turn.Done }
    {
        if self.is_early(byte) {
            return Turn::Wait(On::Answer);
        }
        if self.resets.wants_mark(byte) {
            self.mark(port);
            return Turn::Did;
        }
        self.raise(port, byte);
        Turn::Did
    }

    /// Stores a byte, scans, reads once nothing is awaited, or closes the link. Where it may do none, a reply is waited for.
    fn send_line<P: HostPort, So: Source>(&mut self, port: &mut P, job: &mut So) -> Turn
        requires none_due { self.old.line.due ≡ None }
        requires calm { self.old.alarm ≡ false }
        requires epoch { awaits_by self.old.resets ≡ false }
        requires shown { HasShown self.old.text }
        requires stands { (rest : P.Rest) × (h : Journal) × P.stands port.old rest (port_log h) × HostFits P.room self.old h × HasPolled h }
        ensures goes_on { (rest : P.Rest) (h : Journal) → P.stands port.old rest (port_log h) → HostFits P.room self.old h → HasPolled h
            → (next : Journal) × P.stands port.new rest (port_log next) × HostWorked P.room result self.old self.new h next
            × ((console : SinkState) → HostTellsOn self.old self.new h next (So.state job.old) (So.state job.new) console console) }
        ensures going { result ≢ Turn.Done }
    {
        if self.line.whole {
            if self.is_held_back() {
                return Turn::Wait(On::Answer);
            }
            self.store(port);
            return Turn::Did;
        }
        if self.shut {
            return Turn::Wait(On::Answer);
        }
        if self.may_scan() {
            self.scan();
            return Turn::Did;
        }
        if self.may_read() {
            if !self.is_settled() {
                return Turn::Wait(On::Answer);
            }
            self.read(job);
            return Turn::Did;
        }
        self.close(port);
        Turn::Did
    }

    /// Where a poll found no reply, writes the text that waits, and else takes one step of sending.
    fn write_or_send<P: HostPort, So: Source, Co: Sink>(
        &mut self,
        port: &mut P,
        job: &mut So,
        console: &mut Co,
    ) -> Turn
        requires stands { (rest : P.Rest) × (h : Journal) × P.stands port.old rest (port_log h) × HostFits P.room self.old h × HasPolled h }
        ensures goes_on { (rest : P.Rest) (h : Journal) → P.stands port.old rest (port_log h) → HostFits P.room self.old h → HasPolled h
            → (next : Journal) × P.stands port.new rest (port_log next) × HostWorked P.room result self.old self.new h next
            × HostTellsOn self.old self.new h next (So.state job.old) (So.state job.new) (Co.state console.old) (Co.state console.new) }
        ensures going { result ≢ Turn.Done }
    {
        self.text.ask();
        let shows = self.text.is_due();
        if shows {
            self.write(console);
            return Turn::Did;
        }
        self.send(port, job)
    }

    /// Does what a turn does.
    fn work<P: HostPort, So: Source, Co: Sink>(
        &mut self,
        port: &mut P,
        job: &mut So,
        console: &mut Co,
    ) -> Turn
        requires stands { (rest : P.Rest) × (h : Journal) × P.stands port.old rest (port_log h) × HostFits P.room self.old h × IsBetween h }
        ensures goes_on { (rest : P.Rest) (h : Journal) → P.stands port.old rest (port_log h) → HostFits P.room self.old h → IsBetween h
            → (next : Journal) × P.stands port.new rest (port_log next) × HostWorked P.room result self.old self.new h next
            × HostTellsOn self.old self.new h next (So.state job.old) (So.state job.new) (Co.state console.old) (Co.state console.new) }
        ensures done { (result ≡ Turn.Done) ↔ HostRests self.old }
        ensures still { HostRests self.old → (self.new ≡ self.old) × (port.new ≡ port.old) × (job.new ≡ job.old) × (console.new ≡ console.old) }
    {
        if self.text.is_due() {
            self.write(console);
            return Turn::Did;
        }
        if self.bye {
            return Turn::Done;
        }
        match port.reply() {
            Some(reply) => {
                self.take_reply(&reply);
                Turn::Did
            }
            None => {
                if self.count_poll(port) {
                    return Turn::Did;
                }
                self.write_or_send(port, job, console)
            }
        }
    }

    /// Takes a turn: writes text that is due, takes a reply, resumes the machine where 4,096 polls in a row have found
    /// none (if its sender stands by, only once the link is closed), or takes one step of sending; at most one thing is
    /// published. Where a poll found no reply, and the rules allow nothing else, it answers `Wait(Answer)`. It is done once
    /// Bye was got and all text is written or the console has failed; from then on nothing changes.
    ///
    /// A read may wait for whoever writes the job, and what the board gives meanwhile is not shown. So the job is read on
    /// only once each line that was sent has its answer and no report is awaited. Without a hold the board answers each
    /// whole line sooner or later, so the host goes on. A machine that is held may answer nothing before it is resumed, and
    /// the resume may be what is to be read next: where the machine may be held, the job is read on once 2,048 polls in a
    /// row have found no reply. In an attended run a `~` may have come too early, and the host ends no hold: so there 32,768 such
    /// polls are enough behind a `~`, until an answer shows that the hold is over which it was to end. At the end of the job
    /// nothing is awaited before the link is closed.
    ///
    /// The rules of the host are those of its journal: whatever it has done before, it goes on as they allow.
    pub fn turn<P: HostPort, So: Source, Co: Sink>(
        &mut self,
        port: &mut P,
        job: &mut So,
        console: &mut Co,
    ) -> Turn
        requires stands { (rest : P.Rest) × (h : Journal) × P.stands port.old rest (port_log h) × HostFits P.room self.old h × IsBetween h }
        ensures goes_on { (rest : P.Rest) (h : Journal) → P.stands port.old rest (port_log h) → HostFits P.room self.old h → IsBetween h
            → (next : Journal) × P.stands port.new rest (port_log next) × HostFits P.room self.new next × IsBetween next × HostTurned result self.old self.new h next
            × HostTellsOn self.old self.new h next (So.state job.old) (So.state job.new) (Co.state console.old) (Co.state console.new) }
        ensures done { (result ≡ Turn.Done) ↔ HostRests self.old }
        ensures still { HostRests self.old → (self.new ≡ self.old) × (port.new ≡ port.old) × (job.new ≡ job.old) × (console.new ≡ console.old) }
    {
        self.work(port, job, console)
    }
}

/// Whether an alarm was got that ends the run, with a reply more.
fn is_alarmed_after(reply: &Reply, alarm: bool) -> bool
    ensures { result ≡ (alarm || is_limit reply.now) }
{
    alarm || matches!(reply, Reply::Alarm(SOFT_LIMIT))
}

/// The line in hand is over, and is to be stored.
fn finish_line(line: &mut SentLine, counts: &mut Counts)
    requires room { HasRoom counts.old }
    requires sends { is_too_long line.old ≡ false }
    ensures line { (raw : List ℕ) → HasLine line.old raw → KeepsLine line.new [] (sent_text raw ++ 10 ∷ []) }
    ensures counts { (raw : List ℕ) (live : List (List ℕ)) (got : List Reply) → HasLine line.old raw → KeepsCounts counts.old live got → answers_in got ≤ length live
        → KeepsCounts counts.new (live ++ raw ∷ []) got }
    ensures all { counts.new.all ≡ counts.old.all + 1 }
    ensures due { line.new.due ≡ line.old.due }
    ensures pause { (raw : List ℕ) → HasLine line.old raw → counts.new.pause_at ≡ cond (pauses raw) (counts.old.lines + 1) counts.old.pause_at }
{
    let pauses = has_pause(line.kept.as_slice());
    let size = line.finish();
    counts.add_line(size, pauses);
}
