//! The recorder: takes records, and writes their lines to a sink.

ghost use Rattle.std.specs.Prelude.{◌≡◌, ◌≢◌, ◌≤◌, ◌↔◌, true, false, [], ◌∷◌, length, IfSome, IfNone};
ghost use Rattle.outside.specs.Causes.{SinkState};
ghost use Rattle.step_line.specs.Records.{IsRecord};
ghost use Rattle.step_line.specs.declared.Record.TheVariants.{Event};
ghost use Rattle.text_writer.specs.Writers.{Writes, WroteOnce};
ghost use Rattle.step_record.specs.Taking.Event.{took, none};
ghost use Rattle.step_record.specs.Taking.{Log};
ghost use Rattle.step_record.specs.Recording.{Takes, Rests, RecorderFits, RecorderFitsOn, RecorderTurned, begun_in, fresh_in, is_event, line_put, with_event, with_record};

use crate::Form;
use crate::held_lines::{EventLine, Hand, LastLines, RecordLine, VersionLine};
use outside::{On, Sink, Turn};
use std::marker::Model;
use step_line::{Bits, Record};
use text_writer::TextWriter;

/// Where records are taken from.
pub trait RecordIn {
    /// What this side does not change.
    ghost Rest: { Type 0 };

    /// The records that were taken and the calls that found none.
    ghost stands: { Self → Rest → Log → Type 0 };

    /// Takes the next record, or finds none. A record has a line.
    fn take(&mut self) -> Option<Record>
        ensures some { IfSome result (λ r. (rest : Rest) (log : Log) → stands self.old rest log → stands self.new rest (took r ∷ log)) }
        ensures none { IfNone result ((rest : Rest) (log : Log) → stands self.old rest log → stands self.new rest (none ∷ log)) }
        ensures line { IfSome result (λ r. (rest : Rest) (log : Log) → stands self.old rest log → IsRecord r) };
}

/// Takes records up to the end, holds up to 4,096 bytes of their lines, and writes them: once fewer than 192 bytes are
/// free, or after the end, and then until none waits. A sink that has failed is given nothing more; records are still
/// taken, and their lines are dropped. In form 2 equal events are counted, and get their line once another record comes.
#[derive(Drop)]
pub struct Recorder {
    form: Form,
    /// In form 2 the events that were taken last, and have no line yet.
    hand: Hand,
    /// All is asked for once the end was taken.
    writer: TextWriter,
}

impl Model for Recorder {
    ghost use Rattle.step_record.specs.Recording.{Recording};

    ghost Value = { Recording };

    ghost view = { λ r. record { form = r.form; hand = r.hand; writer = r.writer } };
}

/// A writer for texts of a form: nothing was put, or the version was.
fn begun_in(form: Form) -> TextWriter
    ensures { result ≡ begun_in form }
{
    let mut writer = TextWriter::new();
    match form {
        Form::One => {}
        Form::Two => writer.put(&VersionLine),
    }
    writer
}

impl Recorder {
    /// A recorder that has taken nothing.
    pub fn new(form: Form) -> Recorder
        ensures fresh { result ≡ fresh_in form }
        ensures fits { (sink : SinkState) → RecorderFits form result [] sink sink }
    {
        Recorder {
            form,
            hand: Hand {
                count: 0,
                bits: Bits { x: 0, y: 0, z: 0 },
            },
            writer: begun_in(form),
        }
    }

    /// Whether a call of the sink has failed.
    #[inline]
    pub fn failed(&self) -> bool
        ensures { result ≡ self.now.writer.failed }
    {
        self.writer.failed()
    }

    /// Whether the next turn takes a record, or finds none.
    #[inline]
    pub fn takes(&self) -> bool
        ensures { (result ≡ true) ↔ Takes self.now }
    {
        !self.writer.is_due() && !self.writer.is_asked()
    }

    /// Counts an event, or puts the line of those in hand and has the event in hand.
    #[inline]
    fn count_event(&mut self, bits: Bits)
        requires takes { Takes self.old }
        requires few { length self.old.writer.waiting ≤ 4096 }
        ensures held { self.new ≡ with_event self.old bits }
        ensures few { length self.new.writer.waiting ≤ 4096 }
    {
        if self.hand.goes_on(bits) {
            self.hand.count += 1;
            return;
        }
        self.writer.put(&self.hand);
        self.hand = Hand { count: 1, bits };
    }

    /// Holds an event: its line, or the event itself. Nearly all records are events.
    #[inline]
    fn hold_event(&mut self, bits: Bits)
        requires event { IsRecord (Event bits) }
        requires takes { Takes self.old }
        requires few { length self.old.writer.waiting ≤ 4096 }
        ensures held { self.new ≡ with_record self.old (Event bits) }
        ensures few { length self.new.writer.waiting ≤ 4096 }
    {
        match self.form {
            Form::One => self.writer.put(&EventLine { bits }),
            Form::Two => self.count_event(bits),
        }
    }

    /// Puts the line of the events in hand, and that of a record.
    fn put_last(&mut self, r: Record)
        requires line { IsRecord r }
        requires takes { Takes self.old }
        ensures held { self.new ≡ line_put self.old.form self.old r }
        ensures few { length self.new.writer.waiting ≤ 4096 }
    {
        match self.form {
            Form::One => self.writer.put(&RecordLine { of: r }),
            Form::Two => {
                let lines = LastLines {
                    hand: self.hand,
                    of: r,
                };
                self.writer.put(&lines);
                self.hand.count = 0;
            }
        }
    }

    /// Holds the line of a record that is no event.
    #[inline(never)]
    fn hold(&mut self, r: Record)
        requires line { IsRecord r }
        requires other { is_event r ≡ false }
        requires takes { Takes self.old }
        ensures held { self.new ≡ with_record self.old r }
        ensures few { length self.new.writer.waiting ≤ 4096 }
    {
        self.put_last(r);
        if r.is_end() {
            self.writer.ask();
        }
    }

    /// Takes one record, or makes one call of the sink. `Did` has done one of the two, so each turn that answers it moves:
    /// it takes a record, or gives the sink a piece that is not empty. `Wait(Records)` comes exactly where no record was
    /// found. The recorder is done once the end was taken, and its line is written or the sink has failed; from then on
    /// nothing changes.
    ///
    /// What the sink is given is the text of the records taken, up to its first failure.
    #[inline(always)]
    pub fn turn<R: RecordIn, S: Sink>(&mut self, r: &mut R, s: &mut S) -> Turn
        requires { (rest : R.Rest) × (log : Log) × R.stands r.old rest log }
        ensures goes_on { (rest : R.Rest) (log : Log) → R.stands r.old rest log →
            (next : Log) × R.stands r.new rest next × RecorderFitsOn self.old self.new log next (S.state s.old) (S.state s.new) × RecorderTurned result self.old self.new log next }
        ensures wrote { Writes self.old.writer → WroteOnce self.old.writer self.new.writer (S.state s.old) (S.state s.new) }
        ensures sink { ¬ Writes self.old.writer → s.new ≡ s.old }
        ensures port { ¬ Takes self.old → r.new ≡ r.old }
        ensures done { (result ≡ Turn.Done) ↔ Rests self.old }
        ensures still { result ≢ Turn.Did → self.new ≡ self.old }
        ensures few { length self.new.writer.waiting ≤ 4096 }
    {
        if self.writer.is_due() {
            self.writer.write(s);
            return Turn::Did;
        }
        if self.writer.is_asked() {
            return Turn::Done;
        }
        match r.take() {
            None => Turn::Wait(On::Records),
            Some(Record::Event(bits)) => {
                self.hold_event(bits);
                Turn::Did
            }
            Some(record) => {
                self.hold(record);
                Turn::Did
            }
        }
    }
}
