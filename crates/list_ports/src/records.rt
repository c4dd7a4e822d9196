//! The records between a pulse and a recorder.

ghost use Rattle.std.specs.Prelude.{◌≡◌, ◌≤◌, ◌++◌, ◌↔◌, true, [], ◌∷◌, length, IfOk, IfSome, IfNone, OnOk, OnErr, IfErr};
ghost use Rattle.step_line.specs.Records.{IsRecord};
ghost use Rattle.pulse_engine.specs.Logs.{RecordLog};
ghost use Rattle.pulse_engine.specs.Logs.RecordEvent.{put, full};
ghost use Rattle.step_record.specs.Taking.{Log};
ghost use Rattle.step_record.specs.Taking.Event.{took, none};
ghost use Rattle.list_ports.specs.Passing.{record_room};

use circular_buffer::HeapCircularBuffer;
use pulse_engine::{RECORD_ROOM, TickOut};
use std::alloc::{AllocError, Global};
use std::marker::Model;
use step_line::Record;
use step_record::RecordIn;

/// Records on their way from a pulse to a recorder, at most 1,024. What was put is what was taken and what waits, in
/// order. All room is taken once, by `new`.
#[derive(Drop)]
pub struct Records {
    held: HeapCircularBuffer<Record>,
}

impl Model for Records {
    ghost use Rattle.std.specs.Prelude.{List};
    ghost use Rattle.step_line.specs.declared.Record.{Record as AnyRecord};
    ghost use Rattle.list_ports.specs.Passing.{AreHeld};

    ghost Value = { List AnyRecord };

    ghost view = { λ r. r.held.items };

    ghost invariant = { λ r. AreHeld r.held.items r.held.capacity };
}

impl Records {
    /// Room for 1,024 records, of which none waits.
    pub fn new(alloc: Global) -> Result<Records, AllocError>
        ensures { IfOk result (λ records. records ≡ []) }
    {
        let held = HeapCircularBuffer::with_capacity(alloc, RECORD_ROOM)?;
        Ok(Records { held })
    }

    /// Whether no record waits.
    pub fn is_empty(&self) -> bool
        ensures { (result ≡ true) ↔ (self.now ≡ []) }
    {
        self.held.is_empty()
    }

    /// At most 1,024 records wait.
    pub fn have_room(&self)
        ensures { length self.now ≤ record_room }
    {
        let _records = self.held.len();
    }
}

impl TickOut for Records {
    ghost use Rattle.step_record.specs.Taking.{Log};
    ghost use Rattle.list_ports.specs.Passing.{HandsOn};

    /// What the side that takes has done.
    ghost Rest = { Log };

    ghost stands = { λ waiting log k. HandsOn waiting k log };

    /// Puts a record, or hands it back: exactly where 1,024 wait.
    #[inline]
    fn put(&mut self, r: Record) -> Result<(), Record>
        requires { IsRecord r }
        ensures ok { OnOk result ((rest : Log) (k : RecordLog) → HandsOn self.old k rest → HandsOn self.new (put r ∷ k) rest) }
        ensures full { OnErr result ((rest : Log) (k : RecordLog) → HandsOn self.old k rest → HandsOn self.new (full r ∷ k) rest) }
        ensures back { IfErr result (λ handed. handed ≡ r) }
        ensures cause { OnErr result (length self.old ≡ record_room) }
    {
        self.held.try_push_back(r)
    }
}

impl RecordIn for Records {
    ghost use Rattle.pulse_engine.specs.Logs.{RecordLog};
    ghost use Rattle.list_ports.specs.Passing.{HandsOn};

    /// What the side that puts has done.
    ghost Rest = { RecordLog };

    ghost stands = { λ waiting k log. HandsOn waiting k log };

    /// Takes the record that has waited longest, or finds none: exactly where none waits.
    #[inline]
    fn take(&mut self) -> Option<Record>
        ensures some { IfSome result (λ r. (rest : RecordLog) (log : Log) → HandsOn self.old rest log → HandsOn self.new rest (took r ∷ log)) }
        ensures none { IfNone result ((rest : RecordLog) (log : Log) → HandsOn self.old rest log → HandsOn self.new rest (none ∷ log)) }
        ensures line { IfSome result (λ r. (rest : RecordLog) (log : Log) → HandsOn self.old rest log → IsRecord r) }
        ensures cause { IfNone result (self.old ≡ []) }
    {
        self.held.pop_front()
    }
}
