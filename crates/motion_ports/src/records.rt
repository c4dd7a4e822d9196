//! The ring of records.

ghost use Rattle.std.specs.Prelude.{◌≡◌, List, [], ◌++◌, IfOk};
ghost use Rattle.rtrb.specs.Ring.{sent, received, producer_capacity, IsPair};
ghost use Rattle.step_line.specs.declared.Record.{Record};

use outside::OutOfMemory;
use pulse_engine::{RECORD_ROOM, TickOut};
use rtrb::{Consumer, Producer, Protocol, RingBuffer};
use std::alloc::Global;
use step_line::Record;
use step_record::RecordIn;

/// What is asked of each record that is put, and so known of each that is taken: it has a line.
#[derive(Clone, Copy)]
pub struct Recordable;

impl Protocol<Record> for Recordable {
    ghost use Rattle.step_line.specs.Records.{IsRecord};

    ghost allows = { λ before r. IsRecord r };
}

/// Where the pulse puts records.
#[derive(Drop)]
pub struct RecordOut {
    pub end: Producer<Record, Global, Recordable>,
}

/// Where the recorder takes them.
#[derive(Drop)]
pub struct RecordPort {
    pub end: Consumer<Record, Global, Recordable>,
}

/// The port stands for the records that were sent, and its far side for the ring, by an end of it.
impl TickOut for RecordOut {
    ghost use Rattle.motion_ports.specs.declared.records.RecordOut.{RecordOut};
    ghost use Rattle.motion_ports.specs.Ports.{HasPut};

    ghost Rest = { RecordOut };

    ghost stands = { λ port ring log. HasPut port.end ring.end log };

    #[inline(always)]
    fn put(&mut self, r: Record) -> Result<(), Record> {
        if self.end.is_full() {
            return Err(r);
        }
        self.end.push_reserved(r);
        Ok(())
    }
}

/// The port stands for the records that were received.
impl RecordIn for RecordPort {
    ghost use Rattle.motion_ports.specs.declared.records.RecordPort.{RecordPort};
    ghost use Rattle.motion_ports.specs.Ports.{HasTaken};

    ghost Rest = { RecordPort };

    ghost stands = { λ port ring log. HasTaken port.end ring.end log };

    #[inline]
    fn take(&mut self) -> Option<Record> {
        if self.end.is_empty() {
            return None;
        }
        Some(self.end.pop_known())
    }
}

/// A ring of 1,024 records with none in it, and its two ends.
pub fn record_ring(alloc: Global) -> Result<(RecordOut, RecordPort), OutOfMemory>
    ensures pair { IfOk result (λ r. IsPair r.0.end r.1.end) }
    ensures fresh { IfOk result (λ r. (sent r.0.end ≡ []) × (received r.1.end ≡ [])) }
    ensures room { IfOk result (λ r. producer_capacity r.0.end ≡ 1024) }
{
    let (out, into) = RingBuffer::with_protocol(alloc, RECORD_ROOM)?;
    Ok((RecordOut { end: out }, RecordPort { end: into }))
}

/// Ends the ring of these two ends. The records taken are the first of those put.
pub fn join_records(out: RecordOut, into: RecordPort)
    requires { IsPair out.end into.end }
    ensures { (untaken : List Record) × (sent out.end ≡ received into.end ++ untaken) }
{
    let RecordOut { end: mut producer } = out;
    let RecordPort { end: mut consumer } = into;
    consumer.slots_beside(&mut producer);
}
