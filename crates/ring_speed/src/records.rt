//! Records from a pulse to a recorder.

use crate::places::Apart;
use crate::rest;
use motion_ports::{RecordOut, RecordPort, record_ring};
use pulse_engine::TickOut;
use std::alloc::Global;
use std::sync::Wait;
use std::thread::{Threads, join_mut};
use step_line::{Bits, Record};
use step_record::RecordIn;

/// Puts so many events.
fn put_all<R: Wait>(rt: &R, records: &mut RecordOut, count: u32) {
    let mut put = 0_u32;
    for _ in rt.forever() {
        if put >= count {
            break;
        }
        match records.put(Record::Event(Bits { x: 1, y: 0, z: 0 })) {
            Ok(()) => put = put.saturating_add(1),
            Err(_) => rest(),
        }
    }
}

/// Takes so many.
fn take_all<R: Wait>(rt: &R, records: &mut RecordPort, count: u32) -> u32 {
    let mut taken = 0_u32;
    for _ in rt.forever() {
        if taken >= count {
            break;
        }
        match records.take() {
            Some(_) => taken = taken.saturating_add(1),
            None => rest(),
        }
    }
    taken
}

/// Sends so many records, and answers how many came.
pub(crate) fn send_apart<R: Threads + Wait + Sync>(
    rt: &R,
    alloc: Global,
    count: u32,
) -> Option<u32> {
    let (out, into) = record_ring(alloc).ok()?;
    let mut out = Apart::new(out);
    let mut into = Apart::new(into);
    let ((), taken) = join_mut(
        rt,
        &mut || put_all(rt, &mut out.end, count),
        &mut || take_all(rt, &mut into.end, count),
    );
    Some(taken)
}

/// The same, with the ends side by side.
pub(crate) fn send_beside<R: Threads + Wait + Sync>(
    rt: &R,
    alloc: Global,
    count: u32,
) -> Option<u32> {
    let (mut out, mut into) = record_ring(alloc).ok()?;
    let ((), taken) = join_mut(
        rt,
        &mut || put_all(rt, &mut out, count),
        &mut || take_all(rt, &mut into, count),
    );
    Some(taken)
}
