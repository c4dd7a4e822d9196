//! An audit in memory.

use outside::{MemSink, MemSource, OutOfMemory};
use run_audit::{Audit, run_audit};
use std::alloc::Global;

/// Audits three texts, which come some bytes at a time: what is found, and the line that says so.
pub(crate) fn audit_of(
    alloc: Global,
    job: &[u8],
    console: &[u8],
    steps: &[u8],
    piece: usize,
) -> Result<(Audit, Vec<u8>), OutOfMemory> {
    let piece = piece.max(1);
    let mut job = MemSource::new(job, piece, &[]);
    let mut console = MemSource::new(console, piece, &[]);
    let mut steps = MemSource::new(steps, piece, &[]);
    let mut out = MemSink::new(alloc, 100, &[])?;
    let names = ["job.nc", "console.txt", "steps.out"];
    let found = run_audit(&names, &mut job, &mut console, &mut steps, &mut out);
    let said = Vec::from_slice(alloc, out.held())?;
    Ok((found, said))
}
