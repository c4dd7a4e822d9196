//! How a run ends, in numbers and in words.
#![tactic(auto)]

ghost use Rattle.std.specs.Prelude.{◌≡◌, ◌≤◌, ◌+◌, ◌++◌, length, codes, decimal};
ghost use Rattle.arrayvec.specs.ArrayVec.{array_vec_len};
ghost use Rattle.run_status.specs.Ends.{by_errors, status_of};
ghost use Rattle.run_status.specs.Faults.{fault_text, exit_number_of};

mod laws;

use itoa::Buffer;
pub use laws::{
    accepted_jobs_are_complete, faults_are_told, statuses_have_no_other_causes,
    statuses_have_their_causes,
};
use run_law::RunEnd;
use stream_host::Stop;
use units::{Text, append};

/// How a run ended. Where several hold, the first of `Usage`, `OutOfMemory`, `StepsFault`, `ConsoleFault`,
/// `SourceFault`, `TooLarge`, `LongLine`, `Alarm` and `LineErrors` is told.
#[derive(Clone, Copy, Debug, PartialEq, Eq)]
pub enum Status {
    /// All lines were answered `ok`.
    Done,
    /// So many lines were refused.
    LineErrors(u32),
    /// The words name no command. Nothing was read or written.
    Usage,
    /// A read of the job failed.
    SourceFault,
    /// A write of the console failed.
    ConsoleFault,
    /// A write of the steps failed.
    StepsFault,
    /// This line is longer than a line of a job may be.
    LongLine(u32),
    /// This line went beyond a soft limit.
    Alarm(u32),
    /// The source had more than 16,777,216 bytes.
    TooLarge,
    /// There was no memory. Nothing was read or written.
    OutOfMemory,
}

/// The status of a run whose job was sent to its end, and whose texts were written.
fn by_errors(errors: u32) -> Status
    ensures { result ≡ by_errors errors }
{
    if errors == 0 {
        Status::Done
    } else {
        Status::LineErrors(errors)
    }
}

/// The status of a run, by how it ended: the first cause that holds.
pub fn status_of(end: &RunEnd) -> Status
    ensures { result ≡ status_of end.now }
{
    if end.steps_failed {
        return Status::StepsFault;
    }
    if end.console_failed {
        return Status::ConsoleFault;
    }
    if end.source_failed {
        return Status::SourceFault;
    }
    match end.stop {
        Stop::End => by_errors(end.errors),
        Stop::LongLine(line) => Status::LongLine(line),
        Stop::TooLarge => Status::TooLarge,
        Stop::Alarm(line) => Status::Alarm(line),
    }
}

/// The number that the program ends with.
pub fn exit_number(s: &Status) -> u8
    ensures { result ≡ exit_number_of s.now }
{
    match s {
        Status::Done => 0,
        Status::LineErrors(_) => 1,
        Status::Usage => 2,
        Status::SourceFault => 3,
        Status::ConsoleFault => 4,
        Status::StepsFault => 5,
        Status::LongLine(_) => 6,
        Status::Alarm(_) => 8,
        Status::TooLarge => 9,
        Status::OutOfMemory => 10,
    }
}

/// Puts a number between two short texts.
fn put_numbered(before: &[u8], number: u32, behind: &[u8], out: &mut Text)
    requires room { array_vec_len out.old + length before.now + length behind.now + 40 ≤ 192 }
    ensures { out.new.items ≡ out.old.items ++ before.now ++ decimal number ++ behind.now }
{
    let mut buffer = Buffer::new();
    append(before, out);
    append(buffer.format(number).as_bytes(), out);
    append(behind, out);
}

/// Puts what the program says of a status on standard error: nothing where all went well, else one line ended
/// by LF.
pub fn put_fault(s: &Status, out: &mut Text)
    ensures { out.new.items ≡ fault_text s.now }
{
    out.clear();
    match s {
        Status::Done => {}
        Status::LineErrors(count) => put_numbered(b"", *count, b" lines refused\n", out),
        Status::Usage => append(
            b"usage: grbl stream [--lockstep SEED] [--wide] [--compact] | grbl demo N\n",
            out,
        ),
        Status::SourceFault => append(b"fault: the job could not be read\n", out),
        Status::ConsoleFault => append(b"fault: the console could not be written\n", out),
        Status::StepsFault => append(b"fault: the steps could not be written\n", out),
        Status::LongLine(line) => {
            put_numbered(b"fault: line ", *line, b" is longer than 127 bytes\n", out)
        }
        Status::Alarm(line) => put_numbered(b"stopped: soft limit at line ", *line, b"\n", out),
        Status::TooLarge => append(b"fault: the job is larger than 16777216 bytes\n", out),
        Status::OutOfMemory => append(b"fault: out of memory\n", out),
    }
}
