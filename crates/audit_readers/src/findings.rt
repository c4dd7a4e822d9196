//! The line that says what was found.

ghost use Rattle.std.specs.Prelude.{◌≡◌, ◌+◌, ◌≤◌, ◌++◌, length, decimal};
ghost use Rattle.arrayvec.specs.ArrayVec.{array_vec_len};
ghost use Rattle.audit_rules.specs.Findings.{audit_text, exit_of};

use audit_rules::Audit;
use itoa::Buffer;
use units::{Text, append};

/// Appends a number between two short texts.
fn put_around(before: &[u8], number: u64, behind: &[u8], out: &mut Text)
    requires { array_vec_len out.old + length before.now + length behind.now + 20 ≤ 192 }
    ensures { out.new.items ≡ out.old.items ++ (before.now ++ decimal number ++ behind.now) }
{
    let mut buffer = Buffer::new();
    append(before, out);
    append(buffer.format(number).as_bytes(), out);
    append(behind, out);
}

/// Puts the line of what was found.
#[tactic(auto, using(crate::proofs::Printed::foreign_line))]
pub fn put_audit(audit: &Audit, out: &mut Text)
    ensures { out.new.items ≡ audit_text audit.now }
{
    out.clear();
    match audit {
        Audit::Fits { events } => put_around(b"fits: ", *events, b" events\n", out),
        Audit::Misfit { at } => put_around(b"misfit at byte ", *at, b"\n", out),
        Audit::BadReplies { line } => {
            put_around(b"replies differ at line ", u64::from(*line), b"\n", out)
        }
        Audit::Foreign { line } => put_around(b"line ", u64::from(*line), b" isn't audited\n", out),
        Audit::Usage => append(b"usage\n", out),
        Audit::JobFault => append(b"job fault\n", out),
        Audit::ConsoleFault => append(b"console fault\n", out),
        Audit::StepsFault => append(b"steps fault\n", out),
        Audit::OutFault => append(b"out fault\n", out),
        Audit::TooLong => append(b"too long\n", out),
    }
}

/// The status with which the program ends.
pub fn exit_of(audit: &Audit) -> u8
    ensures { result ≡ exit_of audit.now }
{
    match audit {
        Audit::Fits { .. } => 0,
        Audit::Misfit { .. } => 1,
        Audit::Usage => 2,
        Audit::JobFault => 3,
        Audit::ConsoleFault => 4,
        Audit::StepsFault => 5,
        Audit::OutFault => 6,
        Audit::BadReplies { .. } => 7,
        Audit::Foreign { .. } => 8,
        Audit::TooLong => 9,
    }
}
