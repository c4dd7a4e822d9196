//! The lines of the generated job.

ghost use Rattle.std.specs.Prelude.{◌≡◌, ◌≤◌, ◌<◌, ◌+◌, ◌-◌, ◌++◌, Some, length, slice_get};
ghost use Rattle.arrayvec.specs.ArrayVec.{array_vec_len};
ghost use Rattle.demo_job.specs.Jobs.{job_lines, move_line, tenths_text, x_tenths, y_tenths};

use gcode_words::LineBuf;
use units::append;

/// Where a move of the generated job goes, in tenths of a millimetre; the machine begins at 0.
#[derive(Clone, Copy, Debug, PartialEq, Eq)]
pub(crate) struct Tenths {
    pub(crate) x: u32,
    pub(crate) y: u32,
}

/// Where move `i` goes: to 7i mod 50 and 11i mod 30 tenths of a millimetre.
pub(crate) fn target(i: u32) -> Tenths
    requires { i ≤ 100000 }
    ensures x { result.x ≡ x_tenths i }
    ensures y { result.y ≡ y_tenths i }
    ensures near { (result.x < 50) × (result.y < 30) }
{
    Tenths {
        x: 7 * i % 50,
        y: 11 * i % 30,
    }
}

/// Appends tenths as millimetres: a digit, a point, a digit.
fn put_tenths(tenths: u32, out: &mut LineBuf)
    requires room { array_vec_len out.old + 3 ≤ 79 }
    requires few { tenths < 100 }
    ensures text { out.new.items ≡ out.old.items ++ tenths_text tenths }
    ensures room { array_vec_len out.new ≡ array_vec_len out.old + 3 }
{
    let digits = [b'0' + (tenths / 10) as u8, b'.', b'0' + (tenths % 10) as u8];
    append(&digits, out);
}

/// Puts the line of move `i` into an empty buffer.
fn put_move(i: u32, out: &mut LineBuf)
    requires few { i ≤ 100000 }
    requires empty { array_vec_len out.old ≡ 0 }
    ensures text { out.new.items ≡ move_line i }
    ensures short { length out.new.items ≤ 10 }
{
    let to = target(i);
    append(b"G1X", out);
    put_tenths(to.x, out);
    append(b"Y", out);
    put_tenths(to.y, out);
}

/// Puts line `i` of the generated job of `n` moves into a buffer, which is emptied before: first the modes, then the
/// feed, then the moves in their order, at last the end of the program.
#[tactic(auto, using(crate::proofs::Standing::modes_stand, crate::proofs::Standing::feed_stands, crate::proofs::Standing::moves_stand, crate::proofs::Standing::end_stands))]
pub fn demo_line(n: u32, i: u32, out: &mut LineBuf)
    requires moves { (1 ≤ n) × (n ≤ 100000) }
    requires line { (1 ≤ i) × (i ≤ n + 3) }
    ensures line { slice_get (job_lines n) (i - 1) ≡ Some out.new.items }
    ensures short { length out.new.items ≤ 10 }
{
    out.clear();
    if i == 1 {
        append(b"G21G90G94", out);
    } else if i == 2 {
        append(b"F600", out);
    } else if i == n + 3 {
        append(b"M2", out);
    } else {
        put_move(i - 2, out);
    }
}
