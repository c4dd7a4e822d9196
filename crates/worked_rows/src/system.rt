//! Lines that begin with `$`.

use crate::runs::{expect_answers, text_of};
use grbl_app::Status;

/// The settings behind the junction deviation, as they are at first.
pub(crate) const LATER_SETTINGS: &[u8] =
    b"$20=0\r\n$100=250.000\r\n$101=250.000\r\n$102=250.000\r\n$110=500.000\r\n$111=500.000\r\n$112=500.000\r\n$120=10.000\r\n$121=10.000\r\n$122=10.000\r\n$130=200.000\r\n$131=200.000\r\n$132=200.000\r\nok\r\n";

#[test]
fn a_refused_system_line_is_answered_with_its_number(rt: HostRuntime) {
    const ROWS: &[(&[u8], &[u8])] = &[
        (b"$Z", b"error:2\r\n"),
        (b"$=1", b"error:2\r\n"),
        (b"$11=", b"error:2\r\n"),
        (b"$200=-1", b"error:4\r\n"),
        (b"$11=-1", b"error:4\r\n"),
        (b"$5=1", b"error:3\r\n"),
        (b"$100=0", b"error:3\r\n"),
        (b"$11", b"error:3\r\n"),
        (b"$11=1X", b"error:3\r\n"),
        (b"$256=1", b"error:3\r\n"),
        (b"$11.5=1", b"error:3\r\n"),
        (b"$20=256", b"error:3\r\n"),
        (b"$J", b"error:3\r\n"),
        (b"$", b"error:3\r\n"),
        (b"$I", b"error:3\r\n"),
        (b"$$1", b"error:3\r\n"),
        (b"$N", b"error:3\r\n"),
    ];
    expect_answers(&rt, rt.alloc(), ROWS, Status::LineErrors(1));
}

#[test]
fn settings_are_listed_as_they_stand(rt: HostRuntime) {
    let alloc = rt.alloc();
    let generic = text_of(
        &rt,
        alloc,
        &[(b"$10=1\r\n$11=0.010\r\n", 1), (LATER_SETTINGS, 1)],
    );
    let changed = text_of(
        &rt,
        alloc,
        &[(b"ok\r\n$10=1\r\n$11=0.500\r\n", 1), (LATER_SETTINGS, 1)],
    );
    let rows: [(&[u8], &[u8]); 3] = [
        (b"$$", generic.as_slice()),
        (b"$11=0.5\n$$", changed.as_slice()),
        // Three decimals are kept, and small letters and blanks are no matter.
        (b" $11 = 0.5009 \n$$", changed.as_slice()),
    ];
    expect_answers(&rt, alloc, &rows, Status::Done);
}

#[test]
fn modes_offsets_and_the_lock_are_told(rt: HostRuntime) {
    const ROWS: &[(&[u8], &[u8])] = &[
        (
            b"$G",
            b"[GC:G0 G54 G17 G21 G90 G94 M5 M9 T0 F0 S0]\r\nok\r\n",
        ),
        // A feed in inches is told in mm.
        (
            b"g18g20g91g55t7f10s1200.9\n$g",
            b"ok\r\n[GC:G0 G55 G18 G20 G91 G94 M5 M9 T7 F254 S1200]\r\nok\r\n",
        ),
        (
            b"$#",
            b"[G54:0.000,0.000,0.000]\r\n[G55:0.000,0.000,0.000]\r\n[G56:0.000,0.000,0.000]\r\n[G57:0.000,0.000,0.000]\r\n[G58:0.000,0.000,0.000]\r\n[G59:0.000,0.000,0.000]\r\n[G28:0.000,0.000,0.000]\r\n[G30:0.000,0.000,0.000]\r\n[G92:0.000,0.000,0.000]\r\n[TLO:0.000]\r\n[PRB:0.000,0.000,0.000:0]\r\nok\r\n",
        ),
        (
            b"G92X5\n$#",
            b"ok\r\n[G54:0.000,0.000,0.000]\r\n[G55:0.000,0.000,0.000]\r\n[G56:0.000,0.000,0.000]\r\n[G57:0.000,0.000,0.000]\r\n[G58:0.000,0.000,0.000]\r\n[G59:0.000,0.000,0.000]\r\n[G28:0.000,0.000,0.000]\r\n[G30:0.000,0.000,0.000]\r\n[G92:-5.000,0.000,0.000]\r\n[TLO:0.000]\r\n[PRB:0.000,0.000,0.000:0]\r\nok\r\n",
        ),
        (b"$X", b"ok\r\n"),
    ];
    expect_answers(&rt, rt.alloc(), ROWS, Status::Done);
}
