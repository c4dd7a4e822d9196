//! Worked texts, and what is found of them.

use outside::{MemSink, MemSource};
use run_audit::{Audit, run_audit};
use std::test::Fail;

const BANNER: &str = "\r\nGrbl 1.1h ['$' for help]\r\n";

/// The steps of a jog that a hold cuts.
const CUT_BEHIND_AN_ALARM: &str = "\
    s 2 1 0 226951\nX-\ns 2 1 80000 160000\nX-\ns 2 1 160000 130880\nX-\ns 2 1 240000 113275\n\
    X-\ns 2 1 320000 101266\nX-\ns 2 1 400000 92486\nX-\ns 2 1 480000 85562\nX-\n\
    s 2 2 560000 85562\nX-\nX-\ns 2 1 400000 101266\nX-\ns 2 1 320000 113275\nX-\n\
    s 2 1 240000 130880\nX-\ns 2 1 160000 160000\nX-\ns 2 1 80000 226951\nX-\nX 2\nE\n";

/// What is found of three texts.
fn found(rt: &HostRuntime, job: &[u8], console: &[u8], steps: &[u8]) -> Result<Audit, Fail> {
    let mut job = MemSource::new(job, 7, &[]);
    let mut console = MemSource::new(console, 7, &[]);
    let mut steps = MemSource::new(steps, 7, &[]);
    let mut out = MemSink::new(rt.alloc(), 200, &[])?;
    Ok(run_audit(
        &["a", "b", "c"],
        &mut job,
        &mut console,
        &mut steps,
        &mut out,
    ))
}

#[test]
fn one_step_fits(rt: HostRuntime) -> Result<(), Fail> {
    let console = b"\r\nGrbl 1.1h ['$' for help]\r\nok\r\n";
    let job = b"G0X0.004";
    assert_eq!(rt;
        found(&rt, job, console, b"s 1 1 0 320000\nX+\nE\n")?,
        Audit::Fits { events: 1 }
    );
    assert_eq!(rt;
        found(&rt, job, console, b"V 2\ns 1 1 0 320000\nX+\nE\n")?,
        Audit::Fits { events: 1 }
    );
    assert_eq!(rt;
        found(&rt, job, console, b"s 1 1 0 320000\nX-\nE\n")?,
        Audit::Misfit { at: 15 }
    );
    assert_eq!(rt;
        found(&rt, job, console, b"s 1 1 0 320000\nX+\n")?,
        Audit::Misfit { at: 18 }
    );
    assert_eq!(rt;
        found(&rt, job, console, b"s 1 1 0 320000\nX+\nE\nE\n")?,
        Audit::Misfit { at: 20 }
    );
    assert_eq!(rt; found(&rt, job, console, b"E\n")?, Audit::Misfit { at: 0 });
    Ok(())
}

#[test]
fn bad_replies_are_found(rt: HostRuntime) -> Result<(), Fail> {
    let steps = b"s 1 1 0 320000\nX+\nE\n";
    let job = b"G0X0.004";
    assert_eq!(rt;
        found(
            &rt,
            job,
            b"\r\nGrbl 1.1h ['$' for help]\r\nerror:20\r\n",
            steps
        )?,
        Audit::BadReplies { line: 1 }
    );
    assert_eq!(rt;
        found(&rt, job, b"ok\r\n", steps)?,
        Audit::BadReplies { line: 1 }
    );
    assert_eq!(rt;
        found(&rt, job, b"\r\nGrbl 1.1h ['$' for help]\r\n", steps)?,
        Audit::BadReplies { line: 1 }
    );
    assert_eq!(rt;
        found(
            &rt,
            job,
            b"\r\nGrbl 1.1h ['$' for help]\r\nok\r\nok\r\n",
            steps
        )?,
        Audit::BadReplies { line: 2 }
    );
    assert_eq!(rt; found(&rt, b"$H", b"", b"")?, Audit::Foreign { line: 1 });
    assert_eq!(rt;
        found(&rt, b"", b"\r\nGrbl 1.1h ['$' for help]\r\n", b"E\n")?,
        Audit::Fits { events: 0 }
    );
    Ok(())
}

#[test]
fn resets_are_followed(rt: HostRuntime) -> Result<(), Fail> {
    let both = b"\r\nGrbl 1.1h ['$' for help]\r\n\r\nGrbl 1.1h ['$' for help]\r\nok\r\n";
    assert_eq!(rt;
        found(&rt, b"\x18", both, b"Z 0\nE\n")?,
        Audit::Fits { events: 0 }
    );
    assert_eq!(rt;
        found(&rt, b"\x18", both, b"Z 1\nE\n")?,
        Audit::Misfit { at: 0 }
    );
    assert_eq!(rt; found(&rt, b"\x18", both, b"E\n")?, Audit::Misfit { at: 0 });
    assert_eq!(rt;
        found(
            &rt,
            b"\x18",
            b"\r\nGrbl 1.1h ['$' for help]\r\nok\r\n",
            b"Z 0\nE\n"
        )?,
        Audit::BadReplies { line: 1 }
    );
    assert_eq!(rt;
        found(&rt, b"G0X0.004\n\x18", both, b"Z 0\nE\n")?,
        Audit::Fits { events: 0 }
    );
    assert_eq!(rt;
        found(&rt, b"G0X0.004\n\x18", both, b"Z 1\nE\n")?,
        Audit::Fits { events: 0 }
    );
    assert_eq!(rt;
        found(
            &rt,
            b"G0X0.004\n\x18",
            both,
            b"s 1 1 0 320000\nX+\nZ 1\nE\n"
        )?,
        Audit::Fits { events: 1 }
    );
    assert_eq!(rt;
        found(
            &rt,
            b"G0X0.004\n\x18",
            both,
            b"s 1 1 0 320000\nX+\nZ 0\nE\n"
        )?,
        Audit::Misfit { at: 18 }
    );
    Ok(())
}

#[test]
fn holds_behind_an_alarm_may_cut(rt: HostRuntime) -> Result<(), Fail> {
    let console =
        b"\r\nGrbl 1.1h ['$' for help]\r\nok\r\nok\r\nALARM:2\r\n[MSG:Reset to continue]\r\n";
    let steps = CUT_BEHIND_AN_ALARM.as_bytes();
    let job = b"$20=1\n$J=G91X-0.2F500\nG53G0X1\n!\n";
    assert_eq!(rt;
        found(&rt, job, console, steps)?,
        Audit::Fits { events: 14 }
    );
    let job = b"$20=1\n$J=G91X-0.2F500\nG53G0X1\n?\n";
    assert_eq!(rt; found(&rt, job, console, steps)?, Audit::Misfit { at: 296 });
    Ok(())
}

/// A line that is too long, of which nothing is sent: a hold behind it may cut all the same.
#[test]
fn holds_behind_a_long_line_may_cut(rt: HostRuntime) -> Result<(), Fail> {
    let console =
        b"\r\nGrbl 1.1h ['$' for help]\r\nok\r\nok\r\nALARM:2\r\n[MSG:Reset to continue]\r\n";
    let steps = CUT_BEHIND_AN_ALARM.as_bytes();
    let job = b"$20=1\n$J=G91X-0.2F500\nG53G0X1\n\
        XXXXXXXXXXXXXXXXXXXXXXXXXXXXXXXXXXXXXXXXXXXXXXXXXXXXXXXXXXXXXXXX\
        XXXXXXXXXXXXXXXXXXXXXXXXXXXXXXXXXXXXXXXXXXXXXXXXXXXXXXXXXXXXXXXX\n!\n";
    assert_eq!(rt;
        found(&rt, job, console, steps)?,
        Audit::Fits { events: 14 }
    );
    Ok(())
}

/// A jog that waits is cut, and a reset keeps it from its answer.
#[test]
fn waiting_jogs_are_cut_unanswered(rt: HostRuntime) -> Result<(), Fail> {
    let console = b"\r\nGrbl 1.1h ['$' for help]\r\nok\r\nALARM:3\r\n\
        \r\nGrbl 1.1h ['$' for help]\r\n[MSG:'$H'|'$X' to unlock]\r\nok\r\n";
    let job = b"$J=G91X0.02F500\n$J=G91X0.02F500\n!\x18\n";
    let steps =
        b"s 1 1 0 226951\nX+\ns 1 1 80000 160000\nX+\ns 1 1 80000 226951\nX+\nX 2\nZ 2\nE\n";
    assert_eq!(rt; found(&rt, job, console, steps)?, Audit::Fits { events: 3 });
    Ok(())
}

/// A line that raises an alarm is begun, and a reset keeps it from that.
#[test]
fn limited_lines_are_left_unanswered(rt: HostRuntime) -> Result<(), Fail> {
    let console = b"\r\nGrbl 1.1h ['$' for help]\r\nok\r\n\r\nGrbl 1.1h ['$' for help]\r\nok\r\n";
    let job = b"$20=1\nG53G0X1\n\x18\n";
    assert_eq!(rt;
        found(&rt, job, console, b"Z 1\nE\n")?,
        Audit::Fits { events: 0 }
    );
    assert_eq!(rt;
        found(&rt, job, console, b"Z 2\nE\n")?,
        Audit::Fits { events: 0 }
    );
    Ok(())
}

/// A mark and then a move of no steps: the machine stands behind them, but the line does not settle. So the mark may be lost at
/// a reset, and a list may be refused behind it as if the machine ran.
#[test]
fn moves_of_no_steps_settle_nothing(rt: HostRuntime) -> Result<(), Fail> {
    let console = b"\r\nGrbl 1.1h ['$' for help]\r\nok\r\n\r\nGrbl 1.1h ['$' for help]\r\nok\r\n";
    let job = b"G4P1G0X0\n\x18";
    assert_eq!(rt;
        found(&rt, job, console, b"Z 1\nE\n")?,
        Audit::Fits { events: 0 }
    );
    let job = b"G0X0\nG4P1\n\x18";
    let console =
        b"\r\nGrbl 1.1h ['$' for help]\r\nok\r\nok\r\n\r\nGrbl 1.1h ['$' for help]\r\nok\r\n";
    assert_eq!(rt;
        found(&rt, job, console, b"Z 2\nE\n")?,
        Audit::Misfit { at: 0 }
    );
    let steps = b"s 1 1 0 320000\nX+\nD 1000\nE\n";
    let console = b"\r\nGrbl 1.1h ['$' for help]\r\nok\r\nok\r\nerror:8\r\n";
    let job = b"G0X0.004\nG4P1X0.004\n$$\n";
    assert_eq!(rt; found(&rt, job, console, steps)?, Audit::Fits { events: 1 });
    let job = b"G0X0.004\nG4P1\n$$\n";
    assert_eq!(rt;
        found(&rt, job, console, steps)?,
        Audit::BadReplies { line: 3 }
    );
    Ok(())
}

#[test]
fn words_are_three(rt: HostRuntime) -> Result<(), Fail> {
    let mut job = MemSource::new(b"", 1, &[]);
    let mut console = MemSource::new(BANNER.as_bytes(), 1, &[]);
    let mut steps = MemSource::new(b"E\n", 1, &[]);
    let mut out = MemSink::new(rt.alloc(), 200, &[])?;
    let answer = run_audit(&["a"], &mut job, &mut console, &mut steps, &mut out);
    assert_eq!(rt; answer, Audit::Usage);
    assert!(rt; out.held() == b"usage\n".as_slice());
    Ok(())
}
