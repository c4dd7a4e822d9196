//! Worked rows of the replies.

ghost use Rattle.modal_state.specs.Modes.{IsWithin};
ghost use Rattle.status_report.specs.Replies.{IsReply};
ghost use Rattle.status_report.specs.Reports.{farthest_told};

use modal_state::{Modal, MotionMode, Parser, SpindleMode};
use overrides::Overrides;
use settings::Settings;
use status_report::{
    Message, Modes, OFFSET_REPLIES, Reply, Report, SETTING_REPLIES, State, offset_reply, put_reply,
    setting_reply,
};
use std::process::Abort;
use units::{Decimal, Nm3, Text};

/// Checks the text of a reply that is put over another.
fn assert_puts(rt: &impl Abort, reply: Reply, text: &str)
    requires { IsReply reply }
{
    let mut out = Text::new();
    out.push(b'?');
    put_reply(&reply, &mut out);
    assert!(rt; out.as_slice() == text.as_bytes(), "{text}");
}

const MESSAGES: &[(Message, &str)] = &[
    (Message::Unlocked, "[MSG:Caution: Unlocked]\r\n"),
    (Message::ProgramEnd, "[MSG:Pgm End]\r\n"),
    (Message::ResetToContinue, "[MSG:Reset to continue]\r\n"),
    (Message::Locked, "[MSG:'$H'|'$X' to unlock]\r\n"),
];

#[test]
fn each_answer_and_message_has_its_text(rt: HostRuntime) {
    assert_puts(&rt, Reply::Banner, "\r\nGrbl 1.1h ['$' for help]\r\n");
    assert_puts(&rt, Reply::Ok, "ok\r\n");
    assert_puts(&rt, Reply::Error(20), "error:20\r\n");
    assert_puts(&rt, Reply::Alarm(2), "ALARM:2\r\n");
    for (message, text) in MESSAGES {
        assert_puts(&rt, Reply::Message(*message), text);
    }
    assert_puts(&rt, Reply::Bye, "");
}

/// The settings as they are listed, with a junction deviation of half a µm.
const SETTINGS: &[&str] = &[
    "$10=1\r\n",
    "$11=0.500\r\n",
    "$20=0\r\n",
    "$100=250.000\r\n",
    "$101=250.000\r\n",
    "$102=250.000\r\n",
    "$110=500.000\r\n",
    "$111=500.000\r\n",
    "$112=500.000\r\n",
    "$120=10.000\r\n",
    "$121=10.000\r\n",
    "$122=10.000\r\n",
    "$130=200.000\r\n",
    "$131=200.000\r\n",
    "$132=200.000\r\n",
];

#[test]
fn settings_are_listed_by_number(rt: HostRuntime) {
    let mut settings = Settings::generic();
    assert!(rt; settings.set(11, Decimal { micro: 500_000 }).is_ok());
    for (place, text) in SETTINGS.iter().enumerate() {
        assert!(rt; place < SETTING_REPLIES);
        assert_puts(&rt, setting_reply(&settings, place), text);
    }
}

/// The offsets as they are listed.
const OFFSETS: &[&str] = &[
    "[G54:0.000,0.000,0.000]\r\n",
    "[G55:0.000,0.001,0.000]\r\n",
    "[G56:0.000,0.000,0.000]\r\n",
    "[G57:0.000,0.000,0.000]\r\n",
    "[G58:0.000,0.000,0.000]\r\n",
    "[G59:0.000,0.000,0.000]\r\n",
    "[G28:0.000,0.000,0.000]\r\n",
    "[G30:0.000,0.000,-0.002]\r\n",
    "[G92:-5.000,0.000,0.000]\r\n",
    "[TLO:0.000]\r\n",
    "[PRB:0.000,0.000,0.000:0]\r\n",
];

#[test]
fn offsets_are_listed_in_mm(rt: HostRuntime) {
    let mut offsets = Parser::opening().offsets;
    offsets.g92.x = -5_000_000;
    offsets.s2.y = 1_499;
    offsets.home30.z = -1_500;
    for (place, text) in OFFSETS.iter().enumerate() {
        assert!(rt; place < OFFSET_REPLIES);
        assert_puts(&rt, offset_reply(&offsets, place), text);
    }
}

/// A feed, and the modes that have it.
const FEEDS: &[(i64, &str)] = &[
    (
        499_999,
        "[GC:G80 G59 G19 G20 G91 G94 M4 M8 T255 F0 S999999999]\r\n",
    ),
    (
        500_000,
        "[GC:G80 G59 G19 G20 G91 G94 M4 M8 T255 F1 S999999999]\r\n",
    ),
    (
        30_000_000_000_000_000,
        "[GC:G80 G59 G19 G20 G91 G94 M4 M8 T255 F30000000000 S999999999]\r\n",
    ),
];

#[test]
fn modes_are_told_in_one_line(rt: HostRuntime) {
    let opening = Modes::of(&Parser::opening());
    assert_puts(
        &rt,
        Reply::Modes(opening),
        "[GC:G0 G54 G17 G21 G90 G94 M5 M9 T0 F0 S0]\r\n",
    );
    let modal = Modal {
        motion: MotionMode::G80,
        plane: 19,
        inch: true,
        relative: true,
        system: 6,
        spindle: SpindleMode::Ccw,
        flood: true,
    };
    for (feed, text) in FEEDS {
        let feed = *feed;
        assert!(rt; 0 <= feed && feed <= 30_000_000_000_000_000);
        assert_puts(
            &rt,
            Reply::Modes(Modes {
                modal,
                tool: 255,
                feed,
                rpm: 999_999_999,
            }),
            text,
        );
    }
}

#[test]
fn the_longest_place_fits(rt: HostRuntime) {
    let at = Nm3 {
        x: i64::MIN,
        y: i64::MIN,
        z: i64::MAX,
    };
    assert_puts(
        &rt,
        Reply::Offset { row: 5, at },
        "[G59:-9223372036854.776,-9223372036854.776,9223372036854.776]\r\n",
    );
    assert_puts(
        &rt,
        Reply::Setting {
            n: u16::MAX,
            value: i64::MAX as u64,
        },
        "$65535=9223372036854775.807\r\n",
    );
}

/// A report of a machine that is held, with its position and the offset of the work's zero.
fn held(machine: bool, buffer: Option<(u8, u8)>, at: Nm3) -> Reply
    requires { IsWithin farthest_told at }
    ensures { IsReply result }
{
    Reply::Report(Report {
        state: State::Hold0,
        machine,
        at,
        buffer,
        f: 0,
        s: 900,
        wco: Nm3 {
            x: 10_000,
            y: 0,
            z: 0,
        },
        ov: Overrides {
            feed: 110,
            rapid: 50,
            spindle: 90,
        },
    })
}

#[test]
fn reports_show_the_place_of_the_machine_or_of_the_work(rt: HostRuntime) {
    let at = Nm3 {
        x: -1_500,
        y: 0,
        z: 2_004,
    };
    assert_puts(
        &rt,
        held(true, Some((14, 100)), at),
        "<Hold:0|MPos:-1.500,0.000,2.004|Bf:14,100|FS:0,900|WCO:10.000,0.000,0.000|Ov:110,50,90>\r\n",
    );
    assert_puts(
        &rt,
        held(false, None, at),
        "<Hold:0|WPos:-11.500,0.000,2.004|FS:0,900|WCO:10.000,0.000,0.000|Ov:110,50,90>\r\n",
    );
    assert_puts(
        &rt,
        held(
            false,
            None,
            Nm3 {
                x: 10_001,
                y: -1,
                z: -999,
            },
        ),
        "<Hold:0|WPos:0.001,-0.001,-0.999|FS:0,900|WCO:10.000,0.000,0.000|Ov:110,50,90>\r\n",
    );
}

#[test]
fn the_longest_report_fits(rt: HostRuntime) {
    let far = Nm3 {
        x: -1_000_000_000_000,
        y: -1_000_000_000_000,
        z: -1_000_000_000_000,
    };
    let mut out = Text::new();
    put_reply(
        &Reply::Report(Report {
            state: State::Hold1,
            machine: true,
            at: far,
            buffer: Some((255, 255)),
            f: u64::MAX,
            s: u64::MAX,
            wco: far,
            ov: Overrides {
                feed: 200,
                rapid: 100,
                spindle: 200,
            },
        }),
        &mut out,
    );
    assert_eq!(rt; out.len(), 186);
}
