//! What there is to do of lines.

ghost use Rattle.std.specs.Prelude.{◌≡◌, ◌+◌, ◌<◌, ◌^◌};

use arrayvec::ArrayVec;
use line_interpreter::{Interpreter, KeptLine, Todo};
use run_rules::Machine;
use status_report::Reply;
use units::{Move, Rate, Steps3};

/// A letter for what there is to do.
fn letter(interpreter: &Interpreter) -> u8 {
    match interpreter.todo() {
        Todo::Nothing => b'.',
        Todo::Rest => b'r',
        Todo::Mark(_) => b'm',
        Todo::Move => b'v',
        Todo::Tell => match interpreter.reply() {
            Reply::Ok => b'k',
            Reply::Error(_) => b'e',
            _ => b't',
        },
        Todo::Pause => b'p',
        Todo::Normal => b'n',
        Todo::Finish => b'f',
        Todo::Halt => b'h',
    }
}

/// What there is to do, a letter each, until nothing is left.
fn work(interpreter: &mut Interpreter) -> ArrayVec<u8, 32>
    ensures { interpreter.new.number ≡ interpreter.old.number }
{
    let mut letters = ArrayVec::new();
    for _ in 0..32_usize {
        if let Todo::Nothing = interpreter.todo() {
            return letters;
        }
        letters.push(letter(interpreter));
        interpreter.done();
    }
    letters
}

/// What there is to do of a line, where the machine is found so.
fn judged(interpreter: &mut Interpreter, text: &[u8], machine: Machine) -> ArrayVec<u8, 32>
    requires { interpreter.old.number + 1 < 2 ^ 32 }
    ensures { interpreter.new.number ≡ interpreter.old.number + 1 }
{
    let mut line = KeptLine::new();
    for byte in text {
        line.push(*byte);
    }
    interpreter.judge(&line, machine);
    work(interpreter)
}

/// A line, and what there is to do of it where the machine stands.
const TASKS: &[(&[u8], &[u8])] = &[
    (b"", b"k"),
    (b"G0X0", b"k"),
    (b"G0X1", b"vk"),
    (b"G28X2", b"vvk"),
    (b"G1X1", b"e"),
    (b"M3S1000", b"rmrk"),
    (b"M8G4P1", b"rmrrmrk"),
    (b"M0", b"rprk"),
    (b"$X", b"k"),
    (b"$G", b"tk"),
    (b"$$", b"tttttttttttttttk"),
    (b"$#", b"tttttttttttk"),
    (b"$100=80", b"k"),
    (b"$100=0", b"e"),
    (b"M30", b"rmmrntk"),
    (b"M2", b"rrntk"),
    (b"$J=G91X1F100", b"vk"),
    (b"$J=G91X0F100", b"k"),
    (b"$J=X1", b"e"),
    (b"$J", b"e"),
    (b"$20=1", b"k"),
    (b"G0X1", b"htt"),
    (b"G1X1", b"e"),
    (b"$J=X1F100", b"e"),
];

#[test]
fn each_line_is_done_task_by_task(rt: HostRuntime) {
    let mut interpreter = Interpreter::new();
    assert_eq!(rt; work(&mut interpreter).as_slice(), b"t".as_slice());
    for (text, letters) in TASKS {
        assert_eq!(rt;
            judged(&mut interpreter, text, Machine::Stands).as_slice(),
            *letters
        );
    }
    assert_eq!(rt;
        judged(&mut interpreter, &[b'N'; 80], Machine::Stands).as_slice(),
        b"e".as_slice()
    );
    interpreter.close();
    assert_eq!(rt; work(&mut interpreter).as_slice(), b"ft".as_slice());
}

/// A line, and what there is to do of it where the machine stands, runs and jogs.
const MOVING: &[(&[u8], &[u8], &[u8], &[u8])] = &[
    (b"$J=G91X1F100", b"vk", b"e", b"vk"),
    (b"$$", b"tttttttttttttttk", b"e", b"tttttttttttttttk"),
    (b"$#", b"tttttttttttk", b"e", b"e"),
    (b"$100=80", b"k", b"e", b"e"),
    (b"G91", b"k", b"k", b"e"),
    (b"", b"k", b"k", b"k"),
];

#[test]
fn lines_are_refused_in_motion(rt: HostRuntime) {
    let mut interpreter = Interpreter::new();
    interpreter.done();
    for (text, stands, runs, jogs) in MOVING {
        assert_eq!(rt;
            judged(&mut interpreter, text, Machine::Stands).as_slice(),
            *stands
        );
        assert_eq!(rt;
            judged(&mut interpreter, text, Machine::Runs).as_slice(),
            *runs
        );
        assert_eq!(rt;
            judged(&mut interpreter, text, Machine::Jogs).as_slice(),
            *jogs
        );
    }
}

/// The number that a line is refused with, where the machine is found so; 0 where it is not.
fn refusal(interpreter: &mut Interpreter, text: &[u8], machine: Machine) -> u8
    requires { interpreter.old.number + 1 < 2 ^ 32 }
    ensures { interpreter.new.number ≡ interpreter.old.number + 1 }
{
    let mut line = KeptLine::new();
    for byte in text {
        line.push(*byte);
    }
    interpreter.judge(&line, machine);
    if interpreter.todo() != Todo::Tell {
        return 0;
    }
    match interpreter.reply() {
        Reply::Error(number) => number,
        _ => 0,
    }
}

/// A line, how the machine is found, and the number of the error, or 0.
const REFUSED: &[(&[u8], Machine, u8)] = &[
    (b"$J=X1", Machine::Stands, 22),
    (b"$J=G1X1F10", Machine::Stands, 16),
    (b"$J=F10", Machine::Stands, 26),
    (b"$J", Machine::Jogs, 3),
    (b"$J", Machine::Runs, 8),
    (b"$J=X1F10", Machine::Runs, 8),
    (b"$J=X1F10", Machine::Jogs, 0),
    (b"G1", Machine::Jogs, 9),
    (b"%", Machine::Jogs, 9),
    (b"$#", Machine::Jogs, 8),
];

#[test]
fn jogs_and_lines_in_a_jog_are_refused_by_number(rt: HostRuntime) {
    let mut interpreter = Interpreter::new();
    for (text, machine, number) in REFUSED {
        assert_eq!(rt; refusal(&mut interpreter, text, *machine), *number);
    }
}

/// The move of a line that asks for one first.
fn first_move(interpreter: &mut Interpreter, text: &[u8]) -> Option<(Move, Rate)>
    requires { interpreter.old.number + 1 < 2 ^ 32 }
    ensures { interpreter.new.number ≡ interpreter.old.number + 1 }
{
    let mut line = KeptLine::new();
    for byte in text {
        line.push(*byte);
    }
    interpreter.judge(&line, Machine::Stands);
    if interpreter.todo() != Todo::Move {
        return None;
    }
    let planned = interpreter.planned_move();
    Some((planned.mv, planned.rate))
}

#[test]
fn moves_begin_where_a_jog_ends(rt: HostRuntime) {
    let zero = Steps3 { x: 0, y: 0, z: 0 };
    let end = Steps3 { x: 250, y: 0, z: 0 };
    let mut interpreter = Interpreter::new();
    assert_eq!(rt;
        first_move(&mut interpreter, b"$J=G91X1F100"),
        Some((
            Move {
                from: zero,
                to: end,
            },
            Rate::Jog(100_000_000)
        ))
    );
    // The jog's distance mode was its own.
    assert_eq!(rt;
        first_move(&mut interpreter, b"G0X0"),
        Some((
            Move {
                from: end,
                to: zero,
            },
            Rate::Rapid
        ))
    );
}
