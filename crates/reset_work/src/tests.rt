//! A whole reset, turn by turn, over a port that finds nothing at every other look.

ghost use Rattle.std.specs.Prelude.{◌≡◌};
ghost use Rattle.reset_work.specs.Tapes.{IsTape, IsWorkedOn};

use crate::{Counts, ResetWork};
use bitflags::Flags as _;
use board_journal::BoardPort;
use code_table::{Exec, Ovr};
use outside::{On, Turn};
use run_rules::State;
use serial_ring::ByteIn;
use status_report::Reply;
use step_line::{Piece, tick_count};

/// A port with three bytes, a mark behind them, and a pulse that has done all but the last piece.
#[derive(Drop)]
struct Tape {
    /// How many bytes are left.
    left: u32,
    /// How many ticks are published, and done.
    ticks: u64,
    done: u64,
    /// The next look finds nothing.
    late: bool,
}

impl Tape {
    /// Whether this look finds nothing; the next one does then, and the other way round.
    fn is_late(&mut self) -> bool
        ensures { self.new ≡ record self.old { late = self.new.late } }
    {
        let late = self.late;
        self.late = !late;
        late
    }
}

impl BoardPort for Tape {
    ghost Rest = { Unit {0} };

    ghost room = { 128 };

    ghost stands = { λ tape rest l. IsTape 3 tape.left tape.ticks tape.done l };

    fn byte(&mut self) -> ByteIn {
        if self.left == 0 {
            return ByteIn::Empty;
        }
        self.left -= 1;
        if self.left == 1 {
            return ByteIn::Byte(b'\n');
        }
        ByteIn::Byte(b'X')
    }

    fn free(&mut self) -> u8 {
        0
    }

    fn marked(&mut self) -> (u32, u32) {
        if self.is_late() {
            return (0, 0);
        }
        (1, 3)
    }

    fn answer(&mut self, _r: Reply) -> Result<(), Reply> {
        Ok(())
    }

    fn take_exec(&mut self) -> Exec {
        Exec::from_bits_retain(0)
    }

    fn take_override(&mut self) -> Ovr {
        Ovr::from_bits_retain(0)
    }

    fn publish(&mut self, p: Piece) -> Result<(), Piece> {
        self.done = self.ticks;
        self.ticks += tick_count(&p) as u64;
        Ok(())
    }

    fn done(&mut self) -> u64 {
        if self.is_late() {
            return self.done;
        }
        self.done = self.ticks;
        self.done
    }

    fn stop(&mut self) {}

    fn halted(&mut self) -> Option<u64> {
        if self.is_late() {
            return None;
        }
        self.ticks = self.done;
        Some(self.done)
    }
}

/// A reset that is to be worked behind an epoch in which the Banner was told, and no line was begun.
fn begun() -> (Tape, ResetWork)
    ensures { IsWorkedOn result.0.left result.0.ticks result.0.done result.1 }
{
    let _state = State::opening();
    let tape = Tape {
        left: 3,
        ticks: 0,
        done: 0,
        late: true,
    };
    (tape, Counts::new().reset(0, 0))
}

/// Whether the work is not over, and its next turn answers this.
fn answers(work: &mut ResetWork, tape: &mut Tape, want: Turn) -> bool
    requires { IsWorkedOn tape.old.left tape.old.ticks tape.old.done work.old }
    ensures { IsWorkedOn tape.new.left tape.new.ticks tape.new.done work.new }
{
    if work.is_worked() {
        return false;
    }
    work.turn(tape) == want
}

const TURNS: &[Turn] = &[
    // The word of overrides is dropped.
    Turn::Did,
    // The mark is not new, and both words are dropped.
    Turn::Wait(On::Reset),
    Turn::Did,
    Turn::Did,
    // It is; and the pulse is told to stop.
    Turn::Did,
    Turn::Did,
    Turn::Wait(On::Halt),
    Turn::Did,
    Turn::Did,
    // It has halted; three bytes are dropped, and the mark is published.
    Turn::Did,
    Turn::Did,
    Turn::Did,
    Turn::Did,
    Turn::Did,
    Turn::Wait(On::Motion),
    Turn::Did,
    Turn::Did,
    // The mark is done.
    Turn::Did,
];

#[test]
fn a_reset_is_worked_turn_by_turn(rt: HostRuntime) {
    let (mut tape, mut work) = begun();
    for &turn in TURNS {
        assert!(rt; answers(&mut work, &mut tape, turn));
    }
    assert!(rt; work.is_worked());
    assert_eq!(rt; work.number(), 0);
    assert_eq!(rt; work.mark(), 1);
    assert_eq!(rt; work.taken(), 3);
    assert_eq!(rt; work.dropped(), 1);
    assert_eq!(rt; work.halted(), 0);
    assert_eq!(rt; work.ticks(), 1);
    assert_eq!(rt;
        Counts::behind(&work),
        Counts {
            ticks: 1,
            bytes: 3,
            mark: 1
        }
    );
    assert_eq!(rt; Counts::behind(&work).ticks(), 1);
}
