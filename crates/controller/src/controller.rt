//! The board over its run.

ghost use Rattle.std.specs.Prelude.{◌≡◌, ◌↔◌, ◌<◌, ◌≤◌, []};
ghost use Rattle.outside.specs.declared.Turn.TheVariants.{Done};
ghost use Rattle.run_rules.specs.declared.State.{State};
ghost use Rattle.board_epochs.specs.Epochs.{Epochs, log_of};
ghost use Rattle.board_epochs.specs.Epochs.Epochs.{goes};
ghost use Rattle.controller.specs.Boards.{BoardFits, BoardRests, BoardTurned, IsBetween, number_in};

use board_journal::BoardPort;
use board_turns::Board;
use outside::Turn;
use reset_work::{Counts, ResetWork};

/// Carries out a job: takes its bytes, begins its lines one at a time, does what they ask for, and answers them. A reset ends an
/// epoch of the run, and the next one begins behind it.
#[derive(Drop)]
pub struct Controller<const N: usize> {
    pub(crate) board: Board<N>,
    /// The reset that is being worked behind the open epoch.
    pub(crate) reset: Option<ResetWork>,
    /// What the closed epochs have made.
    pub(crate) counts: Counts,
}

impl<const N: usize> Controller<N> {
    /// A board that has done nothing, with a plan of at most N - 1 blocks, for N from 2 to 64. The banner is to be told.
    pub fn new() -> Controller<N>
        requires { (2 ≤ N) × (N ≤ 64) }
        ensures { BoardFits result (goes [] []) }
    {
        Controller {
            board: Board::new(),
            reset: None,
            counts: Counts::new(),
        }
    }

    /// Takes a turn: behind a line feed and behind each wait it takes a word of flags, and does what that asks for;
    /// else it publishes a piece where one is in hand or a segment is due, and no word waits to be obeyed; and else, or
    /// where there was no room for it, does the next thing: tells a status report that was asked for, and then does what
    /// else its word asks for; tells a reply, adds moves, makes a mark or the end, begins a line, or takes a byte. At most
    /// one thing is published.
    /// Where the rules allow nothing, it answers what it waits for: for a machine that is held, its resume. It is done
    /// once Bye was told; from then on nothing changes. A turn that answers Did and moves nothing lowers the board's
    /// number, which is less than 64.
    ///
    /// Once a word that asks for a reset was taken, no line is begun. A report that is owed and the replies of the line that
    /// was begun are told still; then a turn does one step of the reset's work. It waits for the host's mark, for the pulse's
    /// halt, and for the mark of the reset. Behind the work the next epoch begins: what was planned, in hand or asked for
    /// is dropped, and the board greets anew.
    ///
    /// The rules of the board are those of its epochs: whatever it has done before, it goes on as they allow.
    pub fn turn<P: BoardPort>(&mut self, port: &mut P) -> Turn
        requires stands { (rest : P.Rest) × (e : Epochs) × P.stands port.old rest (log_of e) × BoardFits self.old e × IsBetween e }
        ensures goes_on { (rest : P.Rest) (e : Epochs) → P.stands port.old rest (log_of e) → BoardFits self.old e → IsBetween e
            → (next : Epochs) × P.stands port.new rest (log_of next) × BoardFits self.new next × IsBetween next × BoardTurned result self.old self.new e next }
        ensures done { (result ≡ Done) ↔ BoardRests self.old }
        ensures still { BoardRests self.old → (self.new ≡ self.old) × (port.new ≡ port.old) }
        ensures few { (state : State) (e : Epochs) → BoardFits self.old e → number_in state self.old e < 64 }
    {
        match &self.reset {
            None => self.turn_epoch(port),
            Some(_) => self.work_on(port),
        }
    }
}
