//! The law that in a paced run the lines of the job come before the motion.
#![tactic(auto)]

ghost use Rattle.std.specs.Prelude.{◌≡◌, ◌≢◌, ℕ, true, List, ◌∷◌};
ghost use Rattle.outside.specs.declared.Actor.{Actor as AnyActor};
ghost use Rattle.outside.specs.declared.Actor.TheVariants.{Board, Pulse};
ghost use Rattle.outside.specs.declared.Turn.{Turn as AnyTurn};
ghost use Rattle.outside.specs.declared.Turn.TheVariants.{Did};
ghost use Rattle.step_line.specs.Logs.{NewestFirst};
ghost use Rattle.board_journal.specs.Openings.{Opening};
ghost use Rattle.board_journal.specs.Steps.{Journal};
ghost use Rattle.board_journal.specs.Steps.Step.{turned};
ghost use Rattle.board_rules.specs.Conduct.{Conducted};
ghost use Rattle.board_epochs.specs.Epochs.{Closed};
ghost use Rattle.board_epochs.specs.Epochs.Epochs.{goes};
ghost use Rattle.actor_turns.specs.Worlds.{Seen, History};
ghost use Rattle.actor_turns.specs.Pacing.{first_pace, pace_after, PacedTurns};
ghost use Rattle.paced_law.specs.Lines.{IsBehindLines};

use actor_turns::paced_motion_waits;
use board_rules::boards_keep_the_pulse_busy;

/// In a paced run the lines of the job come before the motion: whenever it is the pulse's turn, the board's last turn did not answer
/// Did. A move that is next is in the plan by then, unless that is full; and while lines go on that the job has sent, five pieces stand
/// on the ring, so that no segment is traced beyond these. Once the pulse has traced one it is the board's turn again.
pub fn lines_come_before_the_motion()
    ensures behind { (N : ℕ) (schedule : List AnyActor) (pace : _) (w w' : Seen N) (hist next : History) → PacedTurns schedule first_pace pace w w' hist next → pace.next ≡ Pulse
        → (first : Opening) (es : NewestFirst Closed) (t : AnyTurn) (h : Journal) → next.board ≡ goes es (turned t ∷ h) → Conducted first (turned t ∷ h) → (t ≢ Did) × IsBehindLines first h }
    ensures piece_by_piece { (pace : _) → pace.next ≡ Pulse → (pace_after Did true pace).next ≡ Board }
{
    paced_motion_waits();
    boards_keep_the_pulse_busy();
}
