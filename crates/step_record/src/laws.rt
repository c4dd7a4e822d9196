//! What holds of the lines of all records, and of what a recorder has written.

ghost use Rattle.std.specs.Prelude.{◌≡◌, ◌≢◌, ℕ, ◌<◌, ◌≤◌, ◌++◌, List, [], ◌∷◌, length, codes, pos, All, true, false};
ghost use Rattle.std.specs.List.{flat_map};
ghost use Rattle.step_line.specs.declared.Bits.{Bits};
ghost use Rattle.step_line.specs.declared.Record.{Record};
ghost use Rattle.step_line.specs.declared.Record.TheVariants as records;
ghost use Rattle.step_line.specs.Events.{IsEvent};
ghost use Rattle.step_line.specs.Records.{IsRecord};
ghost use Rattle.step_record.specs.Texts.{event_text, record_text};
ghost use Rattle.step_record.specs.declared.forms.Line.{Line};
ghost use Rattle.step_record.specs.declared.forms.Form.TheVariants.{One, Two};
ghost use Rattle.step_record.specs.Forms.{IsLine, line_text, lines_of, records_of, text_in};
ghost use Rattle.step_record.specs.Taking.{Log};
ghost use Rattle.step_record.specs.Recording.{Recording, Rests, RecorderFits, HasFront, HasAll, HasFailed, waits};
ghost use Rattle.step_record.specs.declared.forms.Form.{Form};
ghost use Rattle.outside.specs.Causes.{SinkState};

use crate::{LONGEST_EVENT, LONGEST_LINE};

/// At most one record's line begins a text, and a text is that of at most one list of records.
pub fn one_reading()
    ensures not_empty { (r : Record) → IsRecord r → 0 < length (record_text r) }
    ensures first { (r s : Record) (x y : List ℕ) → IsRecord r → IsRecord s → record_text r ++ x ≡ record_text s ++ y → (r ≡ s) × (x ≡ y) }
    ensures whole { (rs ss : List Record) → All IsRecord rs → All IsRecord ss → flat_map record_text rs ≡ flat_map record_text ss → rs ≡ ss }
{}

/// What a recorder says of its sink, by the records that it took: the sink has a front of their text in its form, and
/// the rest waits; once the recorder is done it has all of it, and the line of the end is the last. Its count of faults is then as
/// before. Where the sink has failed it has a front of the text, and its count of faults rose.
pub fn recorded()
    ensures front { (form : Form) (v : Recording) (log : Log) (before now : SinkState) → RecorderFits form v log before now → v.writer.failed ≡ false → HasFront form log (waits v) before now }
    ensures all { (form : Form) (v : Recording) (log : Log) (before now : SinkState) → RecorderFits form v log before now → Rests v → v.writer.failed ≡ false → HasAll form log before now }
    ensures failed { (form : Form) (v : Recording) (log : Log) (before now : SinkState) → RecorderFits form v log before now → v.writer.failed ≡ true → HasFailed form log before now }
{}

/// No line of a record is longer than `LONGEST_LINE`, and no event's than `LONGEST_EVENT`; and some are as long.
#[tactic(auto, using(crate::proofs::Longest::line_within, crate::proofs::Longest::event_within))]
pub fn longest_lines()
    ensures line { (r : Record) → IsRecord r → length (record_text r) ≤ LONGEST_LINE }
    ensures event { (b : Bits) → IsEvent b → length (event_text b) ≤ LONGEST_EVENT }
    ensures line_reached { (r : Record) × IsRecord r × (length (record_text r) ≡ LONGEST_LINE) }
    ensures event_reached { (b : Bits) × IsEvent b × (length (event_text b) ≡ LONGEST_EVENT) }
{}

/// At most one line begins a text at a place. The lines of records in form 2 are lines wherever they stand, and stand for these
/// records, one after the other; so a text of form 2 is that of at most one list of records, and is no text of form 1.
pub fn one_reading_in_form_two()
    ensures first { (l m : Line) (at : ℕ) (x y : List ℕ) → IsLine l at → IsLine m at → line_text l ++ x ≡ line_text m ++ y → (l ≡ m) × (x ≡ y) }
    ensures lines { (rs : List Record) (at : ℕ) → All IsRecord rs → All (λ l. IsLine l at) (lines_of rs) }
    ensures records { (rs : List Record) → flat_map records_of (lines_of rs) ≡ rs }
    ensures whole { (rs ss : List Record) → All IsRecord rs → All IsRecord ss → text_in Two rs ≡ text_in Two ss → rs ≡ ss }
    ensures apart { (rs ss : List Record) → All IsRecord rs → text_in One rs ≢ text_in Two ss }
{}

/// The text of a head, three equal events and the end, in form 2.
pub fn worked_text()
    ensures { let x = records.Event (record { x = pos 1; y = pos 0; z = pos 0 }) in
        text_in Two (records.Head (record { line = 1; n = 3; w = 0; cycles = 5 }) ∷ x ∷ x ∷ x ∷ records.End ∷ []) ≡ codes "V 2\ns 1 3 0 5\nR 3 X+\nE\n" }
{}
