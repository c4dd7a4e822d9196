//! What the two ends do.
ghost use Rattle.std.specs.Prelude.{◌≡◌, ℕ, ◌+◌, ◌^◌, ◌<◌, ◌≤◌, Bool, List, [], ◌∷◌, Some, None, IfOk};
ghost use Rattle.realtime_flags.specs.declared.words.Flag.{Flag};
ghost use Rattle.realtime_flags.specs.Bytes.{flag_of_byte, raised_by};
ghost use Rattle.realtime_flags.specs.Bits.{report_flag, raises_of, takes_with, IsBalanced, IsNamed};
ghost use Rattle.realtime_flags.specs.Ends.{raised_in, taken_in, raises_by, takes_by};
ghost use Rattle.realtime_flags.specs.declared.words.Take.TheVariants as takes;

use crate::ends::{Raiser, Taker};
use crate::plays::{Balancing, Raising, Sides, TakingExec, TakingOverride};
use crate::words::{Flag, FlagTable, Place, Raised, flag_of_byte};
use atomic_table::Table;
use bitflags::Flags;
use code_table::{Exec, Ovr};
use outside::OutOfMemory;
use std::alloc::Global;
use std::sync::Arc;

/// Two words with every flag down, and their two ends.
pub fn flag_table(alloc: Global) -> Result<(Raiser, Taker), OutOfMemory>
    ensures table { IfOk result (λ r. raised_in r.0 ≡ taken_in r.1) }
    ensures fresh { IfOk result (λ r. (raises_by r.0 ≡ []) × (takes_by r.1 ≡ [])) }
{
    let (table, mut seat): (FlagTable, Place) = Table::of_words(alloc, &[0, 0], &())?;
    let far = table.shared.split_seat::<Sides>(&mut seat);
    let table = Arc::new(alloc, table)?;
    let other = Arc::try_clone(&table)?;
    Ok((
        Raiser { table, seat },
        Taker {
            table: other,
            seat: far,
        },
    ))
}

impl Raiser {
    /// Raises the flag of a byte, by one atomic step on its word, and answers which word that was. A byte
    /// below 0x80 with no flag is Plain, another with none is Ignored: then nothing is done.
    #[inline]
    pub fn raise(&mut self, byte: u8) -> Raised
        requires few { flag_of_byte byte ≡ Some report_flag → raises_of report_flag (raises_by self.old) < 2 ^ 31 }
        ensures answer { result ≡ raised_by byte }
        ensures raised { (f : Flag) → flag_of_byte byte ≡ Some f → (found_down : Bool) × (raises_by self.new ≡ record { flag = f; down = found_down } ∷ raises_by self.old) }
        ensures nothing { flag_of_byte byte ≡ None → raises_by self.new ≡ raises_by self.old }
        ensures table { raised_in self.new ≡ raised_in self.old }
    {
        let Some(flag) = flag_of_byte(byte) else {
            return if byte < 0x80 {
                Raised::Plain
            } else {
                Raised::Ignored
            };
        };
        self.raise_flag(flag);
        match flag {
            Flag::Exec(_) => Raised::Exec,
            Flag::Override(_) => Raised::Override,
        }
    }

    /// Raises a flag, by one atomic step.
    #[inline]
    fn raise_flag(&mut self, flag: Flag)
        requires named { IsNamed flag }
        requires few { flag ≡ report_flag → raises_of report_flag (raises_by self.old) < 2 ^ 31 }
        ensures raised { (found_down : Bool) × (raises_by self.new ≡ record { flag = flag; down = found_down } ∷ raises_by self.old) }
        ensures table { raised_in self.new ≡ raised_in self.old }
    {
        self.table
            .shared
            .fetch_or::<Raising>(&mut self.seat, flag.word(), 1 << flag.place());
    }
}

impl Taker {
    /// Takes the word of requests, by one atomic step that clears it, and answers the flags that stood.
    #[inline]
    pub fn take_exec(&mut self) -> Exec
        ensures takes { takes_by self.new ≡ takes.Exec result ∷ takes_by self.old }
        ensures named { result.0 < 2 ^ 5 }
        ensures few { takes_with report_flag (takes_by self.new) ≤ 2 ^ 31 }
        ensures table { taken_in self.new ≡ taken_in self.old }
    {
        let bits = self
            .table
            .shared
            .fetch_and::<TakingExec>(&mut self.seat, 0, 0);
        Exec::from_bits_retain(bits as u8)
    }

    /// Takes the word of changes of overrides, by one atomic step that clears it, and answers the flags that
    /// stood.
    #[inline]
    pub fn take_override(&mut self) -> Ovr
        ensures takes { takes_by self.new ≡ takes.Override result ∷ takes_by self.old }
        ensures named { result.0 < 2 ^ 13 }
        ensures table { taken_in self.new ≡ taken_in self.old }
    {
        let bits = self
            .table
            .shared
            .fetch_and::<TakingOverride>(&mut self.seat, 1, 0);
        Ovr::from_bits_retain(bits as u16)
    }
}

/// Ends the words of these two ends of one table. For each flag, the raises that found it down were as many
/// as the takes that had it, and one more where it was up.
pub fn join_flags(raiser: Raiser, taker: Taker)
    requires { raised_in raiser ≡ taken_in taker }
    ensures { (words : List ℕ) × IsBalanced words (raises_by raiser) (takes_by taker) }
{
    let Raiser { table, mut seat } = raiser;
    let Taker {
        table: _,
        seat: far,
    } = taker;
    let shared = &table.shared;
    shared.join_seat::<Sides>(&mut seat, far);
    shared.load::<Balancing>(&mut seat, 0);
}
