//! The command line: what the words ask for.
#![tactic(auto)]

ghost use Rattle.std.specs.Prelude.{◌≡◌, ◌≢◌, ◌↔◌, true, false, List, [], ◌∷◌, map, codes, IsOk, IfOk};
ghost use Rattle.clap.specs.Walk.{Text, rows_of, rule_of};
ghost use Rattle.clap.specs.Matches.{found_of};
ghost use Rattle.clap.specs.Faults.{fault_of};
ghost use Rattle.clap.specs.Simple.{app_of, subcommand_of, subcommand_rows_of};
ghost use Rattle.clap.specs.declared.builder.command.Command.TheViews.{out-Command};
ghost use Rattle.clap.specs.Values.{kind_of};
ghost use Rattle.motion_pulse.specs.declared.pulse.Stepping.{Stepping};
ghost use Rattle.motion_pulse.specs.declared.pulse.Stepping.TheVariants.{Events, Subticks};
ghost use Rattle.command_line.specs.Command.{command_line, ordered_stream, stream_command, moves_command, demo_name, flag_rule, is_of_words, has_flag, order_by, buffers_by, form_by, stepping_by, Refuses, IsNamed, Asks, fault_by_kind};

use clap::error::ErrorKind;
use clap::parser::ValueSource;
use clap::{Arg, ArgAction, ArgMatches, Command, Error, value_parser};
use motion_pulse::Stepping;
use std::alloc::{AllocError, Global};
use step_record::Form;

/// In what order the four actors of a stream take their turns.
#[derive(Clone, Copy, Debug, PartialEq, Eq)]
pub enum Order {
    /// In any: each has a thread of its own.
    Threads,
    /// In that of this seed.
    Lockstep(u64),
    /// The motion behind all else, so that its plan is kept full.
    Paced,
}

/// How much a stream keeps on its way to the motion.
#[derive(Clone, Copy, Debug, PartialEq, Eq)]
pub enum Buffers {
    /// The link has room for 128 bytes, and the plan for 15 blocks, as on a Grbl.
    Standard,
    /// The link has room for 255 bytes, and the plan for 35 blocks.
    Wide,
}

/// How a job is streamed.
#[derive(Clone, Copy, Debug, PartialEq, Eq)]
pub struct StreamOptions {
    /// In what order the four actors take their turns.
    pub order: Order,
    /// How much the link and the plan hold.
    pub buffers: Buffers,
    /// The form of the steps.
    pub form: Form,
    /// How the pulse steps the machine.
    pub stepping: Stepping,
    /// The sender stands by: what it asks for waits for no answer, and nothing is resumed for it.
    pub attended: bool,
}

/// What the words ask for.
#[derive(Clone, Copy, Debug, PartialEq, Eq)]
pub enum Task {
    /// A job is streamed.
    Stream(StreamOptions),
    /// The generated job of so many moves is run, by a pulse that steps the machine so.
    Demo(u32, Stepping),
}

/// Why the words ask for nothing.
#[derive(Clone, Copy, Debug, PartialEq, Eq)]
pub enum WordsFault {
    /// The command line refuses them. A request for help is such a refusal.
    Refused,
    /// There was no memory to read them.
    OutOfMemory,
}

impl From<AllocError> for WordsFault {
    ghost use Rattle.command_line.specs.declared.WordsFault.TheVariants.{OutOfMemory};

    ghost from_gives = { λ _ f. f ≡ OutOfMemory };

    fn from(_error: AllocError) -> WordsFault {
        WordsFault::OutOfMemory
    }
}

impl From<Error> for WordsFault {
    ghost from_gives = { λ e f. f ≡ fault_by_kind (kind_of e) };

    fn from(error: Error) -> WordsFault {
        match error.kind() {
            ErrorKind::OutOfMemory => WordsFault::OutOfMemory,
            _ => WordsFault::Refused,
        }
    }
}

/// A flag, as clap takes it, by its name.
fn flag<'a>(alloc: Global, name: &'a str) -> Arg<'a>
    ensures shape { rule_of result ≡ flag_rule name.entry.now }
    ensures local { result.global ≡ false }
{
    Arg::new(alloc, name).long(name).action(ArgAction::SetTrue)
}

/// `stream` with what gives the order of turns: the seed is any number that 64 bits hold, and `--paced` is a flag.
fn ordered_stream<'a>(alloc: Global) -> Result<Command<'a>, AllocError>
    ensures shape { IfOk result (λ c. app_of c ≡ ordered_stream) }
    ensures local { IfOk result (λ c. (out-Command c).has_globals ≡ false) }
{
    let seed = Arg::new(alloc, "seed")
        .long("lockstep")
        .value_parser(value_parser!(u64));
    Command::new(alloc, "stream")
        .arg(seed)?
        .arg(flag(alloc, "paced"))
}

/// `stream`, as clap takes it: `--wide`, `--compact`, `--smooth` and `--attended` are flags.
fn stream_command<'a>(alloc: Global) -> Result<Command<'a>, AllocError>
    ensures shape { IfOk result (λ c. app_of c ≡ stream_command) }
    ensures local { IfOk result (λ c. (out-Command c).has_globals ≡ false) }
{
    ordered_stream(alloc)?
        .arg(flag(alloc, "wide"))?
        .arg(flag(alloc, "compact"))?
        .arg(flag(alloc, "smooth"))?
        .arg(flag(alloc, "attended"))
}

/// `demo` and `pins`, as clap takes them: a number of moves from 1 to 100,000 is required.
fn moves_command<'a>(alloc: Global, name: &'a str) -> Result<Command<'a>, AllocError>
    ensures shape { IfOk result (λ c. app_of c ≡ moves_command name.entry.now) }
    ensures local { IfOk result (λ c. (out-Command c).has_globals ≡ false) }
{
    let moves = Arg::new(alloc, "moves")
        .required(true)
        .value_parser(value_parser!(u32).range(1..=100_000));
    Command::new(alloc, name).arg(moves)
}

/// The command line as clap takes it.
fn command_line<'a>(alloc: Global) -> Result<Command<'a>, AllocError>
    ensures { IfOk result (λ c. app_of c ≡ command_line) }
{
    Command::new(alloc, "grbl")
        .no_binary_name(true)
        .subcommand_required(true)
        .subcommand(stream_command(alloc)?)?
        .subcommand(moves_command(alloc, "demo")?)?
        .subcommand(moves_command(alloc, "pins")?)
}

/// Whether a word names a command that runs the generated job.
fn names_demo(word: &str) -> bool
    ensures { (result ≡ true) ↔ ((stepping : Stepping) × (word.now ≡ demo_name stepping)) }
{
    word == "demo" || word == "pins"
}

/// Whether the first word names a command.
fn is_named(words: &[&str]) -> bool
    ensures { (result ≡ true) ↔ IsNamed (map (λ w. w.now) words.now) }
{
    match words {
        [first, ..] => *first == "stream" || names_demo(first),
        [] => false,
    }
}

/// Whether a value is of the words, and no default.
fn is_of_words(source: Option<ValueSource>) -> bool
    ensures { result ≡ is_of_words source }
{
    match source {
        Some(ValueSource::CommandLine) => true,
        _ => false,
    }
}

/// Whether the words gave a flag.
fn has_flag(given: &ArgMatches<'_>, name: &str) -> bool
    ensures { result ≡ has_flag name.now (rows_of (found_of given.now)) }
{
    is_of_words(given.value_source(name))
}

/// The order of turns that a pace and a seed stand for: together for none.
fn order_of(is_paced: bool, seed: Option<u64>) -> Option<Order>
    ensures { result ≡ order_by is_paced seed }
{
    match (is_paced, seed) {
        (true, Some(_)) => None,
        (true, None) => Some(Order::Paced),
        (false, Some(seed)) => Some(Order::Lockstep(seed)),
        (false, None) => Some(Order::Threads),
    }
}

/// The buffers that a flag stands for.
fn buffers_of(is_wide: bool) -> Buffers
    ensures { result ≡ buffers_by is_wide }
{
    if is_wide {
        Buffers::Wide
    } else {
        Buffers::Standard
    }
}

/// The form of steps that a flag stands for.
fn form_of(is_compact: bool) -> Form
    ensures { result ≡ form_by is_compact }
{
    if is_compact { Form::Two } else { Form::One }
}

/// How the machine is stepped, by whether the words say so: `--smooth`, or `pins` in place of `demo`.
fn stepping_of(is_smooth: bool) -> Stepping
    ensures { result ≡ stepping_by is_smooth }
{
    if is_smooth {
        Stepping::Subticks
    } else {
        Stepping::Events
    }
}

/// What clap finds in words. They are refused only if its definition has a fault for them.
fn matches_of<'a>(alloc: Global, words: &'a [&'a str]) -> Result<ArgMatches<'a>, WordsFault>
    ensures faulty { result ≡ Err WordsFault.Refused → fault_of command_line (map (λ w. w.now) words.now) ≢ [] }
    ensures sound { IfOk result (λ m. (fault_of command_line (map (λ w. w.now) words.now) ≡ []) × (subcommand_rows_of m ≡ subcommand_of command_line (map (λ w. w.now) words.now))) }
{
    Ok(command_line(alloc)?.try_get_matches_from(words)?)
}

/// Reads words by clap's definition.
fn read_by_clap(alloc: Global, words: &[&str]) -> Result<Task, WordsFault>
    ensures refused { result ≡ Err WordsFault.Refused → Refuses (map (λ w. w.now) words.now) }
    ensures accepted { IsOk result → ¬ Refuses (map (λ w. w.now) words.now) }
    ensures asked { IfOk result (λ task. Asks task (map (λ w. w.now) words.now)) }
{
    let matches = matches_of(alloc, words)?;
    let Some((name, given)) = matches.subcommand() else {
        unreachable!()
    };
    if name == "stream" {
        let Some(order) = order_of(has_flag(given, "paced"), given.get_one("seed")) else {
            return Err(WordsFault::Refused);
        };
        return Ok(Task::Stream(StreamOptions {
            order,
            buffers: buffers_of(has_flag(given, "wide")),
            form: form_of(has_flag(given, "compact")),
            stepping: stepping_of(has_flag(given, "smooth")),
            attended: has_flag(given, "attended"),
        }));
    }
    match given.get_one("moves") {
        Some(moves) => Ok(Task::Demo(moves, stepping_of(name == "pins"))),
        None => unreachable!(),
    }
}

/// Reads the words of the command line, which do not hold the program's own name. They are refused only if the definition of
/// the command line has a fault for them, or they name two orders of turns, and accepted only if neither is so. Lack of memory
/// is reported in place of either, but never of words that name no command: these are told without memory.
pub fn read_words(alloc: Global, words: &[&str]) -> Result<Task, WordsFault>
    ensures refused { result ≡ Err WordsFault.Refused → Refuses (map (λ w. w.now) words.now) }
    ensures accepted { IsOk result → ¬ Refuses (map (λ w. w.now) words.now) }
    ensures asked { IfOk result (λ task. Asks task (map (λ w. w.now) words.now)) }
    ensures unnamed { ¬ IsNamed (map (λ w. w.now) words.now) → result ≡ Err WordsFault.Refused }
{
    if !is_named(words) {
        return Err(WordsFault::Refused);
    }
    read_by_clap(alloc, words)
}

/// What the definition of the command line means. Accepted words begin with `stream`, `demo` or `pins`, and ask for a task; words ask
/// for one at most. A seed is any number that 64 bits hold, after `--lockstep` or `--lockstep=`, and is given once at most, and
/// not with `--paced`. `--paced`, `--wide`, `--compact`, `--smooth` and `--attended` are given once at most each, before or after other
/// options. A number of moves is given, once, and is at least 1 and at most 100,000. A request for help is a fault as well.
pub fn accepted_words()
    ensures begins { (words : List Text) → ¬ Refuses words → IsNamed words }
    ensures one { (words : List Text) (a b : Task) → Asks a words → Asks b words → a ≡ b }
    ensures some { (words : List Text) → ¬ Refuses words → (task : Task) × Asks task words }
    ensures stream { Asks (Task.Stream (record { order = Order.Threads; buffers = Buffers.Standard; form = Form.One; stepping = Events; attended = false })) (codes "stream" ∷ []) × (¬ Refuses (codes "stream" ∷ [])) }
    ensures no_more { fault_of command_line (codes "stream" ∷ codes "--" ∷ []) ≡ [] }
    ensures seed { Asks (Task.Stream (record { order = (Order.Lockstep 7); buffers = Buffers.Standard; form = Form.One; stepping = Events; attended = false })) (codes "stream" ∷ codes "--lockstep" ∷ codes "7" ∷ [])
        × (¬ Refuses (codes "stream" ∷ codes "--lockstep" ∷ codes "7" ∷ [])) }
    ensures largest_seed { Asks (Task.Stream (record { order = (Order.Lockstep 18446744073709551615); buffers = Buffers.Standard; form = Form.One; stepping = Events; attended = false })) (codes "stream" ∷ codes "--lockstep=18446744073709551615" ∷ [])
        × (¬ Refuses (codes "stream" ∷ codes "--lockstep=18446744073709551615" ∷ [])) }
    ensures paced { Asks (Task.Stream (record { order = Order.Paced; buffers = Buffers.Standard; form = Form.One; stepping = Events; attended = false })) (codes "stream" ∷ codes "--paced" ∷ []) × (¬ Refuses (codes "stream" ∷ codes "--paced" ∷ [])) }
    ensures compact { Asks (Task.Stream (record { order = Order.Threads; buffers = Buffers.Standard; form = Form.Two; stepping = Events; attended = false })) (codes "stream" ∷ codes "--compact" ∷ []) × (¬ Refuses (codes "stream" ∷ codes "--compact" ∷ [])) }
    ensures compact_by_seed { Asks (Task.Stream (record { order = (Order.Lockstep 7); buffers = Buffers.Standard; form = Form.Two; stepping = Events; attended = false })) (codes "stream" ∷ codes "--compact" ∷ codes "--lockstep" ∷ codes "7" ∷ [])
        × (¬ Refuses (codes "stream" ∷ codes "--compact" ∷ codes "--lockstep" ∷ codes "7" ∷ [])) }
    ensures seed_and_compact { Asks (Task.Stream (record { order = (Order.Lockstep 7); buffers = Buffers.Standard; form = Form.Two; stepping = Events; attended = false })) (codes "stream" ∷ codes "--lockstep=7" ∷ codes "--compact" ∷ [])
        × (¬ Refuses (codes "stream" ∷ codes "--lockstep=7" ∷ codes "--compact" ∷ [])) }
    ensures compact_and_paced { Asks (Task.Stream (record { order = Order.Paced; buffers = Buffers.Standard; form = Form.Two; stepping = Events; attended = false })) (codes "stream" ∷ codes "--compact" ∷ codes "--paced" ∷ [])
        × (¬ Refuses (codes "stream" ∷ codes "--compact" ∷ codes "--paced" ∷ [])) }
    ensures wide { Asks (Task.Stream (record { order = Order.Threads; buffers = Buffers.Wide; form = Form.One; stepping = Events; attended = false })) (codes "stream" ∷ codes "--wide" ∷ []) × (¬ Refuses (codes "stream" ∷ codes "--wide" ∷ [])) }
    ensures wide_by_seed { Asks (Task.Stream (record { order = (Order.Lockstep 7); buffers = Buffers.Wide; form = Form.Two; stepping = Events; attended = false })) (codes "stream" ∷ codes "--lockstep=7" ∷ codes "--wide" ∷ codes "--compact" ∷ [])
        × (¬ Refuses (codes "stream" ∷ codes "--lockstep=7" ∷ codes "--wide" ∷ codes "--compact" ∷ [])) }
    ensures smooth { Asks (Task.Stream (record { order = Order.Threads; buffers = Buffers.Standard; form = Form.One; stepping = Subticks; attended = false })) (codes "stream" ∷ codes "--smooth" ∷ []) × (¬ Refuses (codes "stream" ∷ codes "--smooth" ∷ [])) }
    ensures smooth_by_seed { Asks (Task.Stream (record { order = (Order.Lockstep 7); buffers = Buffers.Wide; form = Form.Two; stepping = Subticks; attended = false })) (codes "stream" ∷ codes "--smooth" ∷ codes "--lockstep=7" ∷ codes "--wide" ∷ codes "--compact" ∷ [])
        × (¬ Refuses (codes "stream" ∷ codes "--smooth" ∷ codes "--lockstep=7" ∷ codes "--wide" ∷ codes "--compact" ∷ [])) }
    ensures attended { Asks (Task.Stream (record { order = Order.Threads; buffers = Buffers.Standard; form = Form.One; stepping = Events; attended = true })) (codes "stream" ∷ codes "--attended" ∷ []) × (¬ Refuses (codes "stream" ∷ codes "--attended" ∷ [])) }
    ensures attended_by_seed { Asks (Task.Stream (record { order = (Order.Lockstep 7); buffers = Buffers.Wide; form = Form.Two; stepping = Subticks; attended = true })) (codes "stream" ∷ codes "--attended" ∷ codes "--smooth" ∷ codes "--lockstep=7" ∷ codes "--wide" ∷ codes "--compact" ∷ [])
        × (¬ Refuses (codes "stream" ∷ codes "--attended" ∷ codes "--smooth" ∷ codes "--lockstep=7" ∷ codes "--wide" ∷ codes "--compact" ∷ [])) }
    ensures paced_by_seed { Refuses (codes "stream" ∷ codes "--paced" ∷ codes "--lockstep=7" ∷ []) }
    ensures seed_and_paced { Refuses (codes "stream" ∷ codes "--lockstep=7" ∷ codes "--paced" ∷ []) }
    ensures seed_too_large { fault_of command_line (codes "stream" ∷ codes "--lockstep" ∷ codes "18446744073709551616" ∷ []) ≡ ErrorKind.ValueValidation ∷ [] }
    ensures no_seed { fault_of command_line (codes "stream" ∷ codes "--lockstep" ∷ []) ≡ ErrorKind.InvalidValue ∷ [] }
    ensures two_paces { fault_of command_line (codes "stream" ∷ codes "--paced" ∷ codes "--paced" ∷ []) ≡ ErrorKind.ArgumentConflict ∷ [] }
    ensures twice_compact { fault_of command_line (codes "stream" ∷ codes "--compact" ∷ codes "--compact" ∷ []) ≡ ErrorKind.ArgumentConflict ∷ [] }
    ensures twice_wide { fault_of command_line (codes "stream" ∷ codes "--wide" ∷ codes "--wide" ∷ []) ≡ ErrorKind.ArgumentConflict ∷ [] }
    ensures twice_attended { fault_of command_line (codes "stream" ∷ codes "--attended" ∷ codes "--attended" ∷ []) ≡ ErrorKind.ArgumentConflict ∷ [] }
    ensures attended_has_no_value { fault_of command_line (codes "stream" ∷ codes "--attended=1" ∷ []) ≡ ErrorKind.TooManyValues ∷ [] }
    ensures wide_has_no_value { fault_of command_line (codes "stream" ∷ codes "--wide=255" ∷ []) ≡ ErrorKind.TooManyValues ∷ [] }
    ensures wide_demo { fault_of command_line (codes "demo" ∷ codes "3" ∷ codes "--wide" ∷ []) ≡ ErrorKind.UnknownArgument ∷ [] }
    ensures attended_demo { fault_of command_line (codes "demo" ∷ codes "3" ∷ codes "--attended" ∷ []) ≡ ErrorKind.UnknownArgument ∷ [] }
    ensures compact_is_no_seed { fault_of command_line (codes "stream" ∷ codes "--lockstep" ∷ codes "--compact" ∷ []) ≡ ErrorKind.InvalidValue ∷ [] }
    ensures compact_has_no_value { fault_of command_line (codes "stream" ∷ codes "--compact=2" ∷ []) ≡ ErrorKind.TooManyValues ∷ [] }
    ensures compact_demo { fault_of command_line (codes "demo" ∷ codes "3" ∷ codes "--compact" ∷ []) ≡ ErrorKind.UnknownArgument ∷ [] }
    ensures two_seeds { fault_of command_line (codes "stream" ∷ codes "--lockstep=1" ∷ codes "--lockstep=2" ∷ []) ≡ ErrorKind.ArgumentConflict ∷ [] }
    ensures moves { Asks (Task.Demo 3 Events) (codes "demo" ∷ codes "3" ∷ []) × (fault_of command_line (codes "demo" ∷ codes "3" ∷ []) ≡ []) }
    ensures most_moves { Asks (Task.Demo 100000 Events) (codes "demo" ∷ codes "100000" ∷ []) × (fault_of command_line (codes "demo" ∷ codes "100000" ∷ []) ≡ []) }
    ensures pins { Asks (Task.Demo 3 Subticks) (codes "pins" ∷ codes "3" ∷ []) × (fault_of command_line (codes "pins" ∷ codes "3" ∷ []) ≡ []) }
    ensures no_pins { fault_of command_line (codes "pins" ∷ codes "0" ∷ []) ≡ ErrorKind.ValueValidation ∷ [] }
    ensures smooth_demo { fault_of command_line (codes "demo" ∷ codes "3" ∷ codes "--smooth" ∷ []) ≡ ErrorKind.UnknownArgument ∷ [] }
    ensures too_many { fault_of command_line (codes "demo" ∷ codes "100001" ∷ []) ≡ ErrorKind.ValueValidation ∷ [] }
    ensures too_few { fault_of command_line (codes "demo" ∷ codes "0" ∷ []) ≡ ErrorKind.ValueValidation ∷ [] }
    ensures no_moves { fault_of command_line (codes "demo" ∷ []) ≡ ErrorKind.MissingRequiredArgument ∷ [] }
    ensures empty { fault_of command_line [] ≡ ErrorKind.MissingSubcommand ∷ [] }
    ensures more { fault_of command_line (codes "stream" ∷ codes "x" ∷ []) ≡ ErrorKind.UnknownArgument ∷ [] }
    ensures help { fault_of command_line (codes "--help" ∷ []) ≡ ErrorKind.DisplayHelp ∷ [] }
    ensures version { fault_of command_line (codes "--version" ∷ []) ≡ ErrorKind.UnknownArgument ∷ [] }
    ensures other { fault_of command_line (codes "run" ∷ []) ≡ ErrorKind.UnknownArgument ∷ ErrorKind.InvalidSubcommand ∷ [] }
{}

#[cfg(test)]
mod tests;
