//! Lines that begin with `$`: their kinds, what they ask for, and the settings that they set.
#![tactic(auto)]

ghost use Rattle.std.specs.Prelude.{◌≡◌, ◌<◌, ◌≤◌, ◌/◌, IfOk, IfErr, IfSome, OnOk, OnErr, Some, None, Ok, IsErr, is_some, length, slice_get, nat_abs};
ghost use Rattle.settings.specs.Numbers.{values, value_set, with_value, set_refusal, IsSettings};
ghost use Rattle.system_lines.specs.Commands.{number_at, is_setting_number, setting_refusal, asked, unless, kind_of, refused_in_run, refused_in_jog, is_jog, jog_words, command_by_kind, command_of};

use code_table::Code;
use settings::Settings;
use units::{Decimal, read_decimal};

/// The kind of a line that begins with `$`. It is known before the line is read, and decides alone whether the line is
/// refused while the machine runs or jogs.
#[derive(Clone, Copy, Debug, PartialEq, Eq)]
pub enum Kind {
    /// `$$`: lists the settings.
    ListSettings,
    /// `$G`: lists the modes.
    ListModes,
    /// `$X`: ends the alarm lock.
    Unlock,
    /// `$#`: lists the offsets.
    ListOffsets,
    /// `$n=v`: a setting line, whether or not it can be read.
    Setting,
    /// `$J=` and the words of a jog.
    Jog,
    /// `$J` and anything else.
    BareJog,
    /// Any other.
    Other,
}

impl Kind {
    /// The kind of a line, given the bytes that are kept of it, the first of which is `$`.
    ///
    /// `$$`, `$G`, `$X` and `$#` are whole as they are. A line whose second byte is none of `$`, `#`, `C`, `G`, `H`,
    /// `I`, `J`, `N`, `R`, `S` and `X` is a setting line.
    #[tactic(auto, unfolding(crate::specs::Commands::kind_of))]
    pub fn of(line: &[u8]) -> Kind
        requires { slice_get line.now 0 ≡ Some 36 }
        ensures { result ≡ kind_of line.now }
    {
        match line {
            b"$$" => Kind::ListSettings,
            b"$G" => Kind::ListModes,
            b"$X" => Kind::Unlock,
            b"$#" => Kind::ListOffsets,
            [] | [_] => Kind::Other,
            [_, b'J', b'=', ..] => Kind::Jog,
            [_, b'J', ..] => Kind::BareJog,
            [
                _,
                b'$' | b'#' | b'C' | b'G' | b'H' | b'I' | b'N' | b'R' | b'S' | b'X',
                ..
            ] => Kind::Other,
            _ => Kind::Setting,
        }
    }

    /// Whether lines of this kind are refused with error 8 while the machine runs: `$$`, `$#`, setting lines, and those
    /// that begin with `$J`.
    pub fn is_refused_in_run(self) -> bool
        ensures { result ≡ refused_in_run self }
    {
        matches!(
            self,
            Kind::ListSettings | Kind::ListOffsets | Kind::Setting | Kind::Jog | Kind::BareJog
        )
    }

    /// Whether lines of this kind are refused with error 8 in a jog: `$#`, and setting lines.
    pub fn is_refused_in_jog(self) -> bool
        ensures { result ≡ refused_in_jog self }
    {
        matches!(self, Kind::ListOffsets | Kind::Setting)
    }

    /// Whether a line of this kind is a jog: `$J=` and its words.
    pub fn is_jog(self) -> bool
        ensures { result ≡ is_jog self }
    {
        matches!(self, Kind::Jog)
    }
}

/// The words of a jog, given the bytes that are kept of its line: what comes after `$J=`.
pub fn jog_words(line: &[u8]) -> &[u8]
    ensures { result.now ≡ jog_words line.now }
{
    match line {
        [_, _, _, words @ ..] => words,
        _ => &[],
    }
}

/// What a `$` line asks for.
#[derive(Clone, Copy, Debug, PartialEq, Eq)]
pub enum Command {
    /// `$$`: to list the settings.
    ListSettings,
    /// `$G`: to list the modes.
    ListModes,
    /// `$#`: to list the offsets.
    ListOffsets,
    /// `$X`: to end the alarm lock.
    Unlock,
    /// `$n=v`: to set a setting.
    Set { n: u8, value: Decimal },
}

/// The number that begins at a place of a line, and the place after it, or error 2.
fn read_number(line: &[u8], at: usize) -> Result<(Decimal, usize), Code>
    requires { at ≤ length line.now }
    ensures read { IfOk result (λ x. number_at line.now at ≡ Ok x) }
    ensures place { IfOk result (λ x. (at < x.1) × (x.1 ≤ length line.now)) }
    ensures refused { IfErr result (λ refusal. refusal ≡ record { 0 = 2 }) }
    ensures not_read { OnErr result (IsErr (number_at line.now at)) }
{
    read_decimal(line, at).map_err(|_| Code::BAD_NUMBER)
}

/// The number of a setting: a whole number from 0 to 255.
fn setting_number(n: Decimal) -> Option<u8>
    ensures whole { IfSome result (λ number. number ≡ nat_abs n.micro / 1000000) }
    ensures some { is_some result ≡ is_setting_number n }
{
    if n.micro < 0 {
        return None;
    }
    let micro = n.micro.unsigned_abs();
    if micro % 1_000_000 != 0 || 255_000_000 < micro {
        return None;
    }
    Some((micro / 1_000_000) as u8)
}

/// What a setting line asks for.
fn read_setting(line: &[u8]) -> Result<Command, Code>
    requires { 0 < length line.now }
    ensures { result ≡ unless (setting_refusal line.now) (asked line.now) }
{
    let (n, equals) = read_number(line, 1)?;
    if line.get(equals) != Some(&b'=') {
        return Err(Code::INVALID_STATEMENT);
    }
    let (value, end) = read_number(line, equals + 1)?;
    if end != line.len() {
        return Err(Code::INVALID_STATEMENT);
    }
    match setting_number(n) {
        Some(n) => Ok(Command::Set { n, value }),
        None => Err(Code::INVALID_STATEMENT),
    }
}

/// What a line asks for, given the bytes that are kept of it, the first of which is `$`.
///
/// # Errors
///
/// In a setting line the first of these: 2 if no number comes after the `$`; 3 if no `=` comes after
/// that; 2 if no number comes after the `=`; 3 if the line goes on; 3 if n isn't a whole number from 0
/// to 255. Every other line is refused with 3.
#[tactic(auto, unfolding(crate::specs::Commands::command_of))]
pub fn read_command(line: &[u8]) -> Result<Command, Code>
    requires { slice_get line.now 0 ≡ Some 36 }
    ensures { result ≡ command_of line.now }
{
    match Kind::of(line) {
        Kind::ListSettings => Ok(Command::ListSettings),
        Kind::ListModes => Ok(Command::ListModes),
        Kind::Unlock => Ok(Command::Unlock),
        Kind::ListOffsets => Ok(Command::ListOffsets),
        Kind::Setting => read_setting(line),
        Kind::Jog | Kind::BareJog | Kind::Other => Err(Code::INVALID_STATEMENT),
    }
}

/// Sets what a setting line asks for.
///
/// # Errors
///
/// What `Settings::set` refuses with. Then nothing changes.
pub fn apply_setting(settings: &mut Settings, n: u8, value: Decimal) -> Result<(), Code>
    requires { IsSettings settings.old }
    ensures refused { IfErr result (λ refusal. set_refusal n value ≡ Some refusal) }
    ensures unchanged { OnErr result (settings.new ≡ settings.old) }
    ensures passed { OnOk result (set_refusal n value ≡ None) }
    ensures values { OnOk result (values settings.new ≡ with_value n (value_set n value) settings.old) }
    ensures valid { IsSettings settings.new }
{
    settings.set(u16::from(n), value)
}
