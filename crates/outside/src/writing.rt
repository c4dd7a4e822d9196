//! A text on its way to a sink.

ghost use Rattle.std.specs.Prelude.{◌≡◌, not, is_ok};
ghost use Rattle.outside.specs.Writing.{Took};

use crate::{Failed, Sink};

/// Writes a text, all of it unless a call fails. After a call that failed nothing more is written.
pub fn write_text<S: Sink>(text: &[u8], sink: &mut S) -> Result<(), Failed>
    ensures { Took (S.state sink.old) (S.state sink.new) (not (is_ok result)) text.now }
{
    let mut rest = text;
    while !rest.is_empty() {
        let count = sink.write(rest)?;
        rest = &rest[count..];
    }
    Ok(())
}
