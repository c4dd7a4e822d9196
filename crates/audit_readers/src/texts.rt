//! What stands at the front of a text.

ghost use Rattle.std.specs.Prelude.{◌≡◌, ◌↔◌, ◌≤◌, ◌++◌, IsTrue, length, drop, option_copied};
ghost use Rattle.audit_rules.specs.Findings.{is_foreign, has_probe};
ghost use Rattle.gcode_words.specs.Words.{words_of};
ghost use Rattle.line_words.specs.Codes.{has_g, is_code, key_of};
ghost use Rattle.status_report.specs.Replies.{IsReply, reply_text};
ghost use Rattle.step_record.specs.Reading.{behind_name};

use gcode_words::{Word, words};
use status_report::{Reply, put_reply};
use units::{Decimal, Text};

/// What follows the text of a reply that begins a text.
pub fn behind_reply<'a>(reply: &Reply, text: &'a [u8]) -> Option<&'a [u8]>
    requires { IsReply reply.now }
    ensures { option_copied result ≡ behind_name (reply_text reply.now) text.now }
{
    let mut own = Text::new();
    put_reply(reply, &mut own);
    text.strip_prefix(own.as_slice())
}

/// Whether the text of a reply begins a text.
pub(crate) fn begins_with(reply: &Reply, text: &[u8]) -> bool
    requires { IsReply reply.now }
    ensures { IsTrue result ↔ (text.now ≡ reply_text reply.now ++ drop (length (reply_text reply.now)) text.now) }
{
    behind_reply(reply, text).is_some()
}

/// Ten times a number, which is the key of a code.
fn key_of(v: &Decimal) -> Option<u64>
    ensures { result ≡ key_of v.now }
{
    let micro = v.micro.unsigned_abs();
    if v.micro >= 0 && micro % 100_000 == 0 {
        Some(micro / 100_000)
    } else {
        None
    }
}

/// Whether a word is a G code, by ten times its number.
fn is_g(word: &Word, key: u64) -> bool
    ensures { result ≡ is_code 71 key word.now }
{
    if word.letter != b'G' {
        return false;
    }
    match key_of(&word.value) {
        Some(other) => other == key,
        None => false,
    }
}

/// Whether a G code stands among words.
fn has_g(words: &[Word], key: u64) -> bool
    ensures { result ≡ has_g key words.now }
{
    words.iter().any(|word| is_g(word, key))
}

/// Whether a line spells words among which is a code of a probe.
fn has_probe(kept: &[u8]) -> bool
    requires { length kept.now ≤ 79 }
    ensures { result ≡ has_probe (words_of kept.now) }
{
    match words(kept) {
        Ok(words) => {
            let words = words.as_slice();
            has_g(words, 382) || has_g(words, 383) || has_g(words, 384) || has_g(words, 385)
        }
        Err(_) => false,
    }
}

/// Whether a line of which this is kept is not audited.
pub fn is_foreign(kept: &[u8]) -> bool
    ensures { result ≡ is_foreign kept.now }
{
    kept.len() <= 79 && (kept == b"$H".as_slice() || has_probe(kept))
}
