//! The words that the program was called with.

ghost use Rattle.std.specs.Prelude.{◌≡◌, IfOk, drop, map};
ghost use Rattle.std.specs.String.{string_bytes};
ghost use Rattle.std.specs.Vec.Iter.{into_iter_items};

use std::alloc::{AllocError, Global};
use std::{env, io};

/// The words behind the first, which is the program's name.
fn behind_name(alloc: Global, mut all: env::Args) -> Result<Vec<String>, AllocError>
    ensures rest { IfOk result (λ words. words.items ≡ drop 1 (into_iter_items all)) }
{
    let mut words = Vec::new(alloc);
    let _name = all.next();
    for word in all {
        words.push(word)?;
    }
    Ok(words)
}

/// The words that the program was called with, without its own name.
pub fn read_words(rt: &HostRuntime) -> io::Result<Vec<String>> {
    Ok(behind_name(rt.alloc(), env::args(rt)?)?)
}

/// The same words, borrowed.
pub fn as_strs<'a>(alloc: Global, owned: &'a [String]) -> Result<Vec<&'a str>, AllocError>
    ensures same { IfOk result (λ words. map (λ w. w.now) words.items ≡ map (λ w. string_bytes w) owned.now) }
{
    let mut words = Vec::new(alloc);
    for word in owned {
        words.push(word.as_str())?;
    }
    Ok(words)
}
