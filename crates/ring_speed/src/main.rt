//! What goes through the rings between two threads, for `bench/run threads` to time.
//!
//! Its words are what goes through (pieces, bytes, flags or records), how the ends of the two threads lie (apart or
//! beside), and how many times. With no words, a thousand of each go, with the ends apart.
#![tactic(auto)]

mod bytes;
mod flags;
mod pieces;
mod places;
mod records;

use std::alloc::Global;
use std::process::ExitCode;
use std::sync::Wait;
use std::thread::{self, Threads};
use std::{env, io};

/// Lets other threads run after so many polls that found nothing.
pub(crate) fn poll(polls: u32) -> u32 {
    if polls % 1024 == 0 {
        thread::yield_now();
    }
    polls.wrapping_add(1)
}

/// Lets other threads run for a while where there was no record, or no room for one: so many come meanwhile that the
/// two sides seldom touch the same ones.
pub(crate) fn rest() {
    for _ in 0..4 {
        thread::yield_now();
    }
}

/// The words that the program was called with, without its own name.
fn read_words(rt: &HostRuntime) -> io::Result<Vec<String>> {
    let mut words = Vec::new(rt.alloc());
    for word in env::args(rt)?.skip(1) {
        words.push(word)?;
    }
    Ok(words)
}

/// Sends so many through one ring whose ends lie apart, and answers how many came, where memory sufficed.
fn send_apart<R: Threads + Wait + Sync>(
    rt: &R,
    alloc: Global,
    what: &str,
    count: u32,
) -> Option<u32> {
    match what {
        "pieces" => pieces::send_apart(rt, alloc, count),
        "bytes" => bytes::send_apart(rt, alloc, count),
        "flags" => flags::send_apart(rt, alloc, count),
        "records" => records::send_apart(rt, alloc, count),
        _ => None,
    }
}

/// The same, with the ends side by side.
fn send_beside<R: Threads + Wait + Sync>(
    rt: &R,
    alloc: Global,
    what: &str,
    count: u32,
) -> Option<u32> {
    match what {
        "pieces" => pieces::send_beside(rt, alloc, count),
        "bytes" => bytes::send_beside(rt, alloc, count),
        "flags" => flags::send_beside(rt, alloc, count),
        "records" => records::send_beside(rt, alloc, count),
        _ => None,
    }
}

/// Sends, and tells what came.
fn tell<R: Threads + Wait + Sync + Print>(
    rt: &R,
    alloc: Global,
    what: &str,
    place: &str,
    count: u32,
) -> bool {
    let came = match place {
        "apart" => send_apart(rt, alloc, what, count),
        "beside" => send_beside(rt, alloc, what, count),
        _ => None,
    };
    match came {
        Some(came) => println!(rt; "{what} {came}").is_ok(),
        None => false,
    }
}

/// Sends what the words say.
fn obey<R: Threads + Wait + Sync + Print>(rt: &R, alloc: Global, words: &[String]) -> bool {
    match words {
        [] => {
            tell(rt, alloc, "pieces", "apart", 1000)
                && tell(rt, alloc, "bytes", "apart", 1000)
                && tell(rt, alloc, "flags", "apart", 1000)
                && tell(rt, alloc, "records", "apart", 1000)
        }
        [what, place, count] => match count.as_str().parse::<u32>() {
            Ok(count) => tell(rt, alloc, what.as_str(), place.as_str(), count),
            Err(_) => false,
        },
        _ => false,
    }
}

fn main(rt: HostRuntime) -> ExitCode {
    let words = read_words(&rt).unwrap_or(Vec::new(rt.alloc()));
    if obey(&rt, rt.alloc(), words.as_slice()) {
        ExitCode::SUCCESS
    } else {
        ExitCode::FAILURE
    }
}
