//! Plans moves, takes their segments and writes their heads, over the crates of motion alone: for measuring.
//!
//! Usage: planner_bench [short | chords | long] [geometry | segments | heads] [COUNT]
#![tactic(auto)]

mod moves;
mod work;

use crate::moves::Kind;
use crate::work::{Stage, work};
use std::{env, io};

/// The moves that a word names.
fn kind_of(word: &str) -> Kind {
    match word {
        "chords" => Kind::Chords,
        "long" => Kind::Long,
        _ => Kind::Short,
    }
}

/// The work that a word names.
fn stage_of(word: &str) -> Stage {
    match word {
        "geometry" => Stage::Geometry,
        "segments" => Stage::Segments,
        _ => Stage::Heads,
    }
}

fn main(rt: HostRuntime) -> io::Result<()> {
    let mut kind = Kind::Short;
    let mut stage = Stage::Heads;
    let mut count = 1000;
    for (place, word) in env::args(&rt)?.enumerate() {
        match place {
            1 => kind = kind_of(word.as_str()),
            2 => stage = stage_of(word.as_str()),
            3 => count = word.as_str().parse::<u64>().unwrap_or(count),
            _ => {}
        }
    }
    let tally = work(kind, count, stage);
    println!(rt;
        "{} moves, {} segments, sums {} {} {}",
        tally.moves, tally.segments, tally.geometry, tally.speeds, tally.bytes
    )
}
