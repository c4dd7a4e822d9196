//! The audit: says of a job, a console and steps, three files, whether they fit.
#![tactic(auto)]

use audit_readers::exit_of;
use outside::{ReadSource, WriteSink};
use run_audit::{Audit, run_audit};
use std::process::ExitCode;
use system_io::{Limited, NamedFile, as_strs, read_words};

/// The word at a place; none is a name of no file.
fn word_at<'a>(words: &[&'a str], place: usize) -> &'a str {
    words.get(place).copied().unwrap_or("")
}

/// Audits the three files that the words name.
fn audit_files(rt: &HostRuntime, words: &[&str]) -> Audit {
    let mut job = ReadSource::new(NamedFile::open(rt, word_at(words, 0)));
    let mut console = ReadSource::new(NamedFile::open(rt, word_at(words, 1)));
    let mut steps = ReadSource::new(NamedFile::open(rt, word_at(words, 2)));
    let mut out = WriteSink::new(Limited::stdout(rt));
    run_audit(words, &mut job, &mut console, &mut steps, &mut out)
}

fn main(rt: HostRuntime) -> ExitCode {
    // Words that can't be read are no three words.
    let audit = match read_words(&rt) {
        Err(_) => audit_files(&rt, &[]),
        Ok(owned) => match as_strs(rt.alloc(), owned.as_slice()) {
            Err(_) => audit_files(&rt, &[]),
            Ok(words) => audit_files(&rt, words.as_slice()),
        },
    };
    ExitCode::from(exit_of(&audit))
}
