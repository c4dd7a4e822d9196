use super::*;
use arrayvec::ArrayVec;
use outside::{MemSink, Sink};
use std::test::Fail;
use units::Text;

/// So many letters.
fn letters(letter: u8, count: usize) -> Text {
    let mut text = ArrayVec::new();
    for _ in 0..count {
        if text.remaining_capacity() > 0 {
            text.push(letter);
        }
    }
    text
}

/// Puts texts of 192 letters until what waits is due, at most thirty, and answers how many.
fn fill(writer: &mut TextWriter) -> usize {
    let text = letters(b'x', 192);
    for count in 0..30 {
        if writer.is_due() {
            return count;
        }
        writer.put(&text);
    }
    30
}

/// Makes calls while what waits is due, at most so many, and answers how many.
fn empty<S: Sink>(writer: &mut TextWriter, sink: &mut S, most: usize) -> usize {
    for count in 0..most {
        if !writer.is_due() {
            return count;
        }
        writer.write(sink);
    }
    most
}

#[test]
fn text_waits_until_few_bytes_are_free_or_it_is_asked_for(rt: HostRuntime) -> Result<(), Fail> {
    // How many bytes a call takes, which calls fail, how many are made, how many bytes have arrived, and whether one failed.
    for (piece, fails, calls, arrived, failed) in [
        (5000, [].as_slice(), 1, 4032, false),
        (1000, [].as_slice(), 5, 4032, false),
        (4031, [].as_slice(), 2, 4032, false),
        (1000, [1].as_slice(), 1, 0, true),
        (1000, [3].as_slice(), 3, 2000, true),
    ] {
        let mut sink = MemSink::short(rt.alloc(), 9000, piece, fails)?;
        let mut writer = TextWriter::new();
        assert_eq!(rt; fill(&mut writer), 21);
        assert_eq!(rt; sink.held().len(), 0);
        assert_eq!(rt; empty(&mut writer, &mut sink, 10), calls);
        assert_eq!(rt; sink.held().len(), arrived);
        assert_eq!(rt; writer.failed(), failed);
        assert!(rt; !writer.is_due());
        writer.put(&letters(b'y', 3));
        assert!(rt; !writer.is_asked() && !writer.is_due());
        writer.ask();
        assert!(rt; writer.is_asked());
        assert_eq!(rt; writer.is_due(), !failed);
        empty(&mut writer, &mut sink, 10);
        let last = if failed { arrived } else { arrived + 3 };
        assert_eq!(rt; sink.held().len(), last);
        writer.ask();
        assert!(rt; !writer.is_due(), "nothing waits");
    }
    Ok(())
}
