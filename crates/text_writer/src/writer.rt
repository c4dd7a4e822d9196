//! The writer.

ghost use Rattle.std.specs.Prelude.{◌≡◌, ◌<◌, ◌≤◌, nat_lt, length, false};

use crate::{ShortText, Waiting};
use outside::Sink;
use std::marker::Model;

/// So many bytes must be free for the next text.
const RESERVE: usize = 192;

/// Holds up to 4,096 bytes of text, and writes them in calls of a sink: once fewer than 192 bytes are free, or all that
/// waits was asked for, and then until none waits. The next call goes on with what a call left. A sink that has failed
/// is given nothing more, and what comes for it is dropped.
#[derive(Drop)]
pub struct TextWriter {
    held: Waiting,
    /// How many of the bytes held are written.
    written: usize,
    /// What is held is to be written now.
    due: bool,
    failed: bool,
    /// All that is held was asked for.
    asked: bool,
}

impl Model for TextWriter {
    ghost use Rattle.text_writer.specs.Writers.{Writing};
    ghost use Rattle.text_writer.specs.Holding.{IsHeld, writing};

    ghost Value = { Writing };

    ghost view = { λ w. writing w.held.items w.written w.failed w.asked };

    ghost invariant = { λ w. IsHeld w.held.items w.written w.due w.failed w.asked };
}

impl TextWriter {
    ghost use Rattle.text_writer.specs.Writers.{Writes, WroteOnce, fresh, is_due, with_text, with_all_asked, with_written, given_up};

    /// A writer to which nothing was put.
    pub fn new() -> TextWriter
        ensures { result ≡ fresh }
    {
        TextWriter {
            held: Waiting::new(),
            written: 0,
            due: false,
            failed: false,
            asked: false,
        }
    }

    /// Whether a call of the sink has failed.
    #[inline]
    pub fn failed(&self) -> bool
        ensures { result ≡ self.now.failed }
    {
        self.failed
    }

    /// Whether all that waits was asked for, and no text was put since.
    #[inline]
    pub fn is_asked(&self) -> bool
        ensures { result ≡ self.now.asked }
    {
        self.asked
    }

    /// Whether some text waits.
    #[inline]
    pub fn has_text(&self) -> bool
        ensures { result ≡ nat_lt 0 (length self.now.waiting) }
    {
        self.written < self.held.len()
    }

    /// Whether what waits is to be written before more is put.
    #[inline]
    pub fn is_due(&self) -> bool
        ensures due { result ≡ is_due self.now }
        ensures few { length self.now.waiting ≤ 4096 }
    {
        self.due
    }

    /// Puts a text after what waits, if nothing is due. It is dropped if the sink has failed.
    #[inline]
    pub fn put<T: ShortText>(&mut self, of: &T)
        requires has { T.has_text of.now }
        requires due { is_due self.old ≡ false }
        ensures put { self.new ≡ with_text self.old (T.text of.now) }
        ensures few { length self.new.waiting ≤ 4096 }
    {
        // Mostly none was asked for, and a caller that knows it pays for no write.
        if self.asked {
            self.asked = false;
        }
        if self.failed {
            return;
        }
        of.append_to(&mut self.held);
        self.due = self.held.remaining_capacity() < RESERVE;
    }

    /// Asks for all that waits to be written.
    #[inline]
    pub fn ask(&mut self)
        ensures { self.new ≡ with_all_asked self.old }
    {
        self.asked = true;
        self.due = !self.held.is_empty();
    }

    /// So many bytes more are written.
    fn advance(&mut self, count: usize)
        requires writes { Writes self.old }
        requires some { 0 < count }
        requires within { count ≤ length self.old.waiting }
        ensures { self.new ≡ with_written self.old count }
    {
        self.written += count;
        if self.written < self.held.len() {
            return;
        }
        self.held.clear();
        self.written = 0;
        self.due = false;
    }

    /// The sink has failed.
    fn give_up(&mut self)
        ensures { self.new ≡ given_up self.old }
    {
        self.held.clear();
        self.written = 0;
        self.due = false;
        self.failed = true;
    }

    /// Makes one call of the sink with what waits, if it is due. What the sink does not take goes on waiting.
    #[inline(never)]
    pub fn write<S: Sink>(&mut self, sink: &mut S)
        requires { Writes self.old }
        ensures wrote { WroteOnce self.old self.new (S.state sink.old) (S.state sink.new) }
        ensures few { length self.new.waiting ≤ 4096 }
    {
        let (_, waiting) = self.held.as_slice().split_at(self.written);
        match sink.write(waiting) {
            Ok(count) => self.advance(count),
            Err(_) => self.give_up(),
        }
    }
}
