//! Lines without their comments and realtime bytes, byte by byte.

ghost use Rattle.std.specs.Prelude.{◌≡◌, ◌≢◌, ℕ, true, false, List, [], ◌∷◌, ◌++◌, if◌then◌else◌, flat_map};
ghost use Rattle.std.specs.List.{All, list_any};
ghost use Rattle.gcode_words.specs.Comments.{begins_comment, ends_comment, cut, comment_after};
ghost use Rattle.gcode_words.specs.Stripping.{is_plain, is_realtime, capital, kept_by, taken_by, plain, realtime, FeedsAll};
ghost use Rattle.gcode_words.specs.declared.stripping.Comment.{Comment};
ghost use Rattle.gcode_words.specs.declared.stripping.Comment.TheVariants.{Outside, Paren, Semicolon};
ghost use Rattle.gcode_words.specs.declared.stripping.Stripped.{Stripped};

use crate::realtime_bytes::{HOLD, QUERY, RESET, RESUME};
use std::marker::Model;

/// Whether all that is kept of a line fits a `LineBuf`.
#[derive(Clone, Copy, Debug, PartialEq, Eq)]
pub enum Strip {
    /// At most 79 bytes are kept.
    Line,
    /// More are kept.
    Overflow,
}

/// What a `Stripper` answers to a byte.
#[derive(Clone, Copy, Debug, PartialEq, Eq)]
pub enum Stripped {
    /// The byte is a part of a comment, or is dropped.
    Nothing,
    /// The byte is kept, letters as capitals.
    Keep(u8),
    /// The byte is a realtime command, which is no part of the line.
    Realtime(u8),
    /// The byte is a line feed, which ends the line.
    LineEnd,
}

/// The kind of comment that a line is in, if any.
#[derive(Clone, Copy, PartialEq, Eq)]
enum Comment {
    Outside,
    Paren,
    Semicolon,
}

/// Whether a byte is one of those that most lines are made of. Outside comments these are kept as they are.
#[inline]
fn is_common(byte: u8) -> bool
    ensures kept { result ≡ true → byte ∷ [] ≡ (if is_plain byte then capital byte ∷ [] else []) }
    ensures taken { result ≡ true → [] ≡ (if is_realtime byte then byte ∷ [] else []) }
    ensures begins { result ≡ true → (byte ≢ 40) × (byte ≢ 59) }
{
    byte.is_ascii_digit() || byte.is_ascii_uppercase() || byte == b'.'
}

/// What becomes of a byte outside comments that begins none.
fn answer_outside(byte: u8) -> Stripped
    ensures kept { kept_by result ≡ (if is_plain byte then capital byte ∷ [] else []) }
    ensures taken { taken_by result ≡ (if is_realtime byte then byte ∷ [] else []) }
    ensures goes_on { result ≢ Stripped.LineEnd }
{
    match byte {
        RESET | QUERY | HOLD | RESUME | 0x80.. => Stripped::Realtime(byte),
        0..=b' ' | b'/' => Stripped::Nothing,
        _ => Stripped::Keep(byte.to_ascii_uppercase()),
    }
}

/// Takes comments, blanks and realtime bytes off lines, byte by byte.
///
/// Outside comments `(` begins a comment, which ends with the next `)` or the line, and `;` one that ends with the
/// line. There 0x18, `?`, `!`, `~` and every byte from 0x80 are realtime bytes, the other bytes up to 0x20 and `/` are
/// dropped, and all else is kept, also a `)` that ends no comment. Inside a comment all is dropped, realtime bytes too.
/// A line feed ends the line and every comment.
///
/// Clauses see a stripper as the kind of comment that the bytes of its line so far end in.
#[derive(Drop)]
pub struct Stripper {
    comment: Comment,
}

impl Model for Stripper {
    ghost use Rattle.gcode_words.specs.declared.stripping.Comment.{Comment};

    ghost Value = { Comment };

    ghost view = { λ s. s.comment };
}

impl Stripper {
    ghost use Rattle.std.specs.Prelude.{◌≡◌, []};
    ghost use Rattle.gcode_words.specs.Comments.{comment_after};
    ghost use Rattle.gcode_words.specs.Stripping.{Feeds};

    /// A stripper at the front of a line.
    pub fn new() -> Stripper
        ensures { result ≡ comment_after [] }
    {
        Stripper {
            comment: Comment::Outside,
        }
    }

    /// Takes the next byte of the line, and says what becomes of it.
    pub fn feed(&mut self, byte: u8) -> Stripped
        ensures { Feeds self.old byte result self.new }
    {
        if byte == b'\n' {
            self.comment = Comment::Outside;
            return Stripped::LineEnd;
        }
        match self.comment {
            Comment::Outside if is_common(byte) => Stripped::Keep(byte),
            Comment::Outside => match byte {
                b'(' => {
                    self.comment = Comment::Paren;
                    Stripped::Nothing
                }
                b';' => {
                    self.comment = Comment::Semicolon;
                    Stripped::Nothing
                }
                _ => answer_outside(byte),
            },
            Comment::Paren => {
                if byte == b')' {
                    self.comment = Comment::Outside;
                }
                Stripped::Nothing
            }
            Comment::Semicolon => Stripped::Nothing,
        }
    }
}

/// Where comments begin and end in a whole line.
///
/// A line with no `(` or `;` is all outside comments. Else the leftmost of these begins a comment: a `;` comment runs
/// to the line's end; a `(` comment runs through the next `)`, after which the same holds of what is left, or to the
/// line's end.
pub fn comments()
    ensures none { (line : List ℕ) → list_any begins_comment line ≡ false →
        cut line ≡ record { outside = line; comment = Outside } }
    ensures semicolon { (front comment : List ℕ) → list_any begins_comment front ≡ false →
        cut (front ++ 59 ∷ comment) ≡ record { outside = front; comment = Semicolon } }
    ensures unclosed { (front comment : List ℕ) → list_any begins_comment front ≡ false → list_any ends_comment comment ≡ false →
        cut (front ++ 40 ∷ comment) ≡ record { outside = front; comment = Paren } }
    ensures closed { (front comment rest : List ℕ) → list_any begins_comment front ≡ false → list_any ends_comment comment ≡ false →
        cut (front ++ 40 ∷ comment ++ 41 ∷ rest) ≡ record { outside = front ++ (cut rest).outside; comment = (cut rest).comment } }
{}

/// What a stripper answers to the bytes of a line, one after the other from its front, keeps the plain bytes of
/// the line and takes its realtime bytes, in their order. After a line feed a stripper is at the front of
/// a line again.
pub fn feeding()
    ensures kept { (line : List ℕ) (answers : List Stripped) (after : Comment) → All (λ b. b ≢ 10) line →
        FeedsAll Outside line answers after → flat_map kept_by answers ≡ plain line }
    ensures taken { (line : List ℕ) (answers : List Stripped) (after : Comment) → All (λ b. b ≢ 10) line →
        FeedsAll Outside line answers after → flat_map taken_by answers ≡ realtime line }
    ensures comment { (line : List ℕ) (answers : List Stripped) (after : Comment) → All (λ b. b ≢ 10) line →
        FeedsAll Outside line answers after → after ≡ comment_after line }
{}
