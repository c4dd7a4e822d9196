//! The geometry of a straight move: its length, its direction, and what bounds its speed. A move in a plan is a block,
//! which has a geometry.
#![tactic(auto)]

pub mod laws;
pub mod measure;

use units::{Move, Rate};

/// The geometry of a straight move of at least one step.
#[derive(Clone, Copy, Debug, PartialEq, Eq)]
pub struct Geom {
    /// How many step events it has: its largest axis count.
    pub n: u32,
    /// How long it is, in nm.
    pub length: u64,
    /// How far X goes, in millionths of the length.
    pub ux: i32,
    /// How far Y goes, in millionths of the length.
    pub uy: i32,
    /// How far Z goes, in millionths of the length.
    pub uz: i32,
    /// The greatest acceleration along it that all axes allow, in µm/s².
    pub accel: u64,
    /// The greatest speed along it that all axes allow, in µm/s.
    pub rapid: u64,
    /// How much the squared speed, in µm²/s², may change over one step event.
    pub q: u64,
}

/// A cap on the squared speed, in µm²/s², where one move ends and the next begins.
#[derive(Clone, Copy, Debug, PartialEq, Eq)]
pub enum Cap {
    At(u64),
    Free,
}

/// A move that is planned.
#[derive(Clone, Copy, Debug, PartialEq, Eq)]
pub struct Block {
    /// The line that it comes from.
    pub line: u32,
    pub mv: Move,
    /// How fast the line asks for it.
    pub rate: Rate,
    pub geom: Geom,
    /// How many of its step events are prepared for the steppers.
    pub prepared: u32,
    /// The cap on the squared speed at its beginning.
    pub entry: Cap,
}
