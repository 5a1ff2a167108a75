// An object that a register's word leads to.
use kinds::Kind;

/// An object whose head was read and found in order.
#[derive(Clone, Copy)]
pub struct Opened {
    pub kind: Kind,
    // A number and no enum: it is one of the four space codes, by which the windows of a kind are counted.
    pub space: u32,
    /// Words from its window's start.
    pub offset: u32,
    /// The place of its first word.
    pub base: u32,
    /// How many cells or entries it has.
    pub cells: u32,
    // A number and no enum: sizes and shifts are computed from it.
    pub access: u32,
}
