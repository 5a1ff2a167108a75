// Memories of 32-bit words: the trait, two of them over lent slices, and blocks of words.
#![tactic(auto)]

ghost use Rattle.std.specs.Prelude.{◌≡◌, ℕ, List, length};
ghost use Rattle.std.specs.Borrow.{GName};
ghost use Rattle.memory.specs.Access.{Reads, Writes};
ghost use Rattle.memory.specs.Figures.{PlacedFigures};

pub use blocks::{fill, paste};
pub use half_slice::Halves;
pub use word_slice::Words;

pub mod blocks;
pub mod half_slice;
pub mod word_slice;

/// The place that was asked for is not below the memory's length.
#[derive(Clone, Copy, PartialEq, Eq, Debug)]
pub struct OutOfRange;

/// A list of words of fixed length, read and written word by word.
pub trait WordMemory {
    // The words that the memory holds.
    ghost words: { Self → List ℕ };

    // The slice that the memory borrows, which stays the same one. That is a clause and no invariant, since it ties the memory after a call to
    // the memory before it.
    ghost lender: { Self → GName };

    /// How many words there are.
    fn len(&self) -> usize
        ensures { result ≡ length (words self.now) };

    /// The word at place i, refused where there is none.
    fn read(&self, i: usize) -> Result<u32, OutOfRange>
        ensures { Reads (words self.now) i result };

    /// Puts a word at place i and changes no other; refused, with no change, where there is none.
    fn write(&mut self, i: usize, w: u32) -> Result<(), OutOfRange>
        ensures after { Writes (words self.old) i w (words self.new) result }
        ensures lender { lender self.new ≡ lender self.old };
}

// A fact of its own: the documents name it by this function.
/// The worked figures hold of the formats and of a memory of halves.
pub fn figures_hold()
    ensures { PlacedFigures }
{}
