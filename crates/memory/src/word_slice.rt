// A word memory over a lent slice of words.
use crate::{OutOfRange, WordMemory};

/// A memory over a slice of words.
#[derive(Drop)]
pub struct Words<'a>(pub &'a mut [u32]);

impl<'a> WordMemory for Words<'a> {
    ghost words = { λ s. s.0.now };

    ghost lender = { λ s. s.0.ghost_name };

    fn len(&self) -> usize {
        self.0.len()
    }

    fn read(&self, i: usize) -> Result<u32, OutOfRange> {
        self.0.get(i).copied().ok_or(OutOfRange)
    }

    // By index, since after `get_mut` nothing is known of the slice's elements.
    fn write(&mut self, i: usize, w: u32) -> Result<(), OutOfRange> {
        if i < self.0.len() {
            self.0[i] = w;
            Ok(())
        } else {
            Err(OutOfRange)
        }
    }
}
