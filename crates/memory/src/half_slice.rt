// A word memory over a lent slice of 16-bit halves.
ghost use Rattle.std.specs.Prelude.{◌≡◌};
ghost use Rattle.memory.specs.Access.{Writes};
ghost use Rattle.memory.specs.Halves.{paired, left_out};

use crate::{OutOfRange, WordMemory};
use words::{high_half, join_halves, low_half};

/// A memory over a slice of halves: word P at 2P (low half) and 2P + 1 (high half); an odd last half is left out.
#[derive(Drop)]
pub struct Halves<'a>(pub &'a mut [u16]);

#[tactic(auto, using(crate::proofs::Pairs::halved))]
impl<'a> WordMemory for Halves<'a> {
    ghost words = { λ s. paired s.0.now };

    ghost lender = { λ s. s.0.ghost_name };

    fn len(&self) -> usize {
        self.0.len() / 2
    }

    fn read(&self, i: usize) -> Result<u32, OutOfRange> {
        match self.0.as_chunks::<2>().0.get(i) {
            Some([low, high]) => Ok(join_halves(*low, *high)),
            None => Err(OutOfRange),
        }
    }

    // By index, since after `as_chunks_mut` nothing is known of the slice's elements.
    fn write(&mut self, i: usize, w: u32) -> Result<(), OutOfRange>
        ensures after { Writes (paired self.old.0.now) i w (paired self.new.0.now) result }
        ensures lender { self.new.0.ghost_name ≡ self.old.0.ghost_name }
        ensures odd { left_out self.new.0.now ≡ left_out self.old.0.now }
    {
        if i < self.0.len() / 2 {
            self.0[2 * i] = low_half(w);
            self.0[2 * i + 1] = high_half(w);
            Ok(())
        } else {
            Err(OutOfRange)
        }
    }
}
