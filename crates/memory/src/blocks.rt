// Blocks of words written into a memory, whole or not at all.
ghost use Rattle.std.specs.Prelude.{◌≡◌, ℕ, ◌<◌, List, length};
ghost use Rattle.memory.specs.Access.{Gives, Pastes, Fills};

use crate::{OutOfRange, WordMemory};

/// Writes the words that `word` gives for 0 to `n` - 1 from place `at` on, or nothing where they do not fit.
fn put<M: WordMemory, F: Fn(usize) -> u32>(
    memory: &mut M,
    at: usize,
    n: usize,
    word: F,
) -> Result<(), OutOfRange>
    requires { (i : ℕ) → i < n → F.pre word i }
    ensures after { (ws : List ℕ) → length ws ≡ n → Gives (F.post word) ws → Pastes (M.WordMemory.words memory.old) at ws (M.WordMemory.words memory.new) result }
    ensures lender { M.WordMemory.lender memory.new ≡ M.WordMemory.lender memory.old }
{
    let len = memory.len();
    if n > len || at > len - n {
        return Err(OutOfRange);
    }
    // By index, since a memory has no slice to go over.
    for i in 0..n {
        memory.write(at + i, word(i))?;
    }
    Ok(())
}

/// Writes the words `ws` from place `at` on, or nothing where they do not fit.
pub fn paste<M: WordMemory>(memory: &mut M, at: usize, ws: &[u32]) -> Result<(), OutOfRange>
    ensures after { Pastes (M.WordMemory.words memory.old) at ws.now (M.WordMemory.words memory.new) result }
    ensures lender { M.WordMemory.lender memory.new ≡ M.WordMemory.lender memory.old }
{
    put(memory, at, ws.len(), |i| ws[i])
}

/// Writes the word `w` into `n` places from `at` on, or nothing where they do not fit.
pub fn fill<M: WordMemory>(memory: &mut M, at: usize, n: usize, w: u32) -> Result<(), OutOfRange>
    ensures after { Fills (M.WordMemory.words memory.old) at n w (M.WordMemory.words memory.new) result }
    ensures lender { M.WordMemory.lender memory.new ≡ M.WordMemory.lender memory.old }
{
    put(memory, at, n, |_| w)
}
