// The store: its windows and registers, and what every call asks of them first.
#![tactic(auto)]

ghost use Rattle.std.specs.Prelude.{◌≡◌, ℕ, ◌+◌, ◌*◌, Bool, true, length, OnOk};
ghost use Rattle.layout.specs.Machine.{now_space, start, window as window_of};
ghost use Rattle.spaces.specs.Spaces.{code_of};
ghost use Rattle.store.specs.View.{table_of};
ghost use Rattle.store.specs.Checks.{admitted, long_enough, in_use, reaches, dynamic_word};

use answers::Refusal;
use kinds::Kind;
use memory::WordMemory;
pub use spaces::Space;
use stacks::StackLengths;
pub use state::{LAST, REGISTERS, Store, WINDOWS};
pub use windows::Window;

mod state;
mod windows;

// The space code as a number: the windows of a kind are counted by it, and pointers hold it.
/// The window of this kind and space code.
pub fn window(kind: Kind, space: u32) -> usize
    ensures { result ≡ window_of kind space }
{
    4 * kind.index() + space as usize
}

/// The word points into dynamic space.
#[tactic(auto, unfolding(crate::specs::Checks::dynamic_word))]
pub fn is_dynamic(w: u32) -> bool
    ensures { result ≡ dynamic_word w }
{
    Kind::try_from(words::type_code(w)).is_ok() && words::space_code(w) < 2
}

impl Store {
    /// What every call asks first: that no foreign word was found, that it names only registers, spaces and access types
    /// that there are, that the memory has the windows' words, and that no stack is over its limit.
    #[tactic(auto, unfolding(crate::specs::Checks::admitted, crate::specs::Checks::long_enough))]
    pub fn admit<M: WordMemory>(
        &self,
        // A flag: what is known, a register's number or a space, the caller has already.
        known: bool,
        memory: &M,
        stacks: StackLengths,
    ) -> Result<(), Refusal>
        ensures admits { result ≡ admitted self.now.foreign known (long_enough (table_of self.now) (length (M.WordMemory.words memory.now)) stacks.control stacks.bindings) }
        ensures known { OnOk result (known ≡ true) }
    {
        if let Some(place) = self.foreign {
            return Err(Refusal::Foreign(place));
        }
        if !known {
            return Err(Refusal::Unknown);
        }
        if memory.len() < self.end() || !stacks.fit() {
            return Err(Refusal::Short);
        }
        Ok(())
    }

    /// Where the last window ends.
    pub fn end(&self) -> usize
        ensures { result ≡ start (table_of self.now) 20 }
    {
        let last = &self.windows[WINDOWS - 1];
        last.start + last.room
    }

    /// These words of a window are in use, all at its low end or all at its high end.
    pub fn in_use(&self, window: usize, offset: usize, size: usize) -> bool
        ensures { result ≡ in_use (table_of self.now) window offset size }
    {
        // A `match`: `is_some_and` is no plainer, and would need a proof written out.
        match self.windows.get(window) {
            Some(w) => w.holds(offset, size),
            None => false,
        }
    }

    /// The word points to words in use, outside the dynamic space that is not in use, enough for the smallest object.
    #[tactic(auto, unfolding(crate::specs::Checks::reaches))]
    pub fn reaches(&self, w: u32) -> bool
        ensures { result ≡ reaches (table_of self.now) w }
    {
        let Ok(kind) = Kind::try_from(words::type_code(w)) else {
            return false;
        };
        let space = words::space_code(w);
        space as usize != 1 - self.newspace
            && self.in_use(
                window(kind, space),
                words::pointer_offset(w) as usize,
                kind.shape().least,
            )
    }

    /// The space code of a new object's pointer.
    pub fn space_now(&self, space: Space) -> u32
        ensures { result ≡ now_space self.now.newspace (code_of space) }
    {
        match space {
            Space::Dynamic => self.newspace as u32,
            fixed => u32::from(fixed),
        }
    }
}
