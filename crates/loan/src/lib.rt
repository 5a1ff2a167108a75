// What a caller lends to each call: a memory and the two stacks.
#![tactic(auto)]

ghost use Rattle.std.specs.Prelude.{◌≡◌, length};

use stacks::{Binding, StackLengths};

/// A memory and two stacks, lent to calls.
#[derive(Drop)]
pub struct Loan<'a, M> {
    pub memory: &'a mut M,
    pub control: &'a mut [u32],
    pub bindings: &'a mut [Binding],
}

impl<M> Loan<'_, M> {
    /// How long the stacks are.
    pub fn stack_lengths(&self) -> StackLengths
        ensures { (result.control ≡ length self.now.control.now) × (result.bindings ≡ length self.now.bindings.now) }
    {
        StackLengths {
            control: self.control.len(),
            bindings: self.bindings.len(),
        }
    }
}
