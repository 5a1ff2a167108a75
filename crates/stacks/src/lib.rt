// The two stacks that a caller lends: what an entry is, and how many there may be.
#![tactic(auto)]

ghost use Rattle.std.specs.Prelude.{◌≡◌};
ghost use Rattle.stacks.specs.Limits.{stacks_fit};

/// A record of the binding stack: a symbol, and what its value cell held before.
#[derive(Clone, Copy, PartialEq, Eq, Debug)]
pub struct Binding {
    pub symbol: u32,
    pub value: u32,
}

/// Words that a control stack may have.
pub const CONTROL_LIMIT: usize = 65_536;

/// Records that a binding stack may have.
pub const BINDING_LIMIT: usize = 16_384;

/// How long the two stacks are that a call is lent.
#[derive(Clone, Copy, PartialEq, Eq, Debug)]
pub struct StackLengths {
    pub control: usize,
    pub bindings: usize,
}

impl StackLengths {
    /// Neither stack is over its limit.
    pub fn fit(self) -> bool
        ensures { result ≡ stacks_fit self.control self.bindings }
    {
        self.control <= CONTROL_LIMIT && self.bindings <= BINDING_LIMIT
    }
}
