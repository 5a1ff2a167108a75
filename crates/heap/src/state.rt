// A heap.
use store::{Space, Store};

/// Where new objects go.
#[derive(Clone, Copy)]
pub struct AllocationSpace {
    pub space: Space,
}

/// A heap over memory and stacks that are lent to each call.
#[derive(Drop)]
pub struct Heap {
    pub(crate) store: Store,
    pub(crate) allocation: AllocationSpace,
}
