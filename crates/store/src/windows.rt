// A window of the memory.
ghost use Rattle.std.specs.Prelude.{◌≡◌, ◌+◌, ◌≤◌};

/// The words of one kind and one space, and which of them are in use.
#[derive(Clone, Copy)]
pub struct Window {
    /// Where it begins in the memory.
    pub start: usize,
    /// Its words.
    pub room: usize,
    /// Words in use from its low end.
    pub low: usize,
    /// Where the words in use at its high end begin.
    pub high: usize,
    ghost within: { (low ≤ high) × (high ≤ room) },
    ghost small: { (room ≤ 65536) × (start + room ≤ 1310720) },
}

impl Window {
    ghost use Rattle.store.specs.Windows.{holds};

    /// These words of it are in use, all at its low end or all at its high end.
    pub fn holds(&self, offset: usize, size: usize) -> bool
        ensures { result ≡ holds self.now offset size }
    {
        offset <= self.room
            && size <= self.room - offset
            && (offset + size <= self.low || self.high <= offset)
    }
}
