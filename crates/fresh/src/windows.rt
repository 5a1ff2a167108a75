// How many words a kind's windows are to have.
ghost use Rattle.std.specs.Prelude.{◌≡◌};
ghost use Rattle.fresh.specs.Windows.{of_kind, narrow};

/// Words that a window may have.
pub const WINDOW_LIMIT: u32 = 65_536;

/// The words of a kind's windows.
#[derive(Clone, Copy)]
pub struct Windows {
    /// Of each of the two dynamic windows.
    pub dynamic: u32,
    /// Of the static window.
    pub fixed: u32,
    /// Of the read-only window.
    pub read_only: u32,
}

impl Windows {
    /// None of the windows is over the limit.
    pub(crate) fn fit(self) -> bool
        ensures { result ≡ narrow self }
    {
        self.dynamic <= WINDOW_LIMIT && self.fixed <= WINDOW_LIMIT && self.read_only <= WINDOW_LIMIT
    }

    /// The words of each, in order of space code.
    pub(crate) fn rooms(self) -> [usize; 4]
        ensures { result ≡ of_kind self }
    {
        [
            self.dynamic as usize,
            self.dynamic as usize,
            self.fixed as usize,
            self.read_only as usize,
        ]
    }
}
