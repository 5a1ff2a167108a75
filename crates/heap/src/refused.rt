// Errors that a call may answer.
ghost use Rattle.std.specs.Prelude.{◌≡◌};
ghost use Rattle.answers.specs.declared.Refusal.{Refusal};

use answers::{Refusal, TextFault};

/// An error that comes from a refusal.
pub(crate) trait Refused {
    ghost cause: { Self → Refusal };

    /// The refusal that it comes from.
    fn cause(&self) -> Refusal
        ensures { result ≡ cause self.now };
}

impl Refused for Refusal {
    ghost cause = { λ e. e };

    fn cause(&self) -> Refusal {
        *self
    }
}

impl Refused for TextFault {
    ghost cause = { λ e. e.refusal };

    fn cause(&self) -> Refusal {
        self.refusal
    }
}
