// An object that is to be made.
ghost use Rattle.std.specs.Prelude.{◌+◌, ◌^◌, ◌<◌, length};

use kinds::Kind;
use store::Space;

/// An object that is to be made: its kind, its space and its words, the last ones of which are alike.
#[derive(Clone, Copy)]
pub(crate) struct NewObject<'a> {
    pub(crate) kind: Kind,
    pub(crate) space: Space,
    /// Its first words.
    pub(crate) head: &'a [u32],
    /// How many words follow them.
    pub(crate) rest: usize,
    /// What each word is that follows them.
    pub(crate) fill: u32,
    ghost small: { length head.now + rest < 2 ^ 32 },
}

impl NewObject<'_> {
    ghost use Rattle.std.specs.Prelude.{◌≡◌};
    ghost use Rattle.making.specs.Object.{words_of};

    /// How many words it has.
    pub(crate) fn size(&self) -> usize
        ensures { result ≡ length (words_of self.now) }
    {
        self.head.len() + self.rest
    }
}
