// The values that a field of a part text can spell: a number, or a fixnum, a character code or null.
#![tactic(auto)]

ghost use Rattle.std.specs.Prelude.{ℕ, List, decimal};
ghost use Rattle.std.specs.Fmt.{signed_decimal};
ghost use Rattle.numerals.specs.Numbers.{Parses, Small, SmallSigned};
ghost use Rattle.literals.specs.Literals.{SmallLiteral, literal_text};
ghost use Rattle.literals.specs.Spelling.{SpellingLaws};
ghost use Rattle.literals.specs.Laws.{number_laws, signed_laws, literal_laws};

use numerals::{NoForm, number, signed_number};
use words::Literal;

/// A value that a field can spell.
pub trait Spelled: Copy {
    // The text of a value.
    ghost spelling: { Self → List ℕ };

    // The values that a text may spell, as those of at most nine digits.
    ghost fits: { Self → Type 0 };

    /// The value that these bytes spell.
    fn parse(text: &[u8]) -> Result<Self, NoForm>
        ensures { Parses spelling fits text.now result };

    // No two values are spelled alike, and no spelling holds a space or ends a line.
    ghost laws: { SpellingLaws spelling fits };
}

impl Spelled for u32 {
    ghost spelling = { decimal };

    ghost fits = { Small };

    ghost laws = { number_laws };

    fn parse(text: &[u8]) -> Result<u32, NoForm> {
        number(text)
    }
}

impl Spelled for i32 {
    ghost spelling = { signed_decimal };

    ghost fits = { SmallSigned };

    ghost laws = { signed_laws };

    fn parse(text: &[u8]) -> Result<i32, NoForm> {
        signed_number(text)
    }
}

impl Spelled for Literal {
    ghost spelling = { literal_text };

    ghost fits = { SmallLiteral };

    ghost laws = { literal_laws };

    /// `f` before a fixnum, `c` before a character code, `n` alone for null.
    fn parse(text: &[u8]) -> Result<Literal, NoForm> {
        match text {
            [b'f', digits @ ..] => i32::parse(digits).map(Literal::Fixnum),
            [b'c', digits @ ..] => u32::parse(digits).map(Literal::Character),
            [b'n'] => Ok(Literal::Null),
            _ => Err(NoForm),
        }
    }
}
