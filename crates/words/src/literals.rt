// The values that can be written out in a text or in a call.
ghost use Rattle.std.specs.Prelude.{◌≡◌};
ghost use Rattle.std.specs.Result.{result_ok};
ghost use Rattle.words.specs.Literals.{word_of, literal_of};

use crate::{NULL, character_word, fixnum_word};

/// A value that stands in a text or in a call.
#[derive(Clone, Copy, PartialEq, Eq, Debug)]
pub enum Literal {
    /// A number; -134217728 to 134217727 have a word.
    Fixnum(i32),
    /// A character by its code; 0 to 255 have a word.
    Character(u32),
    Null,
}

/// The literal is out of range, so it has no word.
#[derive(Clone, Copy, PartialEq, Eq, Debug)]
pub struct NoWord;

/// The word stands for no literal.
#[derive(Clone, Copy, PartialEq, Eq, Debug)]
pub struct NoLiteral;

impl TryFrom<Literal> for u32 {
    type Error = NoWord;

    ghost try_from_gives = { λ l r. result_ok r ≡ word_of l };

    fn try_from(literal: Literal) -> Result<u32, NoWord> {
        match literal {
            Literal::Fixnum(n @ -0x800_0000..=0x7ff_ffff) => Ok(fixnum_word(n.cast_unsigned())),
            Literal::Character(code @ 0..=255) => Ok(character_word(code)),
            Literal::Null => Ok(NULL),
            Literal::Fixnum(_) | Literal::Character(_) => Err(NoWord),
        }
    }
}

impl TryFrom<u32> for Literal {
    type Error = NoLiteral;

    ghost try_from_gives = { λ w r. result_ok r ≡ literal_of w };

    fn try_from(w: u32) -> Result<Literal, NoLiteral> {
        match w {
            0x1000_0000..=0x1fff_ffff => Ok(Literal::Fixnum((w << 4).cast_signed() >> 4)),
            0x0100_0000..=0x0100_00ff => Ok(Literal::Character(w % 256)),
            NULL => Ok(Literal::Null),
            _ => Err(NoLiteral),
        }
    }
}
