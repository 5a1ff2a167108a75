// The class of a word.
ghost use Rattle.std.specs.Prelude.{◌≡◌, ok_or};
ghost use Rattle.kinds.specs.Kinds.{word_class, entry_number};

use super::kind::{Class, Kind, UnknownClass};

impl TryFrom<u32> for Class {
    type Error = UnknownClass;

    ghost try_from_gives = { λ w r. r ≡ ok_or (word_class w) (record {}) };

    fn try_from(w: u32) -> Result<Class, UnknownClass> {
        match w {
            0x1000_0000..=0x1fff_ffff => Ok(Class::Fixnum),
            words::TRAP => Ok(Class::Unset),
            words::NULL => Ok(Class::Null),
            0x0100_0000..=0x0100_00ff => Ok(Class::Character),
            _ => match Kind::try_from(words::type_code(w)) {
                Ok(kind) if words::is_aligned(w) => Ok(Class::Pointer(kind)),
                _ => Err(UnknownClass),
            },
        }
    }
}

/// The number that a fixnum or a character has in a packed entry.
pub fn entry_number(w: u32) -> u32
    ensures { result ≡ entry_number w }
{
    if words::type_code(w) == 1 {
        words::entry_count(w)
    } else {
        words::header_words(w)
    }
}
