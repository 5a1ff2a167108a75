// What is sent back in place of an answer, with its number.
#![tactic(auto)]

ghost use Rattle.std.specs.Prelude.{◌≡◌, Some};
ghost use Rattle.answers.specs.Numbers.{number_of, place_of};
ghost use Rattle.answers.specs.Shown.{fault_shown, told_shown};
ghost use Rattle.answers.specs.Telling.{told_of};
ghost use Rattle.answers.specs.declared.Refusal.TheVariants.{Unknown, WrongKind, OutOfBounds, Short, NoForm as no_form};

use kinds::UnknownKind;
use memory::OutOfRange;
use numerals::NoForm;
use spaces::UnknownSpace;
use std::fmt;
use words::{Literal, NoWord};

/// What a register holds.
#[derive(Clone, Copy, PartialEq, Eq, Debug)]
pub enum Told {
    Fixnum(i32),
    Character(u32),
    Null,
    // Numbers and no enums: a listing is made of any type code, also of one that no kind has.
    /// An object: the type code of its kind, its space (0 for both dynamic ones), how many cells or entries it has.
    Object { code: u32, space: u32, cells: u32 },
}

/// A value as a part text writes it, an object by the type code of its kind.
impl fmt::Display for Told {
    ghost output = { λ told. Some (told_shown told) };

    fn fmt<W: fmt::Write>(&self, f: &mut fmt::Formatter<W>) -> fmt::Result {
        match self {
            Told::Fixnum(value) => write!(f, "f{value}"),
            Told::Character(code) => write!(f, "c{code}"),
            Told::Null => f.write_str("n"),
            Told::Object { code, .. } => write!(f, "o{code}"),
        }
    }
}

/// What a register holds that is no object.
impl From<Literal> for Told {
    ghost from_gives = { λ literal r. r ≡ told_of literal };

    fn from(literal: Literal) -> Told {
        match literal {
            Literal::Fixnum(value) => Told::Fixnum(value),
            Literal::Character(code) => Told::Character(code),
            Literal::Null => Told::Null,
        }
    }
}

/// Where a word lies that no call could have left.
#[derive(Clone, Copy, PartialEq, Eq, Debug)]
pub enum Place {
    /// This word of the memory.
    Memory(usize),
    /// This entry of the control stack.
    Control(usize),
    /// This record of the binding stack.
    Binding(usize),
}

/// Why a call was refused.
#[derive(Clone, Copy, PartialEq, Eq, Debug)]
pub enum Refusal {
    /// A register above 15, an unknown space, an access type above 4.
    Unknown,
    /// No object, or one of a kind that the call does not take.
    WrongKind,
    /// An index, a window, a put value or a count out of range.
    OutOfBounds,
    /// The cell that is read has no value.
    Unset,
    /// The cell or entry cannot take the word.
    Unfit,
    /// A frozen object would be written, or a read-only symbol bound.
    Frozen,
    /// A read-only object would hold a dynamic pointer.
    DynamicInReadOnly,
    /// No room, and no cycle under way that could make some.
    NoRoom,
    /// No room in dynamic space while words are dirty.
    NoRoomYet,
    /// The stack is full, or 32 edits are open.
    Full,
    /// The stack is empty.
    Empty,
    /// No edit is open, or a token's depth is not the newest.
    NoEdit,
    /// A ticket of another heap.
    WrongTicket,
    /// Words are dirty.
    Dirty,
    /// The memory is shorter than the windows, or a stack is over its limit or under its use.
    Short,
    /// A line of no form.
    NoForm,
    /// A word that no call could have left.
    Foreign(Place),
    /// A text over the limit.
    TooLong,
}

impl Refusal {
    // A method and no `From`: the number is one thing told of a refusal, its place another.
    /// The number that users know the refusal by.
    pub fn number(self) -> u32
        ensures { result ≡ number_of self }
    {
        match self {
            Refusal::Unknown => 1,
            Refusal::WrongKind => 2,
            Refusal::OutOfBounds => 3,
            Refusal::Unset => 4,
            Refusal::Unfit => 5,
            Refusal::Frozen => 6,
            Refusal::DynamicInReadOnly => 7,
            Refusal::NoRoom => 8,
            Refusal::NoRoomYet => 9,
            Refusal::Full => 10,
            Refusal::Empty => 11,
            Refusal::NoEdit => 12,
            Refusal::WrongTicket => 13,
            Refusal::Dirty => 14,
            Refusal::Short => 15,
            Refusal::NoForm => 16,
            Refusal::Foreign(_) => 17,
            Refusal::TooLong => 18,
        }
    }

    /// The place of the foreign word that the refusal names.
    pub fn place(self) -> Option<Place>
        ensures { result ≡ place_of self }
    {
        match self {
            Refusal::Foreign(place) => Some(place),
            _ => None,
        }
    }
}

/// A refused line of a text, from 1, and why it was refused; line 0 where the text was refused before any line.
#[derive(Clone, Copy, PartialEq, Eq, Debug)]
pub struct TextFault {
    pub line: u64,
    pub refusal: Refusal,
}

/// The refused line, and the refusal by its number.
impl fmt::Display for TextFault {
    ghost output = { λ fault. Some (fault_shown fault) };

    fn fmt<W: fmt::Write>(&self, f: &mut fmt::Formatter<W>) -> fmt::Result {
        write!(f, "line={} refusal={}", self.line, self.refusal.number())
    }
}

/// A number that no space has.
impl From<UnknownSpace> for Refusal {
    ghost from_gives = { λ _ r. r ≡ Unknown };

    fn from(_fault: UnknownSpace) -> Refusal {
        Refusal::Unknown
    }
}

/// A literal that has no word.
impl From<NoWord> for Refusal {
    ghost from_gives = { λ _ r. r ≡ OutOfBounds };

    fn from(_fault: NoWord) -> Refusal {
        Refusal::OutOfBounds
    }
}

/// A type code that no kind has: the word leads to no object.
impl From<UnknownKind> for Refusal {
    ghost from_gives = { λ _ r. r ≡ WrongKind };

    fn from(_fault: UnknownKind) -> Refusal {
        Refusal::WrongKind
    }
}

/// A place that the memory does not have: it is shorter than the windows.
impl From<OutOfRange> for Refusal {
    ghost from_gives = { λ _ r. r ≡ Short };

    fn from(_fault: OutOfRange) -> Refusal {
        Refusal::Short
    }
}

/// A line that spells no call.
impl From<NoForm> for Refusal {
    ghost from_gives = { λ _ r. r ≡ no_form };

    fn from(_fault: NoForm) -> Refusal {
        Refusal::NoForm
    }
}
