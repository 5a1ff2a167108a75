// The kinds by name, and the classes of words.

/// The kinds of object, in order of type code.
#[derive(Clone, Copy, PartialEq, Eq, Debug)]
pub enum Kind {
    UVector,
    String,
    BVector,
    Symbol,
    List,
}

/// A type code that no kind has.
#[derive(Clone, Copy, PartialEq, Eq, Debug)]
pub struct UnknownKind;

/// What a word is to a cell that may take it.
#[derive(Clone, Copy, PartialEq, Eq, Debug)]
pub enum Class {
    Fixnum,
    Character,
    Null,
    Unset,
    Pointer(Kind),
}

/// A word that means nothing.
#[derive(Clone, Copy, PartialEq, Eq, Debug)]
pub struct UnknownClass;
