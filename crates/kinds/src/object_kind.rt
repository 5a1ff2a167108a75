// What a kind of object contributes, and the five kinds.
ghost use Rattle.std.specs.Prelude.{◌≡◌, cond, ◌==◌, nat_lt, nat_le, ◌&&◌, ◌%◌};
ghost use Rattle.std.proofs.Common.{rules};
ghost use Rattle.kinds.specs.declared.kind.Kind.{Kind};
ghost use Rattle.kinds.specs.declared.kind.Kind.TheVariants.{UVector, String, BVector, Symbol, List};
ghost use Rattle.kinds.specs.declared.object_kind.Descriptor.{Descriptor};
ghost use Rattle.kinds.specs.declared.object_kind.TheConstants.{UVECTOR, STRING, BVECTOR, SYMBOL, LIST};
ghost use Rattle.words.specs.Words.{words_of, count_of, fixnum_word, character_word};
ghost use Rattle.kinds.specs.Kinds.{Describes, takes};

use super::kind::{Class, Kind};

/// The constants of a kind.
#[derive(Clone, Copy)]
pub struct Shape {
    /// The type code of its pointers.
    pub code: u32,
    /// Its cells are words that hold values; else they are entries packed into words.
    pub boxed: bool,
    /// Words before the cells.
    pub heads: usize,
    /// Words of its smallest object, and of each of its objects where no word stands before the cells.
    pub least: usize,
}

/// The packed entries of a kind's objects.
#[derive(Clone, Copy)]
pub struct Entries {
    /// The least access type of an object.
    pub least_access: u32,
    /// The greatest access type of an object.
    pub greatest_access: u32,
    /// They are characters; else they are fixnums.
    pub characters: bool,
}

/// A kind in numbers: all that it contributes but for what its cells take.
#[derive(Clone, Copy)]
pub struct Descriptor {
    pub shape: Shape,
    /// How many cells, from the first on, have no value when an object is made.
    pub unset: usize,
    pub entries: Entries,
}

impl Descriptor {
    /// The words of an object that begins with this word.
    pub fn size_of(self, first: u32) -> usize
        ensures { result ≡ cond (self.shape.heads == 0) self.shape.least (words_of first) }
    {
        if self.shape.heads == 0 {
            self.shape.least
        } else {
            words::header_words(first) as usize
        }
    }

    /// This cell has no value when its object is made.
    pub fn starts_unset(self, cell: usize) -> bool
        ensures { result ≡ nat_lt cell self.unset }
    {
        cell < self.unset
    }

    /// Its objects may have this access type.
    pub fn has_access(self, access: u32) -> bool
        ensures { result ≡ (nat_le self.entries.least_access access && nat_le access self.entries.greatest_access) }
    {
        (self.entries.least_access..=self.entries.greatest_access).contains(&access)
    }

    /// The word of a packed entry, as a value.
    pub fn entry_word(self, entry: u32) -> u32
        ensures { result ≡ cond self.entries.characters (character_word (entry % 256)) (fixnum_word (count_of entry)) }
    {
        if self.entries.characters {
            words::character_word(entry)
        } else {
            words::fixnum_word(entry)
        }
    }
}

/// A kind of object: its descriptor, and what its cells take.
pub trait ObjectKind {
    /// The kind in numbers.
    const DESCRIPTOR: Descriptor;

    // The kind that this is.
    ghost kind: { Kind };

    ghost DESCRIPTOR: { Descriptor };

    /// A value of this class may be written into this cell.
    fn accepts(cell: usize, class: Class) -> bool
        ensures { result ≡ takes kind cell class };

    // The descriptor is that of the kind.
    ghost described: { Describes kind DESCRIPTOR };
}

// The entries of a boxed kind, which has none: a value and no `Option`, since its access type is asked for as well.
const NO_ENTRIES: Entries = Entries {
    least_access: 0,
    greatest_access: 0,
    characters: false,
};

/// Packed entries of 1, 2, 4, 8 or 16 bits, each an unsigned fixnum.
pub struct UVectors;

const UVECTOR: Descriptor = Descriptor {
    shape: Shape {
        code: 3,
        boxed: false,
        heads: 2,
        least: 2,
    },
    unset: 0,
    entries: Entries {
        least_access: 0,
        greatest_access: 4,
        characters: false,
    },
};

impl ObjectKind for UVectors {
    const DESCRIPTOR: Descriptor = UVECTOR;

    ghost kind = { UVector };

    ghost DESCRIPTOR = { UVECTOR };

    ghost described = { Prim.search rules };

    fn accepts(_cell: usize, class: Class) -> bool {
        matches!(class, Class::Fixnum)
    }
}

/// Packed characters of 8 bits.
pub struct Strings;

const STRING: Descriptor = Descriptor {
    shape: Shape {
        code: 4,
        boxed: false,
        heads: 2,
        least: 2,
    },
    unset: 0,
    entries: Entries {
        least_access: 3,
        greatest_access: 3,
        characters: true,
    },
};

impl ObjectKind for Strings {
    const DESCRIPTOR: Descriptor = STRING;

    ghost kind = { String };

    ghost DESCRIPTOR = { STRING };

    ghost described = { Prim.search rules };

    fn accepts(_cell: usize, class: Class) -> bool {
        matches!(class, Class::Character)
    }
}

/// A header and boxed entries.
pub struct BVectors;

const BVECTOR: Descriptor = Descriptor {
    shape: Shape {
        code: 7,
        boxed: true,
        heads: 1,
        least: 1,
    },
    unset: 0,
    entries: NO_ENTRIES,
};

impl ObjectKind for BVectors {
    const DESCRIPTOR: Descriptor = BVECTOR;

    ghost kind = { BVector };

    ghost DESCRIPTOR = { BVECTOR };

    ghost described = { Prim.search rules };

    fn accepts(_cell: usize, class: Class) -> bool {
        !matches!(class, Class::Unset)
    }
}

/// Six cells: value, definition, property list, print name, package, hash.
pub struct Symbols;

const SYMBOL: Descriptor = Descriptor {
    shape: Shape {
        code: 10,
        boxed: true,
        heads: 0,
        least: 6,
    },
    unset: 2,
    entries: NO_ENTRIES,
};

impl ObjectKind for Symbols {
    const DESCRIPTOR: Descriptor = SYMBOL;

    ghost kind = { Symbol };

    ghost DESCRIPTOR = { SYMBOL };

    ghost described = { Prim.search rules };

    fn accepts(cell: usize, class: Class) -> bool {
        match cell {
            2 => matches!(class, Class::Null | Class::Pointer(Kind::List)),
            3 => matches!(class, Class::Pointer(Kind::String)),
            _ => !matches!(class, Class::Unset),
        }
    }
}

/// Two cells: car and cdr.
pub struct Lists;

const LIST: Descriptor = Descriptor {
    shape: Shape {
        code: 11,
        boxed: true,
        heads: 0,
        least: 2,
    },
    unset: 0,
    entries: NO_ENTRIES,
};

impl ObjectKind for Lists {
    const DESCRIPTOR: Descriptor = LIST;

    ghost kind = { List };

    ghost DESCRIPTOR = { LIST };

    ghost described = { Prim.search rules };

    fn accepts(_cell: usize, class: Class) -> bool {
        !matches!(class, Class::Unset)
    }
}
