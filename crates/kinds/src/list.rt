// The one list of all kinds, and what runs over it.
ghost use Rattle.std.specs.Prelude.{◌≡◌, ok_or};
ghost use Rattle.kinds.specs.Kinds.{Describes, kind_of, index, shape_of, size_by, takes, lacks, accessible, entry_word};

use super::kind::{Class, Kind, UnknownKind};
use super::object_kind::{
    BVectors, Descriptor, Lists, ObjectKind, Shape, Strings, Symbols, UVectors,
};

impl TryFrom<u32> for Kind {
    type Error = UnknownKind;

    ghost try_from_gives = { λ code r. r ≡ ok_or (kind_of code) (record {}) };

    fn try_from(code: u32) -> Result<Kind, UnknownKind> {
        match code {
            3 => Ok(Kind::UVector),
            4 => Ok(Kind::String),
            7 => Ok(Kind::BVector),
            10 => Ok(Kind::Symbol),
            11 => Ok(Kind::List),
            _ => Err(UnknownKind),
        }
    }
}

// `descriptor` and `accepts` are one `match` each: no function may hand out a `dyn` value, and a closure cannot be generic over a type.
impl Kind {
    /// How many kinds there are.
    pub const COUNT: usize = 5;

    /// Its place among the kinds, in order of type code.
    pub fn index(self) -> usize
        ensures { result ≡ index self }
    {
        self as usize
    }

    /// The kind in numbers.
    pub fn descriptor(self) -> Descriptor
        ensures { Describes self result }
    {
        match self {
            Kind::UVector => UVectors::DESCRIPTOR,
            Kind::String => Strings::DESCRIPTOR,
            Kind::BVector => BVectors::DESCRIPTOR,
            Kind::Symbol => Symbols::DESCRIPTOR,
            Kind::List => Lists::DESCRIPTOR,
        }
    }

    /// The constants of the kind.
    pub fn shape(self) -> Shape
        ensures { result ≡ shape_of self }
    {
        self.descriptor().shape
    }

    /// The words of an object that begins with this word.
    pub fn size_of(self, first: u32) -> usize
        ensures { result ≡ size_by self first }
    {
        self.descriptor().size_of(first)
    }

    /// A value of this class may be written into this cell.
    pub fn accepts(self, cell: usize, class: Class) -> bool
        ensures { result ≡ takes self cell class }
    {
        match self {
            Kind::UVector => UVectors::accepts(cell, class),
            Kind::String => Strings::accepts(cell, class),
            Kind::BVector => BVectors::accepts(cell, class),
            Kind::Symbol => Symbols::accepts(cell, class),
            Kind::List => Lists::accepts(cell, class),
        }
    }

    /// This cell has no value when its object is made.
    pub fn starts_unset(self, cell: usize) -> bool
        ensures { result ≡ lacks self cell }
    {
        self.descriptor().starts_unset(cell)
    }

    /// Its objects may have this access type.
    pub fn has_access(self, access: u32) -> bool
        ensures { result ≡ accessible self access }
    {
        self.descriptor().has_access(access)
    }

    /// The word of a packed entry, as a value.
    pub fn entry_word(self, entry: u32) -> u32
        ensures { result ≡ entry_word self entry }
    {
        self.descriptor().entry_word(entry)
    }
}
