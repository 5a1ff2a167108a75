// The kinds of object: what each contributes, and the one place where they are listed.
#![tactic(auto)]

mod class;
mod kind;
mod list;
mod object_kind;

pub use class::entry_number;
pub use kind::{Class, Kind, UnknownClass, UnknownKind};
pub use object_kind::{
    BVectors, Descriptor, Entries, Lists, ObjectKind, Shape, Strings, Symbols, UVectors,
};
