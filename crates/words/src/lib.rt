// The 32-bit formats: the fields of a word, and the words that are made of them.
#![tactic(auto)]

ghost use Rattle.std.specs.Prelude.{◌≡◌, ℕ, ◌+◌, ◌*◌, ◌/◌, ◌%◌, ◌^◌, ◌<◌, ◌≤◌};
ghost use Rattle.words.specs.Figures.{Figures};
ghost use Rattle.words.specs.Words.{type_of, subtype_of, space_of, pointer_of, aligned, pointer_word, forward_word};
ghost use Rattle.words.specs.Words.{fixnum_word, character_word, header_word, entries_word, words_of, access_of, count_of};
ghost use Rattle.words.specs.Words.{low_half, high_half, joined};

pub use entries::{entries_per_word, entry_bits, entry_of, entry_range, packed_words, with_entry};
pub use literals::{Literal, NoLiteral, NoWord};

pub mod entries;
pub mod literals;

/// The null value.
pub const NULL: u32 = 0x0500_0000;

/// The mark of an unset cell.
pub const TRAP: u32 = 0;

/// The `WIDTH` bits of a word from bit `LOW` on.
fn field<const LOW: u32, const WIDTH: u32>(w: u32) -> u32
    requires low { LOW < 32 }
    requires width { WIDTH < 32 }
    ensures { result ≡ w / 2 ^ LOW % 2 ^ WIDTH }
{
    (w >> LOW) % (1 << WIDTH)
}

/// The word with the low `WIDTH` bits of `value` from bit `LOW` on, and 0 elsewhere.
fn in_field<const LOW: u32, const WIDTH: u32>(value: u32) -> u32
    requires low { LOW < 32 }
    requires width { WIDTH < 32 }
    requires inside { WIDTH + LOW ≤ 32 }
    ensures { result ≡ value % 2 ^ WIDTH * 2 ^ LOW }
{
    value % (1 << WIDTH) << LOW
}

/// The type code of a word, its bits 28 to 31.
pub fn type_code(w: u32) -> u32
    ensures { result ≡ type_of w }
{
    field::<28, 4>(w)
}

/// The subtype of a Misc word, its bits 24 to 27.
pub fn subtype(w: u32) -> u32
    ensures { result ≡ subtype_of w }
{
    field::<24, 4>(w)
}

/// The space code of a pointer word, its bits 26 and 27.
pub fn space_code(w: u32) -> u32
    ensures { result ≡ space_of w }
{
    field::<26, 2>(w)
}

/// The words from the window's start to where a pointer word points.
pub fn pointer_offset(w: u32) -> u32
    ensures { result ≡ pointer_of w }
{
    field::<2, 24>(w)
}

/// Whether the two lowest bits are zero.
pub fn is_aligned(w: u32) -> bool
    ensures { result ≡ aligned w }
{
    field::<0, 2>(w) == 0
}

/// The pointer word of this type code, space code and offset; of each only the bits that its field holds are taken.
pub fn pointer_word(code: u32, space: u32, offset: u32) -> u32
    ensures { result ≡ pointer_word (code % 16) (space % 4) (offset % 16777216) }
{
    in_field::<28, 4>(code) + in_field::<26, 2>(space) + in_field::<2, 24>(offset)
}

/// The GC-Forward to a copy at this space and offset.
pub fn forward_word(space: u32, offset: u32) -> u32
    ensures { result ≡ forward_word (space % 4) (offset % 16777216) }
{
    pointer_word(15, space, offset)
}

/// The fixnum with the low 28 bits of `bits` as its data.
pub fn fixnum_word(bits: u32) -> u32
    ensures { result ≡ fixnum_word (bits % 268435456) }
{
    in_field::<28, 4>(1) + in_field::<0, 28>(bits)
}

/// The character with the low 8 bits of `code` as its code.
pub fn character_word(code: u32) -> u32
    ensures { result ≡ character_word (code % 256) }
{
    in_field::<24, 4>(1) + in_field::<0, 8>(code)
}

/// The first word of a vector or string of this many words.
pub fn header_word(words: u32) -> u32
    ensures { result ≡ header_word (words % 16777216) }
{
    in_field::<28, 4>(1) + in_field::<0, 24>(words)
}

/// The second word of an unboxed vector or string.
pub fn entries_word(access: u32, count: u32) -> u32
    ensures { result ≡ entries_word (access % 16) (count % 268435456) }
{
    in_field::<28, 4>(access) + in_field::<0, 28>(count)
}

/// The words in all of the vector or string with this first word.
pub fn header_words(w: u32) -> u32
    ensures { result ≡ words_of w }
{
    field::<0, 24>(w)
}

/// The access type in the second word of an unboxed vector or string; it stands where other words have their type code.
pub fn access_type(w: u32) -> u32
    ensures { result ≡ access_of w }
{
    type_code(w)
}

/// The number of entries in the second word of an unboxed vector or string.
pub fn entry_count(w: u32) -> u32
    ensures { result ≡ count_of w }
{
    field::<0, 28>(w)
}

/// The 16 low bits of a word.
pub fn low_half(w: u32) -> u16
    ensures { result ≡ low_half w }
{
    field::<0, 16>(w) as u16
}

/// The 16 high bits of a word.
pub fn high_half(w: u32) -> u16
    ensures { result ≡ high_half w }
{
    field::<16, 16>(w) as u16
}

/// The word of these halves.
pub fn join_halves(low: u16, high: u16) -> u32
    ensures { result ≡ joined low high }
{
    in_field::<0, 16>(u32::from(low)) + in_field::<16, 16>(u32::from(high))
}

// A fact of its own: the documents name it by this function.
/// The worked figures hold of the formats.
pub fn figures_hold()
    ensures { Figures }
{}
