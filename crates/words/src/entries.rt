// Entries of 1, 2, 4, 8 or 16 bits packed into words. The access types are 0 to 4; a larger number counts modulo 5.
// No enum of them would be plainer: callers may give any number, and each function only takes its power of two.
ghost use Rattle.std.specs.Prelude.{◌≡◌, ℕ, ◌%◌, ◌^◌};
ghost use Rattle.words.specs.Packing.{bits_of, per_word, packed_count, scale_of, entry_of, with_entry};

/// The bits of one entry.
pub fn entry_bits(access: u32) -> u32
    ensures { result ≡ bits_of (access % 5) }
{
    1 << (access % 5)
}

/// The entries that one word holds.
pub fn entries_per_word(access: u32) -> u32
    ensures { result ≡ per_word (access % 5) }
{
    32 >> (access % 5)
}

/// The words that this many entries take.
pub fn packed_words(access: u32, count: u32) -> u32
    ensures { result ≡ packed_count (access % 5) count }
{
    count.div_ceil(entries_per_word(access))
}

/// One more than the largest entry.
pub fn entry_range(access: u32) -> u32
    ensures { result ≡ 2 ^ bits_of (access % 5) }
{
    1 << entry_bits(access)
}

/// What one step of entry `k` is worth in the word that holds it.
fn entry_scale(access: u32, k: u32) -> u32
    ensures { result ≡ scale_of (access % 5) k }
{
    1 << (entry_bits(access) * (k % entries_per_word(access)))
}

/// Entry `k` of all, read from the word that holds it.
pub fn entry_of(word: u32, access: u32, k: u32) -> u32
    ensures { result ≡ entry_of word (access % 5) k }
{
    word / entry_scale(access, k) % entry_range(access)
}

/// The word that holds entry `k`, with that entry replaced by the low bits of `value`.
pub fn with_entry(word: u32, access: u32, k: u32, value: u32) -> u32
    ensures { result ≡ with_entry word (access % 5) k (value % 2 ^ bits_of (access % 5)) }
{
    let scale = entry_scale(access, k);
    let old = entry_of(word, access, k);
    let new = value % entry_range(access);
    word - old * scale + new * scale
}
