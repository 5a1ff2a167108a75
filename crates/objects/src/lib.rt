// Objects in memory: opened by a word, their cells read and written.
#![tactic(auto)]

ghost use Rattle.std.specs.Prelude.{◌≡◌, ℕ, ◌^◌, ◌<◌};
ghost use Rattle.store.specs.View.{table_of};
ghost use Rattle.objects.specs.Open.{headed, boxed_cells, packed_cells, measured, located, extent, opened};

use answers::{Place, Refusal};
use kinds::Kind;
use memory::WordMemory;
pub use opened::Opened;
use store::{Store, window};

mod opened;

/// A vector, a string or words have at most this many entries.
pub const MAX_COUNT: u32 = 65_534;

fn foreign(place: usize) -> Refusal
    ensures { result ≡ Refusal.Foreign (Place.Memory place) }
{
    Refusal::Foreign(Place::Memory(place))
}

/// The first word is a header, where the kind has one.
fn is_headed(kind: Kind, first: u32) -> bool
    ensures { result ≡ headed kind first }
{
    kind.shape().heads == 0 || first / 0x100_0000 == 16
}

/// The cells of a boxed object of this many words.
fn boxed_cells(kind: Kind, size: usize) -> Option<u32>
    ensures { result ≡ boxed_cells kind size }
{
    let heads = kind.shape().heads;
    if size < heads || size - heads > MAX_COUNT as usize {
        return None;
    }
    Some((size - heads) as u32)
}

/// The entries of an unboxed object of this many words, with this second word.
fn packed_cells(kind: Kind, size: usize, second: u32) -> Option<u32>
    ensures { result ≡ packed_cells kind size second }
{
    let access = words::access_type(second);
    let count = words::entry_count(second);
    if !kind.has_access(access)
        || count > MAX_COUNT
        || size != kind.shape().heads + words::packed_words(access, count) as usize
    {
        return None;
    }
    Some(count)
}

/// The cells and access type of an object, from its head.
#[tactic(auto, unfolding(crate::specs::Open::measured))]
fn measure<M: WordMemory>(
    memory: &M,
    kind: Kind,
    base: u32,
    size: usize,
) -> Result<(u32, u32), Refusal>
    ensures { result ≡ measured (M.WordMemory.words memory.now) kind base size }
{
    if kind.shape().boxed {
        let cells = boxed_cells(kind, size).ok_or(foreign(base as usize))?;
        return Ok((cells, 0));
    }
    let second = memory.read(base as usize + 1)?;
    let cells = packed_cells(kind, size, second).ok_or(foreign(base as usize + 1))?;
    Ok((cells, words::access_type(second)))
}

// Kind, space and offset are taken from the word where they are wanted: a struct of them would hold no more than the word.
/// The place that a word of this kind points to.
#[tactic(auto, unfolding(crate::specs::Open::located))]
fn locate(store: &Store, kind: Kind, w: u32) -> u32
    ensures { result ≡ located (table_of store.now) kind w }
{
    store.windows[window(kind, words::space_code(w))].start as u32 + words::pointer_offset(w)
}

/// The words of the object of this kind that a word points to.
#[tactic(auto, unfolding(crate::specs::Open::extent))]
fn extent<M: WordMemory>(store: &Store, memory: &M, kind: Kind, w: u32) -> Result<usize, Refusal>
    ensures { result ≡ extent (table_of store.now) (M.WordMemory.words memory.now) kind w }
{
    let base = locate(store, kind, w) as usize;
    let j = window(kind, words::space_code(w));
    let offset = words::pointer_offset(w) as usize;
    if !store.in_use(j, offset, kind.shape().least) {
        return Err(foreign(base));
    }
    let first = memory.read(base)?;
    let size = kind.size_of(first);
    if is_headed(kind, first) && store.in_use(j, offset, size) {
        Ok(size)
    } else {
        Err(foreign(base))
    }
}

/// The object that a word leads to.
#[tactic(auto, unfolding(crate::specs::Open::opened))]
pub fn open<M: WordMemory>(store: &Store, memory: &M, w: u32) -> Result<Opened, Refusal>
    ensures { result ≡ opened (table_of store.now) (M.WordMemory.words memory.now) w }
{
    let kind = Kind::try_from(words::type_code(w))?;
    let size = extent(store, memory, kind, w)?;
    let base = locate(store, kind, w);
    let (cells, access) = measure(memory, kind, base, size)?;
    Ok(Opened {
        kind,
        space: words::space_code(w),
        offset: words::pointer_offset(w),
        base,
        cells,
        access,
    })
}
