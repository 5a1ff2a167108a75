// New objects: their words written, and their window's cursor moved past them.
#![tactic(auto)]

ghost use Rattle.std.specs.Prelude.{◌≡◌, ℕ, ◌+◌, ◌<◌, ◌≤◌, Bool, cond, length, Ok, ◌==◌, nat_le};
ghost use Rattle.spaces.specs.Spaces.{code_of};
ghost use Rattle.store.specs.View.{table_of, view};
ghost use Rattle.making.specs.Make.{emplaced, room_for, claimed, made};
ghost use Rattle.making.specs.Object.{words_of};

use answers::Refusal;
use kinds::Kind;
use memory::{WordMemory, fill, paste};
use object::NewObject;
use store::{Space, Store, Window, window};

mod calls;
mod object;

pub use calls::{make_list, make_string, make_symbol, make_vector, make_words};

/// A block of two parts fits between a place and the end.
fn fits(len: usize, at: usize, first: usize, second: usize) -> bool
    ensures { result ≡ nat_le (at + (first + second)) len }
{
    at <= len && first <= len - at && second <= len - at - first
}

/// Writes the words of an object, or nothing where they do not fit.
fn emplace<M: WordMemory>(memory: &mut M, at: usize, object: &NewObject) -> Result<(), Refusal>
    ensures emplaces { (M.WordMemory.words memory.new, result) ≡ emplaced at (words_of object.now) (M.WordMemory.words memory.old) }
    ensures lender { M.WordMemory.lender memory.new ≡ M.WordMemory.lender memory.old }
{
    if !fits(memory.len(), at, object.head.len(), object.rest) {
        return Err(Refusal::Short);
    }
    paste(memory, at, object.head)?;
    fill(memory, at + object.head.len(), object.rest, object.fill)?;
    Ok(())
}

/// Where in its window a new object goes.
#[tactic(auto, unfolding(crate::specs::Make::room_for))]
fn room_for(store: &Store, object: &NewObject) -> Result<u32, Refusal>
    ensures { result ≡ room_for (table_of store.now) object.now.kind (code_of object.now.space) (length (words_of object.now)) }
{
    let w = &store.windows[window(object.kind, store.space_now(object.space))];
    let size = object.size();
    if w.high - w.low < size {
        return Err(Refusal::NoRoom);
    }
    Ok(match object.space {
        Space::Dynamic => (w.high - size) as u32,
        _ => w.low as u32,
    })
}

/// A window with a new object's words in use.
fn extended(w: Window, space: Space, offset: usize, size: usize) -> Window
    requires { (w.low ≤ offset) × (offset + size ≤ w.high) }
    ensures low { result.low ≡ cond (code_of space == 0) w.low (offset + size) }
    ensures high { result.high ≡ cond (code_of space == 0) offset w.high }
    ensures rest { (result.start ≡ w.start) × (result.room ≡ w.room) }
{
    // Written out, since a struct with an invariant takes no `..w`.
    let Window {
        start,
        room,
        low,
        high,
    } = w;
    match space {
        Space::Dynamic => Window {
            start,
            room,
            low,
            high: offset,
        },
        _ => Window {
            start,
            room,
            low: offset + size,
            high,
        },
    }
}

/// The words of a new object are in use.
fn claim(store: &mut Store, object: &NewObject, offset: u32)
    requires { room_for (table_of store.old) object.now.kind (code_of object.now.space) (length (words_of object.now)) ≡ Ok offset }
    ensures table { table_of store.new ≡ claimed object.now.kind (code_of object.now.space) offset (length (words_of object.now)) (table_of store.old) }
    ensures registers { store.new.registers ≡ store.old.registers }
    ensures foreign { store.new.foreign ≡ store.old.foreign }
{
    let j = window(object.kind, store.space_now(object.space));
    store.windows[j] = extended(
        store.windows[j],
        object.space,
        offset as usize,
        object.size(),
    );
}

/// Makes an object, and points a register to it.
fn make<M: WordMemory>(
    store: &mut Store,
    memory: &mut M,
    object: &NewObject,
    to: usize,
) -> Result<u64, Refusal>
    requires { to < 16 }
    ensures makes { (view store.new (code_of object.now.space) (M.WordMemory.words memory.new), result)
        ≡ made object.now.kind (code_of object.now.space) (words_of object.now) to (view store.old (code_of object.now.space) (M.WordMemory.words memory.old)) }
    ensures lender { M.WordMemory.lender memory.new ≡ M.WordMemory.lender memory.old }
{
    let offset = room_for(store, object)?;
    let code = store.space_now(object.space);
    let at = store.windows[window(object.kind, code)].start + offset as usize;
    emplace(memory, at, object)?;
    claim(store, object, offset);
    store.registers[to] = words::pointer_word(object.kind.shape().code, code, offset);
    Ok(0)
}
