// The calls that read and write registers and cells.
#![tactic(auto)]

ghost use Rattle.std.specs.Prelude.{◌≡◌, ℕ, Bool, length};
ghost use Rattle.store.specs.View.{table_of, view};
ghost use Rattle.access.specs.Access.{put_done, read_done, write_refused, write_done, told_word, tell_done, same_done, read_only_lows, freeze_done};

use answers::{Refusal, Told};
use cells::{can_take, is_frozen, is_read_only, load, save};
use kinds::Kind;
use memory::WordMemory;
use objects::{Opened, open};
use stacks::StackLengths;
use store::{LAST, Space, Store, is_dynamic, window};
use words::{Literal, NoLiteral};

// Store, memory and stacks stay apart: the store is the heap's and the rest is lent, and a struct of them would be made for each call.
/// Sets a register to a fixnum, a character or null.
#[tactic(auto, unfolding(crate::specs::Access::put_done))]
pub fn put<M: WordMemory>(
    store: &mut Store,
    memory: &M,
    stacks: StackLengths,
    to: u32,
    value: Literal,
) -> Result<(), Refusal>
    ensures does { (space : ℕ) → (view store.new space (M.WordMemory.words memory.now), result)
        ≡ put_done stacks.control stacks.bindings to value (view store.old space (M.WordMemory.words memory.now)) }
{
    store.admit(to <= LAST, memory, stacks)?;
    store.registers[to as usize] = u32::try_from(value)?;
    Ok(())
}

/// Reads a cell or entry into a register.
#[tactic(auto, unfolding(crate::specs::Access::read_done))]
pub fn read<M: WordMemory>(
    store: &mut Store,
    memory: &M,
    stacks: StackLengths,
    to: u32,
    from: u32,
    at: u32,
) -> Result<(), Refusal>
    ensures does { (space : ℕ) → (view store.new space (M.WordMemory.words memory.now), result)
        ≡ read_done stacks.control stacks.bindings to from at (view store.old space (M.WordMemory.words memory.now)) }
{
    store.admit(to <= LAST && from <= LAST, memory, stacks)?;
    let object = open(store, memory, store.registers[from as usize])?;
    if at >= object.cells {
        return Err(Refusal::OutOfBounds);
    }
    let word = load(store, memory, object, at)?;
    store.registers[to as usize] = word;
    Ok(())
}

/// Why cell or entry `at` does not become the word.
#[tactic(auto, unfolding(crate::specs::Access::write_refused))]
fn refuse_write(store: &Store, object: Opened, at: u32, word: u32) -> Result<(), Refusal>
    ensures { result ≡ write_refused (table_of store.now) object at word }
{
    if at >= object.cells {
        return Err(Refusal::OutOfBounds);
    }
    if !can_take(object, at, word) {
        return Err(Refusal::Unfit);
    }
    if is_frozen(store, object) {
        return Err(Refusal::Frozen);
    }
    if is_read_only(object) && is_dynamic(word) {
        return Err(Refusal::DynamicInReadOnly);
    }
    Ok(())
}

/// Writes a register's word into a cell or entry.
#[tactic(auto, unfolding(crate::specs::Access::write_done))]
pub fn write<M: WordMemory>(
    store: &Store,
    memory: &mut M,
    stacks: StackLengths,
    into: u32,
    at: u32,
    value: u32,
) -> Result<(), Refusal>
    ensures does { (space : ℕ) → (view store.now space (M.WordMemory.words memory.new), result)
        ≡ write_done stacks.control stacks.bindings into at value (view store.now space (M.WordMemory.words memory.old)) }
    ensures lender { M.WordMemory.lender memory.new ≡ M.WordMemory.lender memory.old }
{
    store.admit(into <= LAST && value <= LAST, memory, stacks)?;
    let object = open(store, memory, store.registers[into as usize])?;
    let word = store.registers[value as usize];
    refuse_write(store, object, at, word)?;
    save(memory, object, at, word)
}

/// What a word is told to be.
#[tactic(auto, unfolding(crate::specs::Access::told_word))]
fn told<M: WordMemory>(store: &Store, memory: &M, word: u32) -> Result<Told, Refusal>
    ensures { result ≡ told_word (table_of store.now) (M.WordMemory.words memory.now) word }
{
    match Literal::try_from(word) {
        Ok(literal) => Ok(Told::from(literal)),
        Err(NoLiteral) => {
            let object = open(store, memory, word)?;
            let space = if object.space < 2 { 0 } else { object.space };
            Ok(Told::Object {
                code: object.kind.shape().code,
                space,
                cells: object.cells,
            })
        }
    }
}

/// Tells what a register holds.
#[tactic(auto, unfolding(crate::specs::Access::tell_done))]
pub fn tell<M: WordMemory>(
    store: &Store,
    memory: &M,
    stacks: StackLengths,
    of: u32,
) -> Result<Told, Refusal>
    ensures does { (space : ℕ) → (view store.now space (M.WordMemory.words memory.now), result)
        ≡ tell_done stacks.control stacks.bindings of (view store.now space (M.WordMemory.words memory.now)) }
{
    store.admit(of <= LAST, memory, stacks)?;
    told(store, memory, store.registers[of as usize])
}

/// Whether two registers hold one word.
#[tactic(auto, unfolding(crate::specs::Access::same_done))]
pub fn same<M: WordMemory>(
    store: &Store,
    memory: &M,
    stacks: StackLengths,
    left: u32,
    right: u32,
) -> Result<bool, Refusal>
    ensures does { (space : ℕ) → (view store.now space (M.WordMemory.words memory.now), result)
        ≡ same_done stacks.control stacks.bindings left right (view store.now space (M.WordMemory.words memory.now)) }
{
    store.admit(left <= LAST && right <= LAST, memory, stacks)?;
    Ok(store.registers[left as usize] == store.registers[right as usize])
}

/// Read-only objects take no writes from here on.
#[tactic(auto, unfolding(crate::specs::Access::freeze_done))]
pub fn freeze<M: WordMemory>(
    store: &mut Store,
    memory: &M,
    stacks: StackLengths,
) -> Result<(), Refusal>
    ensures does { (space : ℕ) → (view store.new space (M.WordMemory.words memory.now), result)
        ≡ freeze_done stacks.control stacks.bindings (view store.old space (M.WordMemory.words memory.now)) }
{
    store.admit(true, memory, stacks)?;
    store.frozen = read_only_words(store);
    Ok(())
}

/// The read-only words in use, by kind.
fn read_only_words(store: &Store) -> [usize; Kind::COUNT]
    ensures { result ≡ read_only_lows (table_of store.now) }
{
    let words = |kind| store.windows[window(kind, u32::from(Space::ReadOnly))].low;
    [
        words(Kind::UVector),
        words(Kind::String),
        words(Kind::BVector),
        words(Kind::Symbol),
        words(Kind::List),
    ]
}
