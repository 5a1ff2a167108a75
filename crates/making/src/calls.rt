// The makings, each with its refusals in order.
ghost use Rattle.std.specs.Prelude.{◌≡◌, ℕ, ◌≤◌, length};
ghost use Rattle.spaces.specs.Spaces.{code_of};
ghost use Rattle.store.specs.View.{view};
ghost use Rattle.making.specs.Makings.{string_word, list_made, symbol_made, vector_made, packed_made, string_made, words_made};

use super::make;
use super::object::NewObject;
use answers::Refusal;
use kinds::{Class, Kind};
use memory::WordMemory;
use objects::MAX_COUNT;
use stacks::StackLengths;
use store::{LAST, Space, Store, is_dynamic};
use words::{NULL, TRAP};

/// The last access type.
const LAST_ACCESS: u32 = 4;

/// The access type of strings.
const STRING_ACCESS: u32 = 3;

/// The word points to a string.
#[tactic(auto, unfolding(crate::specs::Makings::string_word))]
fn is_string(w: u32) -> bool
    ensures { result ≡ string_word w }
{
    Class::try_from(w) == Ok(Class::Pointer(Kind::String))
}

// The makings stand side by side, since each has refusals and first words of its own; what they share is in `admit` and `make`.
// Store, memory and stacks stay apart: the store is the heap's and the rest is lent, and a struct of them would be made for each call.
/// Makes a list of what two registers hold.
#[tactic(auto, unfolding(crate::specs::Makings::list_made))]
pub fn make_list<M: WordMemory>(
    store: &mut Store,
    memory: &mut M,
    stacks: StackLengths,
    space: Space,
    to: u32,
    car: u32,
    cdr: u32,
) -> Result<u64, Refusal>
    ensures makes { (view store.new (code_of space) (M.WordMemory.words memory.new), result)
        ≡ list_made stacks.control stacks.bindings to car cdr (view store.old (code_of space) (M.WordMemory.words memory.old)) }
    ensures lender { M.WordMemory.lender memory.new ≡ M.WordMemory.lender memory.old }
{
    store.admit(to <= LAST && car <= LAST && cdr <= LAST, memory, stacks)?;
    let head = [store.registers[car as usize], store.registers[cdr as usize]];
    if space == Space::ReadOnly && (is_dynamic(head[0]) || is_dynamic(head[1])) {
        return Err(Refusal::DynamicInReadOnly);
    }
    let object = NewObject {
        kind: Kind::List,
        space,
        head: &head,
        rest: 0,
        fill: 0,
    };
    make(store, memory, &object, to as usize)
}

/// Makes a symbol whose print name is the string in a register.
#[tactic(auto, unfolding(crate::specs::Makings::symbol_made))]
pub fn make_symbol<M: WordMemory>(
    store: &mut Store,
    memory: &mut M,
    stacks: StackLengths,
    space: Space,
    to: u32,
    name: u32,
) -> Result<u64, Refusal>
    ensures makes { (view store.new (code_of space) (M.WordMemory.words memory.new), result)
        ≡ symbol_made stacks.control stacks.bindings to name (view store.old (code_of space) (M.WordMemory.words memory.old)) }
    ensures lender { M.WordMemory.lender memory.new ≡ M.WordMemory.lender memory.old }
{
    store.admit(to <= LAST && name <= LAST, memory, stacks)?;
    let word = store.registers[name as usize];
    if !is_string(word) {
        return Err(Refusal::WrongKind);
    }
    if space == Space::ReadOnly && is_dynamic(word) {
        return Err(Refusal::DynamicInReadOnly);
    }
    let head = [TRAP, TRAP, NULL, word, NULL, NULL];
    let object = NewObject {
        kind: Kind::Symbol,
        space,
        head: &head,
        rest: 0,
        fill: 0,
    };
    make(store, memory, &object, to as usize)
}

/// Makes a vector of so many entries, each what a register holds.
#[tactic(auto, unfolding(crate::specs::Makings::vector_made))]
pub fn make_vector<M: WordMemory>(
    store: &mut Store,
    memory: &mut M,
    stacks: StackLengths,
    space: Space,
    to: u32,
    count: u32,
    fill: u32,
) -> Result<u64, Refusal>
    ensures makes { (view store.new (code_of space) (M.WordMemory.words memory.new), result)
        ≡ vector_made stacks.control stacks.bindings to count fill (view store.old (code_of space) (M.WordMemory.words memory.old)) }
    ensures lender { M.WordMemory.lender memory.new ≡ M.WordMemory.lender memory.old }
{
    store.admit(to <= LAST && fill <= LAST, memory, stacks)?;
    if count > MAX_COUNT {
        return Err(Refusal::OutOfBounds);
    }
    let word = store.registers[fill as usize];
    if space == Space::ReadOnly && count > 0 && is_dynamic(word) {
        return Err(Refusal::DynamicInReadOnly);
    }
    let head = [words::header_word(count + 1)];
    let object = NewObject {
        kind: Kind::BVector,
        space,
        head: &head,
        rest: count as usize,
        fill: word,
    };
    make(store, memory, &object, to as usize)
}

/// An unboxed object with so many entries, all 0.
#[tactic(auto, unfolding(crate::specs::Makings::packed_made))]
fn make_packed<M: WordMemory>(
    store: &mut Store,
    memory: &mut M,
    kind: Kind,
    space: Space,
    access: u32,
    count: u32,
    to: u32,
) -> Result<u64, Refusal>
    requires { to ≤ 15 }
    ensures makes { (view store.new (code_of space) (M.WordMemory.words memory.new), result)
        ≡ packed_made kind access count to (view store.old (code_of space) (M.WordMemory.words memory.old)) }
    ensures lender { M.WordMemory.lender memory.new ≡ M.WordMemory.lender memory.old }
{
    if count > MAX_COUNT {
        return Err(Refusal::OutOfBounds);
    }
    let packed = words::packed_words(access, count);
    let head = [
        words::header_word(packed + 2),
        words::entries_word(access, count),
    ];
    let object = NewObject {
        kind,
        space,
        head: &head,
        rest: packed as usize,
        fill: 0,
    };
    make(store, memory, &object, to as usize)
}

/// Makes a string of so many characters, all with code 0.
#[tactic(auto, unfolding(crate::specs::Makings::string_made))]
pub fn make_string<M: WordMemory>(
    store: &mut Store,
    memory: &mut M,
    stacks: StackLengths,
    space: Space,
    to: u32,
    count: u32,
) -> Result<u64, Refusal>
    ensures makes { (view store.new (code_of space) (M.WordMemory.words memory.new), result)
        ≡ string_made stacks.control stacks.bindings to count (view store.old (code_of space) (M.WordMemory.words memory.old)) }
    ensures lender { M.WordMemory.lender memory.new ≡ M.WordMemory.lender memory.old }
{
    store.admit(to <= LAST, memory, stacks)?;
    make_packed(store, memory, Kind::String, space, STRING_ACCESS, count, to)
}

/// Makes an unboxed vector of so many entries of an access type, all 0.
#[tactic(auto, unfolding(crate::specs::Makings::words_made))]
pub fn make_words<M: WordMemory>(
    store: &mut Store,
    memory: &mut M,
    stacks: StackLengths,
    space: Space,
    to: u32,
    count: u32,
    access: u32,
) -> Result<u64, Refusal>
    ensures makes { (view store.new (code_of space) (M.WordMemory.words memory.new), result)
        ≡ words_made stacks.control stacks.bindings to count access (view store.old (code_of space) (M.WordMemory.words memory.old)) }
    ensures lender { M.WordMemory.lender memory.new ≡ M.WordMemory.lender memory.old }
{
    store.admit(to <= LAST && access <= LAST_ACCESS, memory, stacks)?;
    make_packed(store, memory, Kind::UVector, space, access, count, to)
}
