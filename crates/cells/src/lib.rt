// The cells and entries of opened objects.
#![tactic(auto)]

ghost use Rattle.std.specs.Prelude.{◌≡◌, ℕ, Bool, ◌==◌};
ghost use Rattle.store.specs.View.{table_of};
ghost use Rattle.cells.specs.Cells.{cell_place, entry_place, leads_on, believed, loaded, fits_cell, frozen_cell, saved};

use answers::{Place, Refusal};
use kinds::{Class, entry_number};
use memory::WordMemory;
use objects::Opened;
use store::{Space, Store, is_dynamic};

// Functions and no methods, since `Opened` is another crate's type.
/// The object lies in read-only space.
pub fn is_read_only(object: Opened) -> bool
    ensures { result ≡ (object.space == 3) }
{
    object.space == u32::from(Space::ReadOnly)
}

/// The place of cell `k` of a boxed object.
fn cell_place(object: Opened, k: u32) -> usize
    ensures { result ≡ cell_place object k }
{
    object.base as usize + object.kind.shape().heads + k as usize
}

/// The place of the word with entry `k` of an unboxed object.
fn entry_place(object: Opened, k: u32) -> usize
    ensures { result ≡ entry_place object k }
{
    let word = k / words::entries_per_word(object.access);
    cell_place(object, word)
}

/// A pointer that cell `k` may hold leads to an object in use, and out of read-only space to no dynamic one.
fn leads_on(store: &Store, object: Opened, w: u32, class: Class) -> bool
    ensures { result ≡ leads_on (table_of store.now) object w class }
{
    match class {
        Class::Pointer(_) => store.reaches(w) && !(is_read_only(object) && is_dynamic(w)),
        _ => true,
    }
}

/// The word that cell `k` holds, where a call could have left it there.
#[tactic(auto, unfolding(crate::specs::Cells::believed))]
fn believe(store: &Store, object: Opened, k: u32, w: u32) -> Result<u32, Refusal>
    ensures { result ≡ believed (table_of store.now) object k w }
{
    let kind = object.kind;
    let foreign = Refusal::Foreign(Place::Memory(cell_place(object, k)));
    let class = Class::try_from(w).or(Err(foreign))?;
    if class == Class::Unset && kind.starts_unset(k as usize) {
        return Err(Refusal::Unset);
    }
    if leads_on(store, object, w, class) && kind.accepts(k as usize, class) {
        Ok(w)
    } else {
        Err(foreign)
    }
}

/// The word of cell or entry `k`.
#[tactic(auto, unfolding(crate::specs::Cells::loaded))]
pub fn load<M: WordMemory>(
    store: &Store,
    memory: &M,
    object: Opened,
    k: u32,
) -> Result<u32, Refusal>
    ensures { result ≡ loaded (table_of store.now) (M.WordMemory.words memory.now) object k }
{
    if object.kind.shape().boxed {
        let w = memory.read(cell_place(object, k))?;
        return believe(store, object, k, w);
    }
    let w = memory.read(entry_place(object, k))?;
    Ok(object.kind.entry_word(words::entry_of(w, object.access, k)))
}

/// Cell or entry `k` can take the word.
#[tactic(auto, unfolding(crate::specs::Cells::fits_cell))]
pub fn can_take(object: Opened, k: u32, w: u32) -> bool
    ensures { result ≡ fits_cell object k w }
{
    // A `match`: `is_ok_and` is no plainer, and would need a proof written out.
    match Class::try_from(w) {
        Err(_) => false,
        Ok(class) => object.kind.accepts(k as usize, class)
            && (object.kind.shape().boxed || entry_number(w) < words::entry_range(object.access)),
    }
}

/// The object takes no writes.
#[tactic(auto, unfolding(crate::specs::Cells::frozen_cell))]
pub fn is_frozen(store: &Store, object: Opened) -> bool
    ensures { result ≡ frozen_cell (table_of store.now) object }
{
    is_read_only(object) && (object.offset as usize) < store.frozen[object.kind.index()]
}

/// Cell or entry `k` becomes the word.
#[tactic(auto, unfolding(crate::specs::Cells::saved))]
pub fn save<M: WordMemory>(memory: &mut M, object: Opened, k: u32, w: u32) -> Result<(), Refusal>
    ensures saves { (M.WordMemory.words memory.new, result) ≡ saved object k w (M.WordMemory.words memory.old) }
    ensures lender { M.WordMemory.lender memory.new ≡ M.WordMemory.lender memory.old }
{
    if object.kind.shape().boxed {
        memory.write(cell_place(object, k), w)?;
        return Ok(());
    }
    let place = entry_place(object, k);
    let old = memory.read(place)?;
    memory.write(
        place,
        words::with_entry(old, object.access, k, entry_number(w)),
    )?;
    Ok(())
}
