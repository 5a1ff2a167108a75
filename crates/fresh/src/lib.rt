// The making of a store: its windows laid out one after another, cleared, with nothing in use.
#![tactic(auto)]

ghost use Rattle.std.specs.Prelude.{◌≡◌, ℕ, ◌≤◌, true, List, length, IfOk};
ghost use Rattle.std.specs.List.{AllByRecursion};
ghost use Rattle.layout.specs.Fresh.{fresh_machine};
ghost use Rattle.store.specs.View.{view};
ghost use Rattle.promises.specs.Promise.{Depicts};
ghost use Rattle.fresh.specs.Windows.{lengths, windows_fit, empty_state};
ghost use Rattle.fresh.specs.Made.{LaidOut, viewed, store_made};

use answers::Refusal;
use kinds::Kind;
use memory::{WordMemory, fill};
use stacks::StackLengths;
use store::{REGISTERS, Store, WINDOWS, Window};

mod windows;

pub use windows::{WINDOW_LIMIT, Windows};

/// No window of any kind is over the limit.
fn windows_fit(windows: [Windows; Kind::COUNT]) -> bool
    ensures { result ≡ windows_fit windows }
{
    windows.iter().all(|w| w.fit())
}

/// The words of each window, kind by kind.
fn lengths(windows: [Windows; Kind::COUNT]) -> [usize; WINDOWS]
    ensures { result ≡ lengths windows }
{
    let mut rooms = [0; WINDOWS];
    // By index: after an adapter of `iter_mut` nothing is known of the elements, and `from_fn` would divide to find kind and window.
    for (k, w) in windows.iter().enumerate() {
        rooms[4 * k..4 * k + 4].copy_from_slice(&w.rooms());
    }
    rooms
}

/// Windows of this many words one after another, no word of them in use.
fn lay_out(rooms: [usize; WINDOWS]) -> [Window; WINDOWS]
    requires { AllByRecursion (λ n. n ≤ 65536) rooms }
    ensures { LaidOut result rooms 20 }
{
    let empty = Window {
        start: 0,
        room: 0,
        low: 0,
        high: 0,
    };
    let mut windows = [empty; WINDOWS];
    let mut start = 0;
    // By index: with `map` or `from_fn` the sum so far would be the state of a closure.
    for (i, room) in rooms.iter().enumerate() {
        windows[i] = Window {
            start,
            room: *room,
            low: 0,
            high: *room,
        };
        start += *room;
    }
    windows
}

/// A store with these windows, no word of them in use.
fn empty_store(windows: [Windows; Kind::COUNT]) -> Store
    requires { windows_fit windows ≡ true }
    ensures { (ws : List ℕ) → view result 0 ws ≡ fresh_machine (lengths windows) ws }
{
    Store {
        windows: lay_out(lengths(windows)),
        frozen: [0; Kind::COUNT],
        newspace: 0,
        registers: [words::NULL; REGISTERS],
        foreign: None,
    }
}

/// Makes a store with these windows, in order of type code, and clears their words.
pub fn make_store<M: WordMemory>(
    windows: [Windows; Kind::COUNT],
    memory: &mut M,
    stacks: StackLengths,
) -> Result<Store, Refusal>
    ensures makes { (M.WordMemory.words memory.new, viewed (M.WordMemory.words memory.new) result)
        ≡ store_made windows stacks.control stacks.bindings (M.WordMemory.words memory.old) }
    ensures empty { IfOk result (λ s. Depicts (view s 0 (M.WordMemory.words memory.new)) (empty_state windows)) }
    ensures lender { M.WordMemory.lender memory.new ≡ M.WordMemory.lender memory.old }
{
    if !windows_fit(windows) {
        return Err(Refusal::OutOfBounds);
    }
    let store = empty_store(windows);
    store.admit(true, memory, stacks)?;
    fill(memory, 0, store.end(), 0)?;
    Ok(store)
}
