// A heap but for its allocation space: windows, cursors and registers.
ghost use Rattle.std.specs.Prelude.{◌≡◌, ◌<◌, map, take, slice_index};
ghost use Rattle.layout.specs.Fresh.{starts_from};
ghost use Rattle.store.specs.declared.windows.Window.{Window};

use super::windows::Window;
use answers::Place;
use kinds::Kind;

/// Registers.
pub const REGISTERS: usize = 16;

/// The number of the last register.
pub const LAST: u32 = 15;

/// Windows: four of each kind.
pub const WINDOWS: usize = 20;

/// The windows, and the registers. Windows stand in order of type code, then of space code.
#[derive(Drop)]
pub struct Store {
    pub windows: [Window; WINDOWS],
    /// Read-only words of each kind that take no writes, from the window's start.
    pub frozen: [usize; Kind::COUNT],
    // A number and no enum: it is a space code, by which the windows of a kind are counted and which pointers hold.
    /// The dynamic space that new objects go to, 0 or 1.
    pub newspace: usize,
    pub registers: [u32; REGISTERS],
    /// Where a word was found that no call could have left.
    pub foreign: Option<Place>,
    // One window follows the other.
    ghost laid: { map (λ (w : Window). w.start) windows ≡ take 20 (starts_from (slice_index (map (λ (w : Window). w.start) windows) 0) (map (λ (w : Window). w.room) windows)) },
    ghost which: { newspace < 2 },
}
