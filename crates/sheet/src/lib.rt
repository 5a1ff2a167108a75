// A part text opened on a heap of its own, and what its registers then hold.
#![tactic(auto)]

ghost use Rattle.std.specs.Prelude.{◌≡◌, ℕ, ◌<◌, length, IfOk, string_bytes, MatchResult};
ghost use Rattle.graph.specs.Calls.{State, told, register as register_of};
ghost use Rattle.heap.specs.View.{machine};
ghost use Rattle.loan.specs.Lent.{GivenBack};
ghost use Rattle.sheet.specs.Sheet.{Still, Unstacked, all_told, sheet_windows, Gives, Sheet};
ghost use Rattle.fresh.specs.Windows.{empty_state};

use answers::{TextFault, Told};
use heap::{Heap, Windows};
use kinds::Kind;
use listing::{fault_line, listing_of};
use loan::Loan;
use memory::{WordMemory, Words};
use opening::at_line;
use std::alloc::{AllocError, Global};
use store::REGISTERS;

/// What a register of a heap in order holds.
fn told<M: WordMemory>(heap: &mut Heap, loan: &mut Loan<M>, register: u32) -> Told
    requires { (register < 16) × Unstacked loan.old × ((s : State) × Still (machine heap.old (M.WordMemory.words loan.old.memory.now)) s) }
    ensures told { (s : State) → Still (machine heap.old (M.WordMemory.words loan.old.memory.now)) s →
        (result ≡ told s (register_of s register)) × Still (machine heap.new (M.WordMemory.words loan.new.memory.now)) s }
    ensures lent { GivenBack M.WordMemory.lender loan.old loan.new }
{
    heap.tell(loan, register).unwrap()
}

/// What every register of a heap in order holds.
fn tell_all<M: WordMemory>(heap: &mut Heap, loan: &mut Loan<M>) -> [Told; REGISTERS]
    requires { Unstacked loan.old × ((s : State) × Still (machine heap.old (M.WordMemory.words loan.old.memory.now)) s) }
    ensures { (s : State) → Still (machine heap.old (M.WordMemory.words loan.old.memory.now)) s → result ≡ all_told s }
{
    let mut all = [Told::Null; REGISTERS];
    // By index: with `from_fn` the heap and the loan would be the state of a closure, and their promise one over its turns.
    for r in 0..16u32 {
        all[r as usize] = told(heap, loan, r);
    }
    all
}

/// Words of the memory: two dynamic windows of 512 words for each kind.
const MEMORY: usize = 5120;

/// A heap with dynamic windows of 512 words for each kind.
fn sheet_heap<M: WordMemory>(loan: &mut Loan<M>) -> Result<Heap, TextFault>
    requires { (length (M.WordMemory.words loan.old.memory.now) ≡ 5120) × Unstacked loan.old }
    ensures made { MatchResult result (λ h. Still (machine h (M.WordMemory.words loan.new.memory.now)) (empty_state sheet_windows)) (λ _. ⊥) }
    ensures lent { GivenBack M.WordMemory.lender loan.old loan.new }
{
    let windows = Windows {
        dynamic: 512,
        fixed: 0,
        read_only: 0,
    };
    at_line(0, Heap::new([windows; Kind::COUNT], loan))
}

/// Opens a text on a heap with dynamic windows of 512 words for each kind, and tells what its registers then hold.
fn run_sheet<M: WordMemory>(loan: &mut Loan<M>, text: &[u8]) -> Result<[Told; REGISTERS], TextFault>
    requires { (length (M.WordMemory.words loan.old.memory.now) ≡ 5120) × Unstacked loan.old }
    ensures { Gives text.now result }
{
    let mut heap = sheet_heap(loan)?;
    heap.open_text(loan, 0, text)?;
    Ok(tell_all(&mut heap, loan))
}

/// The sheet of a part text: a line for each register that is not null, or the line that was refused.
pub fn sheet_of(alloc: Global, text: &[u8]) -> Result<String, AllocError>
    ensures { IfOk result (λ s. Sheet text.now (string_bytes s)) }
{
    let mut words = vec![in alloc; 0u32; MEMORY]?;
    let mut memory = Words(words.as_mut_slice());
    let mut loan = Loan {
        memory: &mut memory,
        control: &mut [],
        bindings: &mut [],
    };
    match run_sheet(&mut loan, text) {
        Ok(told) => listing_of(alloc, &told),
        Err(fault) => fault_line(alloc, fault),
    }
}
