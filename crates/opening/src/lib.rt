// A part text run on a store, line by line.
#![tactic(auto)]

ghost use Rattle.std.specs.Prelude.{◌≡◌, ℕ, length};
ghost use Rattle.spaces.specs.Spaces.{code_of};
ghost use Rattle.store.specs.View.{view};
ghost use Rattle.lines.specs.Lines.{lines_of};
ghost use Rattle.opening.specs.Opening.{performed, lined, LineRuns, Runs};

use access::{put, read, write};
use answers::{Refusal, TextFault};
use making::{make_list, make_string, make_symbol, make_vector, make_words};
use memory::WordMemory;
use parttext::{Line, Part, Reader};
use stacks::StackLengths;
use store::{Space, Store};

// Store and space are the heap's, memory and stacks the caller's: one struct of them would be made anew for each call.
// A `match`, since the calls are a fixed list and each has arguments of its own.
/// Does what a line spells, new objects going to this space.
#[tactic(auto, unfolding(crate::specs::Opening::performed))]
pub fn perform<M: WordMemory>(
    store: &mut Store,
    memory: &mut M,
    stacks: StackLengths,
    space: Space,
    line: Line,
) -> Result<u64, Refusal>
    ensures performs { (view store.new (code_of space) (M.WordMemory.words memory.new), result)
        ≡ performed stacks.control stacks.bindings line (view store.old (code_of space) (M.WordMemory.words memory.old)) }
    ensures lender { M.WordMemory.lender memory.new ≡ M.WordMemory.lender memory.old }
{
    match line {
        Line::Put { to, value } => {
            put(store, memory, stacks, to, value)?;
            Ok(0)
        }
        Line::List { to, car, cdr } => make_list(store, memory, stacks, space, to, car, cdr),
        Line::Symbol { to, name } => make_symbol(store, memory, stacks, space, to, name),
        Line::Vector { to, count, fill } => make_vector(
            store, memory, stacks, space, to, count, fill,
        ),
        Line::String { to, count } => make_string(store, memory, stacks, space, to, count),
        Line::Words { to, count, access } => make_words(
            store, memory, stacks, space, to, count, access,
        ),
        Line::Read { to, from, at } => {
            read(store, memory, stacks, to, from, at)?;
            Ok(0)
        }
        Line::Write { into, at, value } => {
            write(store, memory, stacks, into, at, value)?;
            Ok(0)
        }
    }
}

/// Does what a line of a text spells.
fn run_line<M: WordMemory>(
    store: &mut Store,
    memory: &mut M,
    stacks: StackLengths,
    space: Space,
    line: Part,
) -> Result<u64, Refusal>
    ensures runs { LineRuns stacks.control stacks.bindings line.entry.bytes.now
        (view store.old (code_of space) (M.WordMemory.words memory.old)) (view store.new (code_of space) (M.WordMemory.words memory.new)) result }
    ensures lender { M.WordMemory.lender memory.new ≡ M.WordMemory.lender memory.old }
{
    perform(store, memory, stacks, space, Line::try_from(line)?)
}

/// A refusal with the line that it came from.
pub fn at_line<T>(line: u64, r: Result<T, Refusal>) -> Result<T, TextFault>
    ensures { result ≡ lined line r }
{
    r.map_err(|refusal| TextFault { line, refusal })
}

/// Does what the lines of a text spell, up to the first that is refused, and answers the sum of their counts.
pub fn run_lines<M: WordMemory>(
    store: &mut Store,
    memory: &mut M,
    stacks: StackLengths,
    space: Space,
    text: &[u8],
) -> Result<u64, TextFault>
    ensures runs { Runs stacks.control stacks.bindings
        (view store.old (code_of space) (M.WordMemory.words memory.old)) 1 0 (lines_of text.now) (view store.new (code_of space) (M.WordMemory.words memory.new)) result }
    ensures lender { M.WordMemory.lender memory.new ≡ M.WordMemory.lender memory.old }
{
    let mut total = 0u64;
    for line in Reader::new(text) {
        let count = at_line(line.line, run_line(store, memory, stacks, space, line))?;
        total = total.saturating_add(count);
    }
    Ok(total)
}
