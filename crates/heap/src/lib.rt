// The heap and its calls.
#![tactic(auto)]

ghost use Rattle.std.specs.Prelude.{◌≡◌, ℕ, List, length, is_some, IfOk};
ghost use Rattle.graph.specs.Calls.{put as put_call, read as read_call, write as write_call, tell as tell_call, same as same_call, set_space, freeze as freeze_call};
ghost use Rattle.graph.specs.Calls.{make_list, make_symbol, make_vector, make_string, make_words};
ghost use Rattle.access.specs.Access.{put_done, read_done, write_done, tell_done, same_done, freeze_done, space_done};
ghost use Rattle.making.specs.Makings.{list_made, symbol_made, vector_made, string_made, words_made};
ghost use Rattle.loan.specs.Lent.{GivenBack};
ghost use Rattle.promises.specs.Promise.{Depicts, noted, noted_of};
ghost use Rattle.opening.specs.Opening.{TextRuns, TextPromised};
ghost use Rattle.fresh.specs.Windows.{empty_state};
ghost use Rattle.fresh.specs.Made.{store_made};
ghost use Rattle.store.specs.Checks.{admitted, long_enough};
ghost use Rattle.spaces.specs.Spaces.{space_at};
ghost use Rattle.store.specs.View.{table_of};
ghost use Rattle.heap.specs.View.{machine, admitted_space, shown_by, Performs};

use answers::{Refusal, TextFault, Told};
pub use fresh::Windows;
use fresh::make_store;
use kinds::Kind;
use loan::Loan;
use making::{make_list, make_string, make_symbol, make_vector, make_words};
use memory::WordMemory;
use opening::{at_line, run_lines};
use refused::Refused;
pub use state::{AllocationSpace, Heap};
use store::Space;
use words::Literal;

mod refused;
mod state;

/// Bytes that a text may have.
pub const TEXT_LIMIT: usize = 16_384;

/// Puts the former allocation space back when it ends.
struct SpaceGuard<'a> {
    record: &'a mut AllocationSpace,
    former: Space,
}

impl Drop for SpaceGuard<'_> {
    fn drop(self)
        ensures { self.exit.0.now.space ≡ self.entry.former }
    {
        self.record.space = self.former;
        let SpaceGuard {
            record: _,
            former: _,
        } = self;
    }
}

// Each call has a name and a promise of its own, so the calls stand side by side: the inner function, and then `note`. A function over a
// closure would promise what its closure promises, and each call would say that again.
impl Heap {
    /// Makes a heap with windows of these lengths, kind by kind in order of type code, in a memory of any contents. It clears the
    /// windows' words; registers hold null, and new objects go to dynamic space.
    pub fn new<M: WordMemory>(
        windows: [Windows; Kind::COUNT],
        loan: &mut Loan<M>,
    ) -> Result<Heap, Refusal>
        ensures makes { (M.WordMemory.words loan.new.memory.now, shown_by (M.WordMemory.words loan.new.memory.now) result)
            ≡ store_made windows (length loan.old.control.now) (length loan.old.bindings.now) (M.WordMemory.words loan.old.memory.now) }
        ensures empty { IfOk result (λ h. Depicts (machine h (M.WordMemory.words loan.new.memory.now)) (empty_state windows)) }
        ensures lent { GivenBack M.WordMemory.lender loan.old loan.new }
    {
        let stacks = loan.stack_lengths();
        let store = make_store(windows, loan.memory, stacks)?;
        Ok(Heap {
            store,
            allocation: AllocationSpace {
                space: Space::Dynamic,
            },
        })
    }

    /// Remembers the foreign word that a refusal names.
    fn remember(&mut self, refusal: Refusal)
        ensures { (ws : List ℕ) → machine self.new ws ≡ noted refusal (machine self.old ws) }
    {
        if let Some(place) = refusal.place() {
            self.store.foreign = Some(place);
        }
    }

    /// Remembers a foreign word that a call found.
    fn note<T, E: Refused>(&mut self, r: Result<T, E>) -> Result<T, E>
        ensures same { result ≡ r }
        ensures noted { (ws : List ℕ) → machine self.new ws ≡ noted_of E.cause r (machine self.old ws) }
    {
        if let Err(e) = &r {
            self.remember(e.cause());
        }
        r
    }

    /// Sets a register to a fixnum, a character or null.
    pub fn put<M: WordMemory>(
        &mut self,
        loan: &mut Loan<M>,
        to: u32,
        value: Literal,
    ) -> Result<(), Refusal>
        ensures { Performs M.WordMemory.words M.WordMemory.lender (λ short. put_call short to value) (λ c b. put_done c b to value) self.old loan.old self.new loan.new result }
    {
        let stacks = loan.stack_lengths();
        let r = access::put(&mut self.store, loan.memory, stacks, to, value);
        self.note(r)
    }

    /// Makes a list of what two registers hold. A making answers how many words were cleaned.
    pub fn list<M: WordMemory>(
        &mut self,
        loan: &mut Loan<M>,
        to: u32,
        car: u32,
        cdr: u32,
    ) -> Result<u64, Refusal>
        ensures { Performs M.WordMemory.words M.WordMemory.lender (λ short. make_list short to car cdr) (λ c b. list_made c b to car cdr) self.old loan.old self.new loan.new result }
    {
        let stacks = loan.stack_lengths();
        let space = self.allocation.space;
        let store = &mut self.store;
        let r = make_list(store, loan.memory, stacks, space, to, car, cdr);
        self.note(r)
    }

    /// Makes a symbol whose print name is the string in a register.
    pub fn symbol<M: WordMemory>(
        &mut self,
        loan: &mut Loan<M>,
        to: u32,
        name: u32,
    ) -> Result<u64, Refusal>
        ensures { Performs M.WordMemory.words M.WordMemory.lender (λ short. make_symbol short to name) (λ c b. symbol_made c b to name) self.old loan.old self.new loan.new result }
    {
        let stacks = loan.stack_lengths();
        let space = self.allocation.space;
        let store = &mut self.store;
        let r = make_symbol(store, loan.memory, stacks, space, to, name);
        self.note(r)
    }

    /// Makes a vector of so many entries, each what a register holds.
    pub fn vector<M: WordMemory>(
        &mut self,
        loan: &mut Loan<M>,
        to: u32,
        count: u32,
        fill: u32,
    ) -> Result<u64, Refusal>
        ensures { Performs M.WordMemory.words M.WordMemory.lender (λ short. make_vector short to count fill) (λ c b. vector_made c b to count fill) self.old loan.old self.new loan.new result }
    {
        let stacks = loan.stack_lengths();
        let space = self.allocation.space;
        let store = &mut self.store;
        let r = make_vector(store, loan.memory, stacks, space, to, count, fill);
        self.note(r)
    }

    /// Makes a string of so many characters, all with code 0.
    pub fn string<M: WordMemory>(
        &mut self,
        loan: &mut Loan<M>,
        to: u32,
        count: u32,
    ) -> Result<u64, Refusal>
        ensures { Performs M.WordMemory.words M.WordMemory.lender (λ short. make_string short to count) (λ c b. string_made c b to count) self.old loan.old self.new loan.new result }
    {
        let stacks = loan.stack_lengths();
        let space = self.allocation.space;
        let store = &mut self.store;
        let r = make_string(store, loan.memory, stacks, space, to, count);
        self.note(r)
    }

    /// Makes an unboxed vector of so many entries of an access type, all 0.
    pub fn words<M: WordMemory>(
        &mut self,
        loan: &mut Loan<M>,
        to: u32,
        count: u32,
        access: u32,
    ) -> Result<u64, Refusal>
        ensures { Performs M.WordMemory.words M.WordMemory.lender (λ short. make_words short to count access) (λ c b. words_made c b to count access) self.old loan.old self.new loan.new result }
    {
        let stacks = loan.stack_lengths();
        let space = self.allocation.space;
        let store = &mut self.store;
        let r = make_words(store, loan.memory, stacks, space, to, count, access);
        self.note(r)
    }

    /// Reads a cell or entry of an object into a register.
    pub fn read<M: WordMemory>(
        &mut self,
        loan: &mut Loan<M>,
        to: u32,
        from: u32,
        at: u32,
    ) -> Result<(), Refusal>
        ensures { Performs M.WordMemory.words M.WordMemory.lender (λ short. read_call short to from at) (λ c b. read_done c b to from at) self.old loan.old self.new loan.new result }
    {
        let stacks = loan.stack_lengths();
        let r = access::read(&mut self.store, loan.memory, stacks, to, from, at);
        self.note(r)
    }

    /// Writes what a register holds into a cell or entry of an object.
    pub fn write<M: WordMemory>(
        &mut self,
        loan: &mut Loan<M>,
        into: u32,
        at: u32,
        value: u32,
    ) -> Result<(), Refusal>
        ensures { Performs M.WordMemory.words M.WordMemory.lender (λ short. write_call short into at value) (λ c b. write_done c b into at value) self.old loan.old self.new loan.new result }
    {
        let stacks = loan.stack_lengths();
        let r = access::write(&self.store, loan.memory, stacks, into, at, value);
        self.note(r)
    }

    /// Tells what a register holds.
    pub fn tell<M: WordMemory>(&mut self, loan: &mut Loan<M>, of: u32) -> Result<Told, Refusal>
        ensures { Performs M.WordMemory.words M.WordMemory.lender (λ short. tell_call short of) (λ c b. tell_done c b of) self.old loan.old self.new loan.new result }
    {
        let stacks = loan.stack_lengths();
        let r = access::tell(&self.store, loan.memory, stacks, of);
        self.note(r)
    }

    /// Whether two registers hold one word.
    pub fn same<M: WordMemory>(
        &mut self,
        loan: &mut Loan<M>,
        left: u32,
        right: u32,
    ) -> Result<bool, Refusal>
        ensures { Performs M.WordMemory.words M.WordMemory.lender (λ short. same_call short left right) (λ c b. same_done c b left right) self.old loan.old self.new loan.new result }
    {
        let stacks = loan.stack_lengths();
        let r = access::same(&self.store, loan.memory, stacks, left, right);
        self.note(r)
    }

    /// Read-only objects that there are take no writes from here on.
    pub fn freeze<M: WordMemory>(&mut self, loan: &mut Loan<M>) -> Result<(), Refusal>
        ensures { Performs M.WordMemory.words M.WordMemory.lender (λ short. freeze_call short) (λ c b. freeze_done c b) self.old loan.old self.new loan.new result }
    {
        let stacks = loan.stack_lengths();
        let r = access::freeze(&mut self.store, loan.memory, stacks);
        self.note(r)
    }

    /// The space that a call names, where the call is admitted.
    fn named_space<M: WordMemory>(&self, loan: &Loan<M>, space: u32) -> Result<Space, Refusal>
        ensures { result ≡ admitted_space (admitted self.now.store.foreign (is_some (space_at space)) (long_enough (table_of self.now.store) (length (M.WordMemory.words loan.now.memory.now)) (length loan.now.control.now) (length loan.now.bindings.now))) (space_at space) }
    {
        // The flag first, since a foreign word is answered before an unknown space, and an unknown space before a short memory.
        let named = Space::try_from(space);
        let stacks = loan.stack_lengths();
        self.store.admit(named.is_ok(), loan.memory, stacks)?;
        Ok(named?)
    }

    /// New objects go to this space, where there is one.
    fn change_space<M: WordMemory>(&mut self, loan: &Loan<M>, space: u32) -> Result<(), Refusal>
        ensures { (machine self.new (M.WordMemory.words loan.now.memory.now), result)
            ≡ space_done (length loan.now.control.now) (length loan.now.bindings.now) space (machine self.old (M.WordMemory.words loan.now.memory.now)) }
    {
        self.allocation.space = self.named_space(loan, space)?;
        Ok(())
    }

    /// Sets the space that new objects go to: 0 dynamic, 2 static, 3 read-only.
    pub fn set_space<M: WordMemory>(
        &mut self,
        loan: &mut Loan<M>,
        space: u32,
    ) -> Result<(), Refusal>
        ensures { Performs M.WordMemory.words M.WordMemory.lender (λ short. set_space short space) (λ c b. space_done c b space) self.old loan.old self.new loan.new result }
    {
        let r = self.change_space(loan, space);
        self.note(r)
    }

    /// Runs a text with its objects going to a space, and puts the former space back.
    fn run_text<M: WordMemory>(
        &mut self,
        loan: &mut Loan<M>,
        space: u32,
        text: &[u8],
    ) -> Result<u64, TextFault>
        ensures runs { TextRuns (length loan.old.control.now) (length loan.old.bindings.now) space text.now
            (machine self.old (M.WordMemory.words loan.old.memory.now)) (machine self.new (M.WordMemory.words loan.new.memory.now)) result }
        ensures lent { GivenBack M.WordMemory.lender loan.old loan.new }
    {
        let space = at_line(0, self.named_space(loan, space))?;
        if text.len() > TEXT_LIMIT {
            return Err(TextFault {
                line: 0,
                refusal: Refusal::TooLong,
            });
        }
        let former = self.allocation.space;
        self.allocation.space = space;
        let guard = SpaceGuard {
            record: &mut self.allocation,
            former,
        };
        let stacks = loan.stack_lengths();
        run_lines(
            &mut self.store,
            loan.memory,
            stacks,
            guard.record.space,
            text,
        )
    }

    /// Opens a part text with its objects going to a space, and answers the sum of its lines' counts. A refused line leaves the
    /// work of the lines before it.
    pub fn open_text<M: WordMemory>(
        &mut self,
        loan: &mut Loan<M>,
        space: u32,
        text: &[u8],
    ) -> Result<u64, TextFault>
        ensures promised { TextPromised (length loan.old.control.now) (length loan.old.bindings.now) space text.now
            (machine self.old (M.WordMemory.words loan.old.memory.now)) (machine self.new (M.WordMemory.words loan.new.memory.now)) result }
        ensures lent { GivenBack M.WordMemory.lender loan.old loan.new }
    {
        let r = self.run_text(loan, space, text);
        self.note(r)
    }
}
