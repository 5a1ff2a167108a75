// Worked figures of the calls, as a shop would meet them.
#![tactic(auto)]

mod refusals;
#[cfg(test)]
mod shared;

#[cfg(test)]
mod tests {
    use crate::shared::{EMPTY, alone, lent};
    use answers::{Refusal, TextFault, Told};
    use heap::{Heap, Windows};
    use kinds::Kind;
    use loan::Loan;
    use memory::{Halves, WordMemory, Words};
    use std::process::Abort;
    use std::test::Fail;
    use words::Literal;

    // The number of a refusal, 0 where the call was granted.
    fn number<T: Drop>(r: Result<T, Refusal>) -> u32 {
        match r {
            Ok(_) => 0,
            Err(refusal) => refusal.number(),
        }
    }

    fn told_space(r: Result<Told, Refusal>) -> u32 {
        match r {
            Ok(Told::Object { space, .. }) => space,
            _ => 99,
        }
    }

    fn fault(r: Result<u64, TextFault>) -> (u64, u32) {
        match r {
            Ok(_) => (0, 0),
            Err(fault) => (fault.line, fault.refusal.number()),
        }
    }

    #[test]
    fn three_lists_fit_six_words_and_a_fourth_is_refused(rt: HostRuntime) -> Result<(), Fail> {
        let mut words = [7u32; 12];
        let mut memory = Words(&mut words);
        let mut loan = lent(&mut memory);
        let windows = alone(
            Kind::List,
            Windows {
                dynamic: 6,
                ..EMPTY
            },
        );
        let mut heap = Heap::new(windows, &mut loan)?;
        heap.put(&mut loan, 0, Literal::Fixnum(7))?;
        assert!(rt; number(heap.list(&mut loan, 1, 0, 0)) == 0);
        assert!(rt; number(heap.list(&mut loan, 2, 0, 0)) == 0);
        assert!(rt; number(heap.list(&mut loan, 3, 0, 0)) == 0);
        assert!(rt; number(heap.list(&mut loan, 4, 0, 0)) == 8);
        Ok(())
    }

    #[test]
    fn a_refused_line_puts_the_dynamic_space_back(rt: HostRuntime) -> Result<(), Fail> {
        let mut halves = [0u16; 24];
        let mut memory = Halves(&mut halves);
        let mut loan = lent(&mut memory);
        let windows = alone(
            Kind::List,
            Windows {
                dynamic: 6,
                ..EMPTY
            },
        );
        let mut heap = Heap::new(windows, &mut loan)?;
        let text = b"op=put to=0 value=f7\nop=list to=1 car=0 cdr=0\n";
        let (line, refusal) = fault(heap.open_text(&mut loan, 2, text));
        assert!(rt; line == 2 && refusal == 8);
        assert!(rt; number(heap.list(&mut loan, 1, 0, 0)) == 0);
        assert!(rt; told_space(heap.tell(&mut loan, 1)) == 0);
        Ok(())
    }

    #[test]
    fn the_smaller_number_comes_back_but_a_short_loan_comes_before_the_kind(
        rt: HostRuntime,
    ) -> Result<(), Fail> {
        let mut words = [0u32; 12];
        let windows = alone(
            Kind::List,
            Windows {
                dynamic: 6,
                ..EMPTY
            },
        );
        let mut memory = Words(&mut words);
        let mut loan = lent(&mut memory);
        let mut heap = Heap::new(windows, &mut loan)?;
        let mut few = [0u32; 11];
        let mut short_memory = Words(&mut few);
        let mut short = lent(&mut short_memory);
        assert!(rt; number(heap.read(&mut short, 16, 0, 0)) == 1);
        assert!(rt; number(heap.read(&mut short, 0, 0, 0)) == 15);
        assert!(rt; number(heap.read(&mut loan, 0, 0, 9)) == 2);
        assert!(rt; number(heap.put(&mut loan, 0, Literal::Character(256))) == 3);
        assert!(rt; number(heap.vector(&mut loan, 0, 65_535, 0)) == 3);
        assert!(rt; number(heap.symbol(&mut loan, 0, 0)) == 2);
        Ok(())
    }

    #[test]
    fn a_foreign_header_is_found_and_remembered(rt: HostRuntime) -> Result<(), Fail> {
        let mut words = [0u32; 12];
        let mut memory = Words(&mut words);
        let mut loan = lent(&mut memory);
        let windows = alone(
            Kind::BVector,
            Windows {
                dynamic: 6,
                ..EMPTY
            },
        );
        let mut heap = Heap::new(windows, &mut loan)?;
        assert!(rt; number(heap.vector(&mut loan, 0, 2, 1)) == 0);
        loan.memory.write(3, 0x1000_0009)?;
        assert!(rt; number(heap.read(&mut loan, 1, 0, 0)) == 17);
        loan.memory.write(3, 0x1000_0003)?;
        assert!(rt; number(heap.put(&mut loan, 0, Literal::Null)) == 17);
        Ok(())
    }

    #[test]
    fn a_foreign_cell_is_found(rt: HostRuntime) -> Result<(), Fail> {
        let mut words = [0u32; 12];
        let mut memory = Words(&mut words);
        let mut loan = lent(&mut memory);
        let windows = alone(
            Kind::List,
            Windows {
                dynamic: 6,
                ..EMPTY
            },
        );
        let mut heap = Heap::new(windows, &mut loan)?;
        assert!(rt; number(heap.list(&mut loan, 0, 1, 1)) == 0);
        loan.memory.write(4, 0xB000_0000)?;
        assert!(rt; number(heap.read(&mut loan, 1, 0, 0)) == 17);
        assert!(rt; number(heap.same(&mut loan, 0, 0)) == 17);
        Ok(())
    }

    const SIX: Windows = Windows {
        dynamic: 6,
        fixed: 0,
        read_only: 2,
    };

    // What reading cell 0 of a list answers, and then a put, once the host has written `word` over the cell.
    fn list_cell_becomes(rt: &impl Abort, word: u32) -> Result<(u32, u32), Fail> {
        let mut words = [0u32; 14];
        let mut memory = Words(&mut words);
        let mut loan = lent(&mut memory);
        let mut heap = Heap::new(alone(Kind::List, SIX), &mut loan)?;
        assert!(rt; number(heap.list(&mut loan, 0, 1, 1)) == 0);
        loan.memory.write(4, word)?;
        let read = number(heap.read(&mut loan, 1, 0, 0));
        Ok((read, number(heap.put(&mut loan, 0, Literal::Null))))
    }

    #[test]
    fn a_cell_that_means_nothing_is_foreign(rt: HostRuntime) -> Result<(), Fail> {
        let (read, put) = list_cell_becomes(&rt, 0x0200_0000)?;
        assert!(rt; read == 17 && put == 17);
        let (read, put) = list_cell_becomes(&rt, 0x0100_0100)?;
        assert!(rt; read == 17 && put == 17);
        Ok(())
    }

    #[test]
    fn an_unset_list_cell_is_foreign(rt: HostRuntime) -> Result<(), Fail> {
        let (read, put) = list_cell_becomes(&rt, 0)?;
        assert!(rt; read == 17 && put == 17);
        Ok(())
    }

    #[test]
    fn a_pointer_out_of_the_words_in_use_is_foreign(rt: HostRuntime) -> Result<(), Fail> {
        let (read, put) = list_cell_becomes(&rt, 0xB000_0008)?;
        assert!(rt; read == 17 && put == 17);
        let (read, put) = list_cell_becomes(&rt, 0xB400_0000)?;
        assert!(rt; read == 17 && put == 17);
        let (read, put) = list_cell_becomes(&rt, 0xB000_0011)?;
        assert!(rt; read == 17 && put == 17);
        Ok(())
    }

    #[test]
    fn a_list_cell_that_a_call_could_have_left_is_read(rt: HostRuntime) -> Result<(), Fail> {
        let (read, put) = list_cell_becomes(&rt, 0xB000_0010)?;
        assert!(rt; read == 0 && put == 0);
        let (read, put) = list_cell_becomes(&rt, 0x1FFF_FFFF)?;
        assert!(rt; read == 0 && put == 0);
        Ok(())
    }

    #[test]
    fn a_dynamic_pointer_in_a_read_only_list_is_foreign(rt: HostRuntime) -> Result<(), Fail> {
        let mut words = [0u32; 14];
        let mut memory = Words(&mut words);
        let mut loan = lent(&mut memory);
        let mut heap = Heap::new(alone(Kind::List, SIX), &mut loan)?;
        assert!(rt; number(heap.list(&mut loan, 0, 1, 1)) == 0);
        heap.set_space(&mut loan, 3)?;
        assert!(rt; number(heap.list(&mut loan, 2, 0, 1)) == 7);
        assert!(rt; number(heap.list(&mut loan, 2, 1, 1)) == 0);
        loan.memory.write(12, 0xB000_0010)?;
        assert!(rt; number(heap.read(&mut loan, 3, 2, 0)) == 17);
        assert!(rt; number(heap.freeze(&mut loan)) == 17);
        Ok(())
    }

    #[test]
    fn a_frozen_list_takes_no_writes_and_a_later_one_does(rt: HostRuntime) -> Result<(), Fail> {
        let mut words = [0u32; 16];
        let mut memory = Words(&mut words);
        let mut loan = lent(&mut memory);
        let windows = Windows {
            dynamic: 6,
            fixed: 0,
            read_only: 4,
        };
        let mut heap = Heap::new(alone(Kind::List, windows), &mut loan)?;
        heap.set_space(&mut loan, 3)?;
        assert!(rt; number(heap.list(&mut loan, 0, 1, 1)) == 0);
        heap.freeze(&mut loan)?;
        assert!(rt; number(heap.list(&mut loan, 2, 1, 1)) == 0);
        assert!(rt; number(heap.write(&mut loan, 0, 0, 1)) == 6);
        assert!(rt; number(heap.write(&mut loan, 2, 0, 1)) == 0);
        Ok(())
    }

    // A heap with a string of two characters in register 0, and a symbol of that name in register 1.
    fn named<M: WordMemory>(rt: &impl Abort, loan: &mut Loan<M>) -> Result<Heap, Fail> {
        let strings = Windows {
            dynamic: 8,
            ..EMPTY
        };
        let symbols = Windows {
            dynamic: 6,
            ..EMPTY
        };
        let mut heap = Heap::new([EMPTY, strings, EMPTY, symbols, EMPTY], loan)?;
        assert!(rt; number(heap.string(loan, 0, 2)) == 0);
        assert!(rt; number(heap.symbol(loan, 1, 0)) == 0);
        Ok(heap)
    }

    #[test]
    fn a_print_name_that_is_no_string_is_foreign(rt: HostRuntime) -> Result<(), Fail> {
        let mut words = [0u32; 28];
        let mut memory = Words(&mut words);
        let mut loan = lent(&mut memory);
        let mut heap = named(&rt, &mut loan)?;
        assert!(rt; number(heap.read(&mut loan, 2, 1, 0)) == 4);
        assert!(rt; number(heap.read(&mut loan, 2, 1, 3)) == 0);
        loan.memory.write(19, 0x1000_0007)?;
        assert!(rt; number(heap.read(&mut loan, 2, 1, 3)) == 17);
        Ok(())
    }

    #[test]
    fn a_string_of_another_access_type_is_foreign(rt: HostRuntime) -> Result<(), Fail> {
        let mut words = [0u32; 28];
        let mut memory = Words(&mut words);
        let mut loan = lent(&mut memory);
        let mut heap = named(&rt, &mut loan)?;
        loan.memory.write(6, 0x2000_0002)?;
        assert!(rt; number(heap.tell(&mut loan, 0)) == 17);
        assert!(rt; number(heap.tell(&mut loan, 1)) == 17);
        Ok(())
    }
}
