// The foreign words that calls find, and the order of the refusals.

#[cfg(test)]
mod tests {
    use crate::shared::{EMPTY, alone, lent};
    use answers::{Place, Refusal, TextFault};
    use heap::{Heap, Windows};
    use kinds::Kind;
    use loan::Loan;
    use memory::{WordMemory, Words};
    use std::process::Abort;
    use std::test::Fail;
    use words::Literal;

    // Of a kind 24 words: twice 8 dynamic ones, new objects going to the end of the first 8, and 8 read-only ones.
    const EIGHT: Windows = Windows {
        dynamic: 8,
        fixed: 0,
        read_only: 8,
    };

    // A text with one byte too many.
    const LONG: [u8; 16_385] = [b'x'; 16_385];

    // What a call answers: the number of its refusal, 0 where it is granted, and the word of memory that the refusal names.
    #[derive(Clone, Copy, PartialEq, Eq, Debug)]
    #[must_use]
    struct Answer {
        number: u32,
        place: Option<usize>,
    }

    impl Answer {
        fn of<T: Drop>(r: Result<T, Refusal>) -> Answer {
            match r {
                Ok(_) => Answer {
                    number: 0,
                    place: None,
                },
                Err(refusal) => Answer::of_refusal(refusal),
            }
        }

        fn of_refusal(refusal: Refusal) -> Answer {
            let place = match refusal.place() {
                Some(Place::Memory(i)) => Some(i),
                _ => None,
            };
            Answer {
                number: refusal.number(),
                place,
            }
        }

        // The line at which a text is refused, and what that line answers.
        fn of_text(r: Result<u64, TextFault>) -> (u64, Answer) {
            match r {
                Ok(_) => (
                    0,
                    Answer {
                        number: 0,
                        place: None,
                    },
                ),
                Err(fault) => (fault.line, Answer::of_refusal(fault.refusal)),
            }
        }

        // The call is granted.
        fn granted(self, rt: &impl Abort) {
            assert_eq!(rt;
                self,
                Answer {
                    number: 0,
                    place: None,
                }
            );
        }

        // The call is refused with this number, and names no place.
        fn refused(self, rt: &impl Abort, number: u32) {
            assert_eq!(rt;
                self,
                Answer {
                    number,
                    place: None,
                }
            );
        }

        // The call names a foreign word at this place.
        fn foreign(self, rt: &impl Abort, place: usize) {
            assert_eq!(rt;
                self,
                Answer {
                    number: 17,
                    place: Some(place),
                }
            );
        }
    }

    // A heap with a memory of its own, which each call is lent.
    #[derive(Drop)]
    struct Bench {
        heap: Heap,
        words: [u32; 2_050],
    }

    impl Bench {
        fn new(windows: [Windows; 5]) -> Result<Bench, Fail> {
            let mut words = [7; 2_050];
            let mut memory = Words(&mut words);
            let mut loan = lent(&mut memory);
            let heap = Heap::new(windows, &mut loan)?;
            Ok(Bench { heap, words })
        }

        // A heap with a list of two nulls in register 0, at places 102 and 103.
        fn listed(rt: &impl Abort) -> Result<Bench, Fail> {
            let mut bench = Bench::new([EIGHT; 5])?;
            bench.list(0, 1, 1).granted(rt);
            Ok(bench)
        }

        // A heap with a string of two characters in register 0, at places 29 to 31, and a symbol of that name in register 1, at
        // places 74 to 79.
        fn named(rt: &impl Abort) -> Result<Bench, Fail> {
            let mut bench = Bench::new([EIGHT; 5])?;
            bench.string(0, 2).granted(rt);
            bench.symbol(1, 0).granted(rt);
            Ok(bench)
        }

        // A heap with a B-Vector of two nulls in register 0, at places 53 to 55.
        fn vectored(rt: &impl Abort) -> Result<Bench, Fail> {
            let mut bench = Bench::new([EIGHT; 5])?;
            bench.vector(0, 2, 1).granted(rt);
            Ok(bench)
        }

        // The caller changes a word of the memory between two calls.
        fn poke(&mut self, at: usize, word: u32) -> Result<(), Fail> {
            Words(&mut self.words).write(at, word)?;
            Ok(())
        }

        fn put(&mut self, to: u32, value: Literal) -> Answer {
            let mut memory = Words(&mut self.words);
            let mut loan = lent(&mut memory);
            Answer::of(self.heap.put(&mut loan, to, value))
        }

        fn list(&mut self, to: u32, car: u32, cdr: u32) -> Answer {
            let mut memory = Words(&mut self.words);
            let mut loan = lent(&mut memory);
            Answer::of(self.heap.list(&mut loan, to, car, cdr))
        }

        fn symbol(&mut self, to: u32, name: u32) -> Answer {
            let mut memory = Words(&mut self.words);
            let mut loan = lent(&mut memory);
            Answer::of(self.heap.symbol(&mut loan, to, name))
        }

        fn vector(&mut self, to: u32, count: u32, fill: u32) -> Answer {
            let mut memory = Words(&mut self.words);
            let mut loan = lent(&mut memory);
            Answer::of(self.heap.vector(&mut loan, to, count, fill))
        }

        fn string(&mut self, to: u32, count: u32) -> Answer {
            let mut memory = Words(&mut self.words);
            let mut loan = lent(&mut memory);
            Answer::of(self.heap.string(&mut loan, to, count))
        }

        fn words(&mut self, to: u32, count: u32, access: u32) -> Answer {
            let mut memory = Words(&mut self.words);
            let mut loan = lent(&mut memory);
            Answer::of(self.heap.words(&mut loan, to, count, access))
        }

        fn read(&mut self, to: u32, from: u32, at: u32) -> Answer {
            let mut memory = Words(&mut self.words);
            let mut loan = lent(&mut memory);
            Answer::of(self.heap.read(&mut loan, to, from, at))
        }

        fn write(&mut self, into: u32, at: u32, value: u32) -> Answer {
            let mut memory = Words(&mut self.words);
            let mut loan = lent(&mut memory);
            Answer::of(self.heap.write(&mut loan, into, at, value))
        }

        fn tell(&mut self, of: u32) -> Answer {
            let mut memory = Words(&mut self.words);
            let mut loan = lent(&mut memory);
            Answer::of(self.heap.tell(&mut loan, of))
        }

        fn same(&mut self, left: u32, right: u32) -> Answer {
            let mut memory = Words(&mut self.words);
            let mut loan = lent(&mut memory);
            Answer::of(self.heap.same(&mut loan, left, right))
        }

        fn set_space(&mut self, space: u32) -> Answer {
            let mut memory = Words(&mut self.words);
            let mut loan = lent(&mut memory);
            Answer::of(self.heap.set_space(&mut loan, space))
        }

        fn freeze(&mut self) -> Answer {
            let mut memory = Words(&mut self.words);
            let mut loan = lent(&mut memory);
            Answer::of(self.heap.freeze(&mut loan))
        }

        fn open_text(&mut self, space: u32, text: &[u8]) -> (u64, Answer) {
            let mut memory = Words(&mut self.words);
            let mut loan = lent(&mut memory);
            Answer::of_text(self.heap.open_text(&mut loan, space, text))
        }

        // The two calls below are lent a memory that is too short.
        fn read_short(&mut self, to: u32, from: u32, at: u32) -> Answer {
            let mut few = [0; 11];
            let mut memory = Words(&mut few);
            let mut loan = lent(&mut memory);
            Answer::of(self.heap.read(&mut loan, to, from, at))
        }

        fn open_text_short(&mut self, space: u32, text: &[u8]) -> (u64, Answer) {
            let mut few = [0; 11];
            let mut memory = Words(&mut few);
            let mut loan = lent(&mut memory);
            Answer::of_text(self.heap.open_text(&mut loan, space, text))
        }
    }

    // Foreign words in the cells of a list.

    fn is_foreign_in_a_list(rt: &impl Abort, word: u32) -> Result<(), Fail> {
        let mut bench = Bench::listed(rt)?;
        bench.poke(102, word)?;
        bench.read(1, 0, 0).foreign(rt, 102);
        bench.put(0, Literal::Null).foreign(rt, 102);
        Ok(())
    }

    fn is_read_from_a_list(rt: &impl Abort, word: u32) -> Result<(), Fail> {
        let mut bench = Bench::listed(rt)?;
        bench.poke(102, word)?;
        bench.read(1, 0, 0).granted(rt);
        bench.put(0, Literal::Null).granted(rt);
        Ok(())
    }

    #[test]
    fn a_cell_that_means_nothing_is_foreign_at_its_place(rt: HostRuntime) -> Result<(), Fail> {
        is_foreign_in_a_list(&rt, 0x0200_0000)?;
        is_foreign_in_a_list(&rt, 0x0100_0100)?;
        is_foreign_in_a_list(&rt, 0x0500_0001)?;
        is_foreign_in_a_list(&rt, 0xF000_0018)
    }

    #[test]
    fn an_unset_list_cell_is_foreign_at_its_place(rt: HostRuntime) -> Result<(), Fail> {
        is_foreign_in_a_list(&rt, 0)
    }

    #[test]
    fn a_pointer_to_words_that_are_not_in_use_is_foreign(rt: HostRuntime) -> Result<(), Fail> {
        is_foreign_in_a_list(&rt, 0xB000_0010)?;
        is_foreign_in_a_list(&rt, 0xB000_0014)?;
        is_foreign_in_a_list(&rt, 0xB000_001C)?;
        is_foreign_in_a_list(&rt, 0xBC00_0000)
    }

    #[test]
    fn a_pointer_to_the_other_dynamic_space_is_foreign(rt: HostRuntime) -> Result<(), Fail> {
        is_foreign_in_a_list(&rt, 0xB400_0018)
    }

    #[test]
    fn a_pointer_between_two_words_is_foreign(rt: HostRuntime) -> Result<(), Fail> {
        is_foreign_in_a_list(&rt, 0xB000_0019)
    }

    #[test]
    fn a_list_cell_that_a_call_could_have_left_is_no_foreign_word(
        rt: HostRuntime,
    ) -> Result<(), Fail> {
        is_read_from_a_list(&rt, 0xB000_0018)?;
        is_read_from_a_list(&rt, 0x1FFF_FFFF)
    }

    #[test]
    fn a_foreign_cell_is_written_without_a_look(rt: HostRuntime) -> Result<(), Fail> {
        let mut bench = Bench::listed(&rt)?;
        bench.poke(102, 0x0200_0000)?;
        bench.write(0, 0, 1).granted(&rt);
        bench.read(2, 0, 0).granted(&rt);
        Ok(())
    }

    #[test]
    fn a_dynamic_pointer_in_a_read_only_list_is_foreign_at_its_place(
        rt: HostRuntime,
    ) -> Result<(), Fail> {
        let mut bench = Bench::listed(&rt)?;
        bench.set_space(3).granted(&rt);
        bench.list(2, 0, 1).refused(&rt, 7);
        bench.list(2, 1, 1).granted(&rt);
        bench.poke(112, 0xB000_0018)?;
        bench.read(3, 2, 0).foreign(&rt, 112);
        bench.freeze().foreign(&rt, 112);
        Ok(())
    }

    // Foreign words in the cells of a symbol.

    fn is_foreign_in_a_symbol(
        rt: &impl Abort,
        at: u32,
        place: usize,
        word: u32,
    ) -> Result<(), Fail> {
        let mut bench = Bench::named(rt)?;
        bench.poke(place, word)?;
        bench.read(2, 1, at).foreign(rt, place);
        bench.same(0, 0).foreign(rt, place);
        Ok(())
    }

    #[test]
    fn a_symbol_just_made_has_no_value_and_no_properties(rt: HostRuntime) -> Result<(), Fail> {
        let mut bench = Bench::named(&rt)?;
        bench.read(2, 1, 0).refused(&rt, 4);
        bench.read(2, 1, 1).refused(&rt, 4);
        bench.read(2, 1, 2).granted(&rt);
        bench.read(2, 1, 3).granted(&rt);
        Ok(())
    }

    #[test]
    fn a_print_name_that_is_no_string_is_foreign_at_its_place(rt: HostRuntime) -> Result<(), Fail> {
        is_foreign_in_a_symbol(&rt, 3, 77, 0x1000_0007)?;
        is_foreign_in_a_symbol(&rt, 3, 77, 0x0500_0000)?;
        is_foreign_in_a_symbol(&rt, 3, 77, 0xA000_0008)
    }

    #[test]
    fn a_property_list_that_is_neither_null_nor_a_list_is_foreign(
        rt: HostRuntime,
    ) -> Result<(), Fail> {
        is_foreign_in_a_symbol(&rt, 2, 76, 0x1000_0007)?;
        is_foreign_in_a_symbol(&rt, 2, 76, 0x4000_0014)
    }

    #[test]
    fn only_the_value_and_the_definition_may_be_unset(rt: HostRuntime) -> Result<(), Fail> {
        is_foreign_in_a_symbol(&rt, 2, 76, 0)?;
        is_foreign_in_a_symbol(&rt, 3, 77, 0)?;
        is_foreign_in_a_symbol(&rt, 4, 78, 0)?;
        is_foreign_in_a_symbol(&rt, 5, 79, 0)
    }

    // Foreign heads of vectors and strings.

    // The header of a B-Vector of two cells, at place 53.
    fn is_foreign_as_a_header(rt: &impl Abort, word: u32) -> Result<(), Fail> {
        let mut bench = Bench::vectored(rt)?;
        bench.poke(53, word)?;
        bench.read(1, 0, 0).foreign(rt, 53);
        bench.poke(53, 0x1000_0003)?;
        bench.put(0, Literal::Null).foreign(rt, 53);
        Ok(())
    }

    // A word of a string of two characters: its header at place 29, or its second word at place 30.
    fn is_foreign_in_a_string(rt: &impl Abort, place: usize, word: u32) -> Result<(), Fail> {
        let mut bench = Bench::named(rt)?;
        bench.poke(place, word)?;
        bench.tell(0).foreign(rt, place);
        bench.tell(1).foreign(rt, place);
        Ok(())
    }

    // The second word of a U-Vector of two entries of 16 bits, at place 6.
    fn is_foreign_as_a_second_word(rt: &impl Abort, word: u32) -> Result<(), Fail> {
        let mut bench = Bench::new([EIGHT; 5])?;
        bench.words(0, 2, 4).granted(rt);
        bench.poke(6, word)?;
        bench.write(0, 0, 1).foreign(rt, 6);
        bench.list(1, 0, 0).foreign(rt, 6);
        Ok(())
    }

    #[test]
    fn a_header_of_more_words_than_are_in_use_is_foreign(rt: HostRuntime) -> Result<(), Fail> {
        is_foreign_as_a_header(&rt, 0x1000_0009)?;
        is_foreign_as_a_header(&rt, 0x1000_0004)?;
        is_foreign_in_a_string(&rt, 29, 0x1000_0004)
    }

    #[test]
    fn a_header_with_a_subtype_is_foreign(rt: HostRuntime) -> Result<(), Fail> {
        is_foreign_as_a_header(&rt, 0x1100_0003)?;
        is_foreign_as_a_header(&rt, 0x1800_0003)?;
        is_foreign_in_a_string(&rt, 29, 0x1400_0003)
    }

    #[test]
    fn a_header_of_another_type_is_foreign(rt: HostRuntime) -> Result<(), Fail> {
        is_foreign_as_a_header(&rt, 0x0000_0003)?;
        is_foreign_in_a_string(&rt, 29, 0x3000_0003)
    }

    #[test]
    fn a_header_of_no_words_is_foreign(rt: HostRuntime) -> Result<(), Fail> {
        is_foreign_as_a_header(&rt, 0x1000_0000)
    }

    #[test]
    fn a_string_whose_header_names_too_few_words_is_foreign_at_its_count(
        rt: HostRuntime,
    ) -> Result<(), Fail> {
        let mut bench = Bench::named(&rt)?;
        bench.poke(29, 0x1000_0002)?;
        bench.tell(0).foreign(&rt, 30);
        bench.tell(0).foreign(&rt, 30);
        Ok(())
    }

    #[test]
    fn a_string_of_another_access_type_is_foreign_at_its_place(
        rt: HostRuntime,
    ) -> Result<(), Fail> {
        is_foreign_in_a_string(&rt, 30, 0x2000_0002)
    }

    #[test]
    fn a_count_that_does_not_fit_the_header_is_foreign(rt: HostRuntime) -> Result<(), Fail> {
        is_foreign_in_a_string(&rt, 30, 0x3000_0005)?;
        is_foreign_in_a_string(&rt, 30, 0x3000_0000)?;
        is_foreign_as_a_second_word(&rt, 0x4000_0003)?;
        is_foreign_as_a_second_word(&rt, 0x5000_0002)
    }

    #[test]
    fn a_count_over_the_limit_is_foreign(rt: HostRuntime) -> Result<(), Fail> {
        is_foreign_in_a_string(&rt, 30, 0x3000_FFFF)?;
        is_foreign_as_a_second_word(&rt, 0x4FFF_FFFF)
    }

    #[test]
    fn a_count_over_the_limit_is_foreign_even_where_its_words_fit_the_header(
        rt: HostRuntime,
    ) -> Result<(), Fail> {
        let mut bench = Bench::new(alone(
            Kind::UVector,
            Windows {
                fixed: 2_050,
                ..EMPTY
            },
        ))?;
        bench.set_space(2).granted(&rt);
        bench.words(0, 65_534, 0).granted(&rt);
        bench.tell(0).granted(&rt);
        bench.poke(1, 0x0000_FFFF)?;
        bench.tell(0).foreign(&rt, 1);
        bench.tell(1).foreign(&rt, 1);
        Ok(())
    }

    // A foreign word that was found.

    // A heap that has found a foreign word at place 102; the word has been put right since.
    fn broken(rt: &impl Abort) -> Result<Bench, Fail> {
        let mut bench = Bench::listed(rt)?;
        bench.poke(102, 0x0200_0000)?;
        bench.read(1, 0, 0).foreign(rt, 102);
        bench.poke(102, 0x0500_0000)?;
        Ok(bench)
    }

    #[test]
    fn every_making_names_a_foreign_word_again(rt: HostRuntime) -> Result<(), Fail> {
        let mut bench = broken(&rt)?;
        bench.list(1, 0, 0).foreign(&rt, 102);
        bench.symbol(1, 0).foreign(&rt, 102);
        bench.vector(1, 1, 0).foreign(&rt, 102);
        bench.string(1, 1).foreign(&rt, 102);
        bench.words(1, 1, 0).foreign(&rt, 102);
        Ok(())
    }

    #[test]
    fn every_reading_and_writing_names_a_foreign_word_again(rt: HostRuntime) -> Result<(), Fail> {
        let mut bench = broken(&rt)?;
        bench.put(1, Literal::Null).foreign(&rt, 102);
        bench.read(1, 0, 0).foreign(&rt, 102);
        bench.write(0, 0, 1).foreign(&rt, 102);
        bench.tell(0).foreign(&rt, 102);
        bench.same(0, 0).foreign(&rt, 102);
        Ok(())
    }

    #[test]
    fn setting_the_space_and_freezing_name_a_foreign_word_again(
        rt: HostRuntime,
    ) -> Result<(), Fail> {
        let mut bench = broken(&rt)?;
        bench.set_space(0).foreign(&rt, 102);
        bench.freeze().foreign(&rt, 102);
        Ok(())
    }

    #[test]
    fn a_line_that_finds_a_foreign_word_ends_the_text(rt: HostRuntime) -> Result<(), Fail> {
        let mut bench = Bench::listed(&rt)?;
        bench.poke(103, 0x0200_0000)?;
        let (line, answer) = bench.open_text(
            0,
            b"op=put to=5 value=f1\nop=read to=1 from=0 at=1\nop=put to=5 value=n\n",
        );
        assert!(rt; line == 2);
        answer.foreign(&rt, 103);
        bench.tell(5).foreign(&rt, 103);
        let (line, answer) = bench.open_text(0, b"");
        assert!(rt; line == 0);
        answer.foreign(&rt, 103);
        Ok(())
    }

    // The order of the refusals, where several hold.

    #[test]
    fn a_foreign_word_found_before_comes_before_every_other_refusal(
        rt: HostRuntime,
    ) -> Result<(), Fail> {
        let mut bench = broken(&rt)?;
        bench.put(16, Literal::Null).foreign(&rt, 102);
        bench.set_space(1).foreign(&rt, 102);
        bench.read_short(16, 0, 0).foreign(&rt, 102);
        let (line, answer) = bench.open_text_short(1, &LONG);
        assert!(rt; line == 0);
        answer.foreign(&rt, 102);
        Ok(())
    }

    #[test]
    fn an_unknown_register_comes_before_a_short_loan_and_that_before_the_kind(
        rt: HostRuntime,
    ) -> Result<(), Fail> {
        let mut bench = Bench::new([EIGHT; 5])?;
        bench.read_short(16, 0, 0).refused(&rt, 1);
        bench.read_short(0, 0, 0).refused(&rt, 15);
        bench.read(0, 0, 9).refused(&rt, 2);
        bench.symbol(0, 0).refused(&rt, 2);
        Ok(())
    }

    #[test]
    fn a_value_without_a_word_and_a_count_over_the_limit_are_out_of_bounds(
        rt: HostRuntime,
    ) -> Result<(), Fail> {
        let mut bench = Bench::new([EMPTY; 5])?;
        bench.put(0, Literal::Character(256)).refused(&rt, 3);
        bench.vector(0, 65_535, 0).refused(&rt, 3);
        bench.vector(0, 65_534, 0).refused(&rt, 8);
        bench.string(0, 65_535).refused(&rt, 3);
        bench.words(0, 65_535, 4).refused(&rt, 3);
        bench.words(0, 65_535, 5).refused(&rt, 1);
        Ok(())
    }

    #[test]
    fn an_index_out_of_bounds_comes_before_a_value_that_does_not_fit(
        rt: HostRuntime,
    ) -> Result<(), Fail> {
        let mut bench = Bench::named(&rt)?;
        bench.write(0, 2, 3).refused(&rt, 3);
        bench.write(0, 1, 3).refused(&rt, 5);
        bench.put(3, Literal::Character(65)).granted(&rt);
        bench.write(0, 2, 3).refused(&rt, 3);
        bench.write(0, 1, 3).granted(&rt);
        Ok(())
    }

    #[test]
    fn a_value_that_does_not_fit_comes_before_a_frozen_object(rt: HostRuntime) -> Result<(), Fail> {
        let mut bench = Bench::new([EIGHT; 5])?;
        bench.set_space(3).granted(&rt);
        bench.string(0, 2).granted(&rt);
        bench.freeze().granted(&rt);
        bench.write(0, 2, 3).refused(&rt, 3);
        bench.write(0, 1, 3).refused(&rt, 5);
        bench.put(3, Literal::Character(65)).granted(&rt);
        bench.write(0, 1, 3).refused(&rt, 6);
        Ok(())
    }

    #[test]
    fn a_frozen_object_comes_before_a_dynamic_pointer(rt: HostRuntime) -> Result<(), Fail> {
        let mut bench = Bench::listed(&rt)?;
        bench.set_space(3).granted(&rt);
        bench.list(1, 2, 2).granted(&rt);
        bench.write(1, 0, 0).refused(&rt, 7);
        bench.freeze().granted(&rt);
        bench.write(1, 0, 0).refused(&rt, 6);
        bench.write(1, 0, 2).refused(&rt, 6);
        Ok(())
    }

    #[test]
    fn a_dynamic_pointer_comes_before_no_room(rt: HostRuntime) -> Result<(), Fail> {
        let mut bench = Bench::listed(&rt)?;
        bench.set_space(3).granted(&rt);
        bench.vector(1, 65_535, 0).refused(&rt, 3);
        bench.vector(1, 8, 0).refused(&rt, 7);
        bench.vector(1, 8, 2).refused(&rt, 8);
        bench.vector(1, 7, 2).granted(&rt);
        bench.vector(1, 0, 0).refused(&rt, 8);
        Ok(())
    }

    #[test]
    fn a_foreign_header_comes_before_an_index_out_of_bounds(rt: HostRuntime) -> Result<(), Fail> {
        let mut bench = Bench::vectored(&rt)?;
        bench.read(1, 0, 2).refused(&rt, 3);
        bench.poke(53, 0x1000_0000)?;
        bench.read(1, 0, 2).foreign(&rt, 53);
        bench.read(1, 0, 2).foreign(&rt, 53);
        Ok(())
    }

    #[test]
    fn an_index_out_of_bounds_comes_before_a_foreign_cell(rt: HostRuntime) -> Result<(), Fail> {
        let mut bench = Bench::listed(&rt)?;
        bench.poke(103, 0x0200_0000)?;
        bench.read(1, 0, 2).refused(&rt, 3);
        bench.read(1, 0, 1).foreign(&rt, 103);
        bench.read(1, 0, 2).foreign(&rt, 103);
        Ok(())
    }

    // What making a heap with this window answers in a memory of eleven words.
    fn made_in_eleven(fixed: u32) -> Answer {
        let mut few = [0; 11];
        let mut memory = Words(&mut few);
        let mut loan = lent(&mut memory);
        let windows = alone(Kind::List, Windows { fixed, ..EMPTY });
        Answer::of(Heap::new(windows, &mut loan))
    }

    #[test]
    fn a_window_over_the_limit_comes_before_a_short_memory(rt: HostRuntime) -> Result<(), Fail> {
        made_in_eleven(65_537).refused(&rt, 3);
        made_in_eleven(65_536).refused(&rt, 15);
        made_in_eleven(12).refused(&rt, 15);
        made_in_eleven(11).granted(&rt);
        Ok(())
    }

    #[test]
    fn a_text_is_refused_for_its_space_then_for_a_short_memory_then_for_its_length(
        rt: HostRuntime,
    ) -> Result<(), Fail> {
        let mut bench = Bench::new([EIGHT; 5])?;
        let (line, answer) = bench.open_text_short(1, &LONG);
        assert!(rt; line == 0);
        answer.refused(&rt, 1);
        let (line, answer) = bench.open_text_short(0, &LONG);
        assert!(rt; line == 0);
        answer.refused(&rt, 15);
        let (line, answer) = bench.open_text(0, &LONG);
        assert!(rt; line == 0);
        answer.refused(&rt, 18);
        Ok(())
    }

    #[test]
    fn a_text_of_the_full_length_is_looked_at_line_by_line(rt: HostRuntime) -> Result<(), Fail> {
        let mut bench = Bench::new([EIGHT; 5])?;
        let (line, answer) = bench.open_text(0, &LONG[1..]);
        assert!(rt; line == 1);
        answer.refused(&rt, 16);
        Ok(())
    }
}
