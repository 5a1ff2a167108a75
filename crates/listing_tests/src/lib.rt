// Registers and refused texts as they are printed.
#![tactic(auto)]

#[cfg(test)]
mod tests {
    use answers::{Refusal, TextFault, Told};
    use listing::{fault_line, listing_of};
    use std::test::Fail;

    #[test]
    fn a_register_that_holds_null_has_no_line(rt: HostRuntime) -> Result<(), Fail> {
        let list = Told::Object {
            code: 11,
            space: 0,
            cells: 2,
        };
        let text = listing_of(rt.alloc(), &[Told::Fixnum(7), Told::Null, list])?;
        assert_eq!(rt; text.as_str(), "reg=0 value=f7\nreg=2 value=o11\n");
        Ok(())
    }

    #[test]
    fn a_type_code_that_no_kind_has_is_listed(rt: HostRuntime) -> Result<(), Fail> {
        let other = Told::Object {
            code: 12,
            space: 5,
            cells: 0,
        };
        let text = listing_of(rt.alloc(), &[other])?;
        assert_eq!(rt; text.as_str(), "reg=0 value=o12\n");
        Ok(())
    }

    #[test]
    fn a_bend_to_the_left_and_a_letter_are_listed(rt: HostRuntime) -> Result<(), Fail> {
        let text = listing_of(rt.alloc(), &[Told::Fixnum(-90), Told::Character(65)])?;
        assert_eq!(rt; text.as_str(), "reg=0 value=f-90\nreg=1 value=c65\n");
        Ok(())
    }

    #[test]
    fn a_text_over_the_limit_is_refused_before_any_line(rt: HostRuntime) -> Result<(), Fail> {
        let fault = TextFault {
            line: 0,
            refusal: Refusal::TooLong,
        };
        let text = fault_line(rt.alloc(), fault)?;
        assert_eq!(rt; text.as_str(), "line=0 refusal=18\n");
        Ok(())
    }
}
