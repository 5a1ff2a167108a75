// Part texts that a shop could write, and texts that are refused.
#![tactic(auto)]

#[cfg(test)]
mod tests {
    use parttext::{Line, Part, Reader};
    use std::test::Fail;
    use words::Literal;

    fn parsed(bytes: &[u8]) -> Option<Line> {
        Line::try_from(Part { bytes, line: 1 }).ok()
    }

    #[test]
    fn a_thickness_a_letter_and_null_are_put(rt: HostRuntime) {
        assert_eq!(rt;
            parsed(b"op=put to=0 value=f7\n"),
            Some(Line::Put {
                to: 0,
                value: Literal::Fixnum(7),
            })
        );
        assert_eq!(rt;
            parsed(b"op=put to=3 value=f-999999999\n"),
            Some(Line::Put {
                to: 3,
                value: Literal::Fixnum(-999999999),
            })
        );
        assert_eq!(rt;
            parsed(b"op=put to=15 value=c65\n"),
            Some(Line::Put {
                to: 15,
                value: Literal::Character(65),
            })
        );
        assert_eq!(rt;
            parsed(b"op=put to=1 value=n\n"),
            Some(Line::Put {
                to: 1,
                value: Literal::Null,
            })
        );
    }

    #[test]
    fn each_other_form_is_read(rt: HostRuntime) {
        assert_eq!(rt;
            parsed(b"op=list to=2 car=0 cdr=1\n"),
            Some(Line::List {
                to: 2,
                car: 0,
                cdr: 1,
            })
        );
        assert_eq!(rt;
            parsed(b"op=symbol to=4 name=5\n"),
            Some(Line::Symbol { to: 4, name: 5 })
        );
        assert_eq!(rt;
            parsed(b"op=vector to=6 count=12 fill=1\n"),
            Some(Line::Vector {
                to: 6,
                count: 12,
                fill: 1,
            })
        );
        assert_eq!(rt;
            parsed(b"op=string to=5 count=999999999\n"),
            Some(Line::String {
                to: 5,
                count: 999999999,
            })
        );
        assert_eq!(rt;
            parsed(b"op=words to=7 count=33 access=0\n"),
            Some(Line::Words {
                to: 7,
                count: 33,
                access: 0,
            })
        );
        assert_eq!(rt;
            parsed(b"op=read to=8 from=6 at=11\n"),
            Some(Line::Read {
                to: 8,
                from: 6,
                at: 11,
            })
        );
        assert_eq!(rt;
            parsed(b"op=write into=6 at=0 value=8\n"),
            Some(Line::Write {
                into: 6,
                at: 0,
                value: 8,
            })
        );
    }

    #[test]
    fn a_number_has_one_spelling(rt: HostRuntime) {
        assert_eq!(rt; parsed(b"op=put to=0 value=f-0\n"), None, "minus zero");
        assert_eq!(rt;
            parsed(b"op=put to=0 value=c-7\n"),
            None,
            "minus before a character code"
        );
        assert_eq!(rt; parsed(b"op=string to=0 count=07\n"), None, "leading zero");
        assert_eq!(rt;
            parsed(b"op=string to=0 count=1000000000\n"),
            None,
            "ten digits"
        );
        assert_eq!(rt; parsed(b"op=string to=0 count=\n"), None, "no digit");
    }

    #[test]
    fn a_line_has_one_layout(rt: HostRuntime) {
        assert_eq!(rt; parsed(b"op=symbol  to=4 name=5\n"), None, "two spaces");
        assert_eq!(rt; parsed(b"op=symbol to=4 name=5"), None, "no newline");
        assert_eq!(rt;
            parsed(b"op=symbol to=4 name=5 \n"),
            None,
            "a space at the end"
        );
        assert_eq!(rt; parsed(b"OP=symbol to=4 name=5\n"), None, "upper case");
        assert_eq!(rt; parsed(b"op=symbol name=5 to=4\n"), None, "another order");
        assert_eq!(rt;
            parsed(b"op=put to=0 value=n0\n"),
            None,
            "null with a number"
        );
        assert_eq!(rt; parsed(b"\n"), None, "an empty line");
    }

    #[test]
    fn lines_come_with_their_numbers(rt: HostRuntime) -> Result<(), Fail> {
        let mut reader = Reader::new(b"op=put to=0 value=f7\n\nop=put");
        let first = reader.next().ok_or("no first line")?;
        assert_eq!(rt; first.line, 1);
        assert_eq!(rt; first.bytes.len(), 21);
        let second = reader.next().ok_or("no second line")?;
        assert_eq!(rt; second.line, 2);
        assert_eq!(rt; second.bytes.len(), 1);
        let last = reader.next().ok_or("no last line")?;
        assert_eq!(rt; last.line, 3);
        assert_eq!(rt; last.bytes.len(), 6);
        assert!(rt; reader.next().is_none());
        Ok(())
    }
}
