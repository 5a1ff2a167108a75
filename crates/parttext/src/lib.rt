// The lines of a part text, each read as the call that it spells.
#![tactic(auto)]

ghost use Rattle.std.specs.Prelude.{◌≡◌, ℕ, MatchResult};
ghost use Rattle.numerals.specs.Numbers.{Parses};
ghost use Rattle.parttext.specs.declared.Line.{Line};
ghost use Rattle.parttext.specs.Grammar.{SmallLine, Spells, fields_text, form_of, line_text};

use fields::{next_field, three_fields, two_fields};
pub use lines::{Part, Reader};
pub use numerals::NoForm;
pub use operations::Op;
use words::Literal;

/// A call of the store, as a line of a part text spells it.
#[derive(Clone, Copy, PartialEq, Eq, Debug)]
pub enum Line {
    Put { to: u32, value: Literal },
    List { to: u32, car: u32, cdr: u32 },
    Symbol { to: u32, name: u32 },
    Vector { to: u32, count: u32, fill: u32 },
    String { to: u32, count: u32 },
    Words { to: u32, count: u32, access: u32 },
    Read { to: u32, from: u32, at: u32 },
    Write { into: u32, at: u32, value: u32 },
}

impl<'a> TryFrom<Part<'a>> for Line {
    type Error = NoForm;

    ghost try_from_gives = { λ part r. Parses line_text SmallLine part.bytes.now r };

    /// The call that a line spells, its byte 10 included.
    fn try_from(line: Part<'a>) -> Result<Line, NoForm> {
        let (op, rest) = next_field::<Op>(line, b"op")?;
        call_of(op, rest)
    }
}

// The call of this operation whose fields the rest of the line holds. A `match`, since the operations are a fixed list and each has fields of its own.
fn call_of(op: Op, rest: Part) -> Result<Line, NoForm>
    ensures { Parses (λ c. fields_text (form_of c).1) (λ c. ((form_of c).0 ≡ op) × SmallLine c) rest.entry.bytes.now result }
{
    match op {
        Op::Put => {
            let (to, value) = two_fields(rest, b"to", b"value")?;
            Ok(Line::Put { to, value })
        }
        Op::List => {
            let (to, car, cdr) = three_fields(rest, b"to", b"car", b"cdr")?;
            Ok(Line::List { to, car, cdr })
        }
        Op::Symbol => {
            let (to, name) = two_fields(rest, b"to", b"name")?;
            Ok(Line::Symbol { to, name })
        }
        Op::Vector => {
            let (to, count, fill) = three_fields(rest, b"to", b"count", b"fill")?;
            Ok(Line::Vector { to, count, fill })
        }
        Op::String => {
            let (to, count) = two_fields(rest, b"to", b"count")?;
            Ok(Line::String { to, count })
        }
        Op::Words => {
            let (to, count, access) = three_fields(rest, b"to", b"count", b"access")?;
            Ok(Line::Words { to, count, access })
        }
        Op::Read => {
            let (to, from, at) = three_fields(rest, b"to", b"from", b"at")?;
            Ok(Line::Read { to, from, at })
        }
        Op::Write => {
            let (into, at, value) = three_fields(rest, b"into", b"at", b"value")?;
            Ok(Line::Write { into, at, value })
        }
    }
}
