// The operations of a part text, and their names.
#![tactic(auto)]

ghost use Rattle.std.specs.Prelude.{◌≡◌};
ghost use Rattle.operations.specs.Names.{name_of};
ghost use Rattle.operations.specs.Laws.{name_laws};

use literals::Spelled;
use numerals::NoForm;

/// An operation, as the field `op` names it.
#[derive(Clone, Copy, PartialEq, Eq, Debug)]
pub enum Op {
    Put,
    List,
    Symbol,
    Vector,
    String,
    Words,
    Read,
    Write,
}

// A list that is searched, so that each name stands once.
const OPS: [Op; 8] = [
    Op::Put,
    Op::List,
    Op::Symbol,
    Op::Vector,
    Op::String,
    Op::Words,
    Op::Read,
    Op::Write,
];

impl Op {
    // Bytes and no `Display`: a name is compared with the bytes of a text.
    /// The name that the field `op` has for it.
    pub fn name(self) -> &'static [u8]
        ensures { result.now ≡ name_of self }
    {
        match self {
            Op::Put => b"put",
            Op::List => b"list",
            Op::Symbol => b"symbol",
            Op::Vector => b"vector",
            Op::String => b"string",
            Op::Words => b"words",
            Op::Read => b"read",
            Op::Write => b"write",
        }
    }
}

impl Spelled for Op {
    ghost spelling = { name_of };

    ghost fits = { λ _. Unit {0} };

    ghost laws = { name_laws };

    /// The operation of this name.
    fn parse(name: &[u8]) -> Result<Op, NoForm> {
        OPS.iter()
            .copied()
            .find(|op| op.name() == name)
            .ok_or(NoForm)
    }
}
