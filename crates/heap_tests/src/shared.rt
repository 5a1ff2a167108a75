// What the tests share: windows of one kind, and loans without stacks.
use heap::Windows;
use kinds::Kind;
use loan::Loan;

pub(crate) const EMPTY: Windows = Windows {
    dynamic: 0,
    fixed: 0,
    read_only: 0,
};

// Windows for one kind, at its place written out, and none for the others.
pub(crate) fn alone(kind: Kind, windows: Windows) -> [Windows; Kind::COUNT] {
    match kind {
        Kind::UVector => [windows, EMPTY, EMPTY, EMPTY, EMPTY],
        Kind::String => [EMPTY, windows, EMPTY, EMPTY, EMPTY],
        Kind::BVector => [EMPTY, EMPTY, windows, EMPTY, EMPTY],
        Kind::Symbol => [EMPTY, EMPTY, EMPTY, windows, EMPTY],
        Kind::List => [EMPTY, EMPTY, EMPTY, EMPTY, windows],
    }
}

// A memory lent with stacks that have no room.
pub(crate) fn lent<M>(memory: &mut M) -> Loan<'_, M> {
    Loan {
        memory,
        control: &mut [],
        bindings: &mut [],
    }
}
