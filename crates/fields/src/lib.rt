// The fields of a line: `key=value` one after another, each a part of the caller's text.
#![tactic(auto)]

ghost use Rattle.std.specs.Prelude.{◌≡◌, ℕ, List, [], ◌∷◌, ◌++◌, MatchResult, ◌≢◌};
ghost use Rattle.lines.specs.Lines.{Free, newline};
ghost use Rattle.numerals.specs.Numbers.{Parses};
ghost use Rattle.fields.specs.Fields.{field_text, space, spaced};

use lines::{Part, up_to};
use literals::Spelled;
use numerals::NoForm;

/// A key and its value, two parts of a text, and the number of the line that they stand in.
#[derive(Clone, Copy)]
pub struct Field<'a> {
    pub key: &'a [u8],
    pub value: &'a [u8],
    pub line: u64,
}

// What follows `front` in a text that begins with it.
fn after<'a>(text: &'a [u8], front: &[u8]) -> Result<&'a [u8], NoForm>
    ensures { MatchResult result
        (λ rest. text.now ≡ front.now ++ rest.now)
        (λ _. (rest : List ℕ) → text.now ≢ front.now ++ rest) }
{
    text.strip_prefix(front).ok_or(NoForm)
}

// What stands before the first `end`, and what follows it.
fn cut(text: &[u8], end: u8) -> Result<(&[u8], &[u8]), NoForm>
    ensures { MatchResult result
        (λ p. (text.now ≡ p.0.now ++ (end ∷ p.1.now)) × Free end p.0.now)
        (λ _. (value rest : List ℕ) → text.now ≢ value ++ (end ∷ rest)) }
{
    match text.split_at(up_to(text, end)) {
        (value, [_, rest @ ..]) => Ok((value, rest)),
        _ => Err(NoForm),
    }
}

/// The field of this key at the start of a part, up to the first `end`, and what follows that byte.
pub fn take_field<'a>(part: Part<'a>, key: &[u8], end: u8) -> Result<(Field<'a>, Part<'a>), NoForm>
    ensures { MatchResult result
        (λ p. (part.entry.bytes.now ≡ field_text key.now p.0.value.now end p.1.bytes.now)
        × (p.0.key.now ≡ key.now) × Free end p.0.value.now
        × (p.0.line ≡ part.entry.line) × (p.1.line ≡ part.entry.line))
        (λ _. (value rest : List ℕ) → part.entry.bytes.now ≢ field_text key.now value end rest) }
{
    let rest = after(part.bytes, key)?;
    let rest = after(rest, b"=")?;
    let (value, rest) = cut(rest, end)?;
    let field = Field {
        // By its length: the key is to be the text's own bytes.
        key: &part.bytes[..key.len()],
        value,
        line: part.line,
    };
    let rest = Part {
        bytes: rest,
        ..part
    };
    Ok((field, rest))
}

/// The value of the field of this key, which a space ends, and what follows.
pub fn next_field<'a, V: Spelled>(part: Part<'a>, key: &[u8]) -> Result<(V, Part<'a>), NoForm>
    ensures { MatchResult result
        (λ p. (part.entry.bytes.now ≡ field_text key.now (V.spelling p.0) space p.1.bytes.now) × V.fits p.0 × (p.1.line ≡ part.entry.line))
        (λ _. (v : V) (rest : List ℕ) → part.entry.bytes.now ≡ field_text key.now (V.spelling v) space rest → V.fits v → ⊥) }
{
    let (field, rest) = take_field(part, key, b' ')?;
    Ok((V::parse(field.value)?, rest))
}

/// The text of the field of this key, which ends the line.
pub fn last_value<'a>(part: Part<'a>, key: &[u8]) -> Result<&'a [u8], NoForm>
    ensures { MatchResult result
        (λ v. (part.entry.bytes.now ≡ field_text key.now v.now newline []) × Free newline v.now)
        (λ _. (value : List ℕ) → part.entry.bytes.now ≡ field_text key.now value newline [] → Free newline value → ⊥) }
{
    let (field, rest) = take_field(part, key, b'\n')?;
    if !rest.bytes.is_empty() {
        return Err(NoForm);
    }
    Ok(field.value)
}

/// The value of the field of this key, which ends the line.
pub fn last_field<V: Spelled>(part: Part, key: &[u8]) -> Result<V, NoForm>
    ensures { Parses (λ v. field_text key.now (V.spelling v) newline []) V.fits part.entry.bytes.now result }
{
    V::parse(last_value(part, key)?)
}

// Two functions and no list of keys: each field has a type of its own.
/// The values of the last two fields of a line.
pub fn two_fields<A: Spelled, B: Spelled>(
    part: Part,
    first: &[u8],
    second: &[u8],
) -> Result<(A, B), NoForm>
    ensures { Parses
        (λ p. spaced ((first.now, A.spelling p.0) ∷ ((second.now, B.spelling p.1) ∷ [])))
        (λ p. A.fits p.0 × B.fits p.1) part.entry.bytes.now result }
{
    let (a, last) = next_field(part, first)?;
    let b = last_field(last, second)?;
    Ok((a, b))
}

/// The values of the last three fields of a line.
pub fn three_fields<A: Spelled, B: Spelled, C: Spelled>(
    part: Part,
    first: &[u8],
    second: &[u8],
    third: &[u8],
) -> Result<(A, B, C), NoForm>
    ensures { Parses
        (λ p. spaced ((first.now, A.spelling p.0) ∷ ((second.now, B.spelling p.1) ∷ ((third.now, C.spelling p.2) ∷ []))))
        (λ p. A.fits p.0 × B.fits p.1 × C.fits p.2) part.entry.bytes.now result }
{
    let (a, rest) = next_field(part, first)?;
    let (b, c) = two_fields(rest, second, third)?;
    Ok((a, b, c))
}
