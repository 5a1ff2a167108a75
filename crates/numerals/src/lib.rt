// Numbers as a part text spells them.
#![tactic(auto)]

ghost use Rattle.std.specs.Prelude.{◌≡◌, ℕ, ◌<◌, decimal};
ghost use Rattle.std.specs.Fmt.{signed_decimal};
ghost use Rattle.numerals.specs.Numbers.{Parses, Small, SmallSigned};

/// The text is not of the form that was asked for.
#[derive(Clone, Copy, PartialEq, Eq, Debug)]
pub struct NoForm;

const MAX_DIGITS: usize = 9;

/// The number whose decimal digits these bytes are, with no leading zero.
pub fn number(text: &[u8]) -> Result<u32, NoForm>
    ensures { Parses decimal Small text.now result }
{
    if text.is_empty() || text.len() > MAX_DIGITS {
        return Err(NoForm);
    }
    if let [b'0', _, ..] = text {
        return Err(NoForm);
    }
    // Digit by digit, since std's `parse` takes a plus sign and leading zeros.
    let mut n = 0;
    for b in text {
        if !b.is_ascii_digit() {
            return Err(NoForm);
        }
        n = n * 10 + u32::from(*b - b'0');
    }
    Ok(n)
}

/// The signed number that these bytes spell; a minus stands only before a number other than 0.
pub fn signed_number(text: &[u8]) -> Result<i32, NoForm>
    ensures { Parses signed_decimal SmallSigned text.now result }
{
    match text {
        [b'-', digits @ ..] => match number(digits)? {
            0 => Err(NoForm),
            n => Ok(-(n as i32)),
        },
        _ => Ok(number(text)? as i32),
    }
}
