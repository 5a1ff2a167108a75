// The spaces that objects are made in.
#![tactic(auto)]

ghost use Rattle.std.specs.Prelude.{◌≡◌, ok_or};
ghost use Rattle.spaces.specs.Spaces.{code_of, space_at};

/// Where objects are made, each with the number by which callers know the space.
#[derive(Clone, Copy, PartialEq, Eq, Debug)]
pub enum Space {
    Dynamic = 0,
    Static = 2,
    ReadOnly = 3,
}

/// A number that no space has.
#[derive(Clone, Copy, PartialEq, Eq, Debug)]
pub struct UnknownSpace;

impl From<Space> for u32 {
    ghost from_gives = { λ space code. code ≡ code_of space };

    fn from(space: Space) -> u32 {
        space as u32
    }
}

impl TryFrom<u32> for Space {
    type Error = UnknownSpace;

    ghost try_from_gives = { λ code r. r ≡ ok_or (space_at code) (record {}) };

    fn try_from(code: u32) -> Result<Space, UnknownSpace> {
        match code {
            0 => Ok(Space::Dynamic),
            2 => Ok(Space::Static),
            3 => Ok(Space::ReadOnly),
            _ => Err(UnknownSpace),
        }
    }
}
