// The state of a reader: the caller's text from where it is read on, and how many lines are read.

ghost use Rattle.std.specs.Prelude.{◌+◌, ◌^◌, ◌<◌, length};

/// Reads the caller's text line by line.
#[derive(Drop)]
pub struct Reader<'a> {
    pub(crate) rest: &'a [u8],
    pub(crate) line: u64,
    ghost fits: { line + length rest.now < 2 ^ 64 },
}
