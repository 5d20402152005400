// The lines of a text with their numbers.
ghost use Rattle.std.specs.Prelude.{◌+◌, ◌^◌, ◌<◌, length};

pub mod next;

// Those that are still to be read.
#[derive(Drop)]
pub struct Lines<'a> {
    rest: &'a [u8],
    // Of the next line, from 1.
    number: usize,
    ghost counted: { number + length rest.now < 2 ^ 64 },
}
