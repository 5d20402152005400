// A line that says something, and why one is refused.
ghost use Rattle.std.specs.Prelude.{◌≡◌, [], Ok, Err, MatchResult};

use crate::division::Piece;
use names::Fault;
use std::alloc::Global;

#[derive(Drop)]
pub struct Said<'a> {
    pub number: usize,
    pub pieces: Vec<Piece<'a>>,
}

impl<'a> Said<'a> {
    // Of no line yet.
    pub fn new(heap: Global) -> Said<'a>
        ensures number { result.number ≡ 0 }
        ensures pieces { result.pieces.items ≡ [] }
    {
        Said {
            number: 0,
            pieces: Vec::new(heap),
        }
    }
}

// The first faulty line of a text, and its lowest fault.
#[derive(Clone, Copy, PartialEq, Eq, Debug)]
pub struct Refusal {
    pub line: usize,
    pub fault: Fault,
}

impl Refusal {
    // What is read of a line, refused with its number.
    pub fn at<T>(line: usize, read: Result<T, Fault>) -> Result<T, Refusal>
        ensures { MatchResult result (λ x. read ≡ Ok x) (λ r. (read ≡ Err r.fault) × (r.line ≡ line)) }
    {
        read.map_err(|fault| Refusal { line, fault })
    }
}
