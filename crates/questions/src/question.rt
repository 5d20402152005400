// A question under way: what was asked, and the tries for each word that it needed.
ghost use Rattle.std.specs.Prelude.{◌≤◌, length};

use crate::tried::Tried;
use bounded::Bounded;
use names::Name;
use records::Kind;

pub mod parts;
pub mod tries;

// The most words that a question may need.
pub const MAX_WORDS: usize = 24;

// What is asked, and the ticket under which the answer is shown.
#[derive(Clone, Copy)]
pub struct Request {
    pub ticket: u64,
    pub name: Name,
    pub kind: Kind,
}

#[derive(Drop)]
pub struct Question {
    request: Request,
    tries: Bounded<Tried, MAX_WORDS>,
    // The type of the tries holds to it; here a caller's proof can read it of any question.
    ghost few: { length tries ≤ 24 },
}
