// What is shown of a question, and where one stands.
use cache::Key;
use questions::{Request, Tried};

#[derive(Clone, Copy)]
pub enum Answer {
    // What the entry at this place of the cache says.
    At(usize),
    TooLong,
    // Nothing could be had.
    Nowhere,
}

#[derive(Clone, Copy)]
pub struct Outcome {
    pub answer: Answer,
    // For how many seconds it may be remembered.
    pub left: u128,
}

#[derive(Clone, Copy)]
pub struct Shown {
    pub request: Request,
    pub outcome: Outcome,
}

// A query that a question wants: the word, the place of the referral that names the servers, and the tries so far.
#[derive(Clone, Copy)]
pub struct Wanted {
    pub key: Key,
    pub referral: Option<usize>,
    pub tried: Option<Tried>,
}

#[derive(Clone, Copy)]
pub enum Standing {
    Done(Outcome),
    Awaits(Key),
    Wants(Wanted),
}

impl Outcome {
    pub const NOWHERE: Outcome = Outcome {
        answer: Answer::Nowhere,
        left: 0,
    };
}
