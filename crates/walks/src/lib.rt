// Walks by what is remembered: from the root, word by word, to the end or to the first word that is lacking.
#![tactic(auto)]

mod course;
mod trace;
mod way;

pub use course::{Course, Ending, walk};
pub use trace::{MAX_STEPS, Trace};
