// A fixed mix of questions: of ten, six find data, and one each an alias, a referral, no data and no name.
use crate::load::{Plan, apex, label, named};
use names::{Fault, Name};
use records::Kind;
use std::alloc::Global;

// So many questions are made, and asked again and again.
const QUESTIONS: u64 = 1000;

// The step from one question's number to the next, so that they spread over the zone.
const STRIDE: u64 = 7919;

#[derive(Clone, Copy)]
pub struct Question {
    pub name: Name,
    pub kind: Kind,
}

fn one_of(number: u64, count: u64) -> u64 {
    number.checked_rem(count).unwrap_or(0)
}

fn asked(plan: &Plan, turn: u64) -> Result<Name, Fault> {
    let number = turn.wrapping_mul(STRIDE);
    match turn % 10 {
        6 => named(b'b', one_of(number, plan.aliases)),
        7 => named(b'd', one_of(number, plan.delegations))?.child(b"w"),
        8 => named(b'e', one_of(number, plan.empties)),
        // Just behind a name that is there.
        9 => apex()?.child(&longer(label(b'a', one_of(number, plan.addresses)))),
        _ => named(b'a', one_of(number, plan.addresses)),
    }
}

// A label with one letter more.
fn longer(label: [u8; 5]) -> [u8; 6] {
    let mut long = [b'x'; 6];
    long[..5].copy_from_slice(&label);
    long
}

pub fn mix(heap: Global, plan: &Plan) -> Result<Vec<Question>, Fault> {
    let kind = Kind::ADDRESS;
    let mut questions = Vec::new(heap);
    for turn in 0..QUESTIONS {
        let name = asked(plan, turn)?;
        questions.push(Question { name, kind })?;
    }
    Ok(questions)
}
