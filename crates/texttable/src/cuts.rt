// How a text fares that is cut short.
use std::alloc::Global;
use std::{fmt, io};
use zones::Zone;
use zonetext::{Refusal, load};

// How many fronts were accepted, and how many refused with each fault that a text can have, by its number.
#[derive(Clone, Copy, Default)]
struct Tally {
    accepted: u64,
    refused: [u64; 8],
}

impl Tally {
    fn count(&mut self, outcome: Result<Zone, Refusal>) {
        let Err(refusal) = outcome else {
            self.accepted = self.accepted.saturating_add(1);
            return;
        };
        let number = refusal.fault.number().map_or(0, usize::from);
        if let Some(count) = self.refused.get_mut(number) {
            *count = count.saturating_add(1);
        }
    }
}

impl fmt::Display for Tally {
    fn fmt<W: fmt::Write>(&self, f: &mut fmt::Formatter<W>) -> fmt::Result {
        let accepted = self.accepted;
        write!(f, "accepted {accepted}")?;
        for (number, count) in self.refused.iter().enumerate() {
            if *count > 0 {
                write!(f, ", fault {number}: {count}")?;
            }
        }
        Ok(())
    }
}

// Every front of the text, from no byte to all but one.
pub fn print_cuts(
    rt: &HostRuntime,
    heap: Global,
    old: Option<&Zone>,
    text: &[u8],
) -> io::Result<()> {
    let mut tally = Tally::default();
    for end in 0..text.len() {
        tally.count(load(heap, old, &text[..end]));
    }
    println!(rt; "{tally}")
}
