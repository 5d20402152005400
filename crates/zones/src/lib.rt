// Zones: made set by set within their limits, and asked by searches that halve.
#![tactic(auto)]

ghost use Rattle.zones.specs.Sorted.{SortedCanonical, SortedDistinct};

mod cuts;
mod reply;
mod sets;
mod zone;

pub use meaning::{cases_hold, says_laws, says_means};
pub use records::{Address, Data, Delegation, Kind, RecordSet, Serial, Ttl};
pub use reply::Reply;
pub use zone::{MAX_SETS, Times, Zone};

// A zone's sets are sorted, so they are distinct, which the laws of what a zone says ask for.
pub fn sorted_distinct()
    ensures { SortedDistinct }
{}

// Two zones with the same sets have equal lists of them.
pub fn sorted_canonical()
    ensures { SortedCanonical }
{}
