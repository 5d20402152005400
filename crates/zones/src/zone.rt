// A zone: what its owner says.
ghost use Rattle.std.specs.Prelude.{◌≡◌, ◌*◌, ◌≤◌, true, map, length};
ghost use Rattle.names.specs.Names.{labels};
ghost use Rattle.meaning.specs.Transfer.{all_transferred};
ghost use Rattle.records.specs.Sets.{set_of};
ghost use Rattle.zones.specs.Cuts.{cuts_of};
ghost use Rattle.zones.specs.Valid.{valid};

use crate::cuts::Cuts;
use crate::sets::SortedSets;
use records::{Serial, Ttl};

pub mod build;
pub mod lookup;

pub const MAX_SETS: usize = 4096;

// How long it may be remembered that something isn't there; how often a copy is looked at anew, and how long it is good.
#[derive(Clone, Copy, PartialEq, Eq, Debug)]
pub struct Times {
    pub negative: Ttl,
    pub refresh: Ttl,
    pub expire: Ttl,
}

#[derive(Drop)]
pub struct Zone {
    serial: Serial,
    times: Times,
    // Within the zone's apex, which they keep.
    sets: SortedSets,
    cuts: Cuts,
    // How many bytes the sets take in a transfer.
    carried: usize,
    ghost shared: { labels cuts.apex ≡ labels sets.apex },
    ghost limited: { valid (labels sets.apex) (map set_of sets.sets.items) ≡ true },
    ghost cut: { cuts_of (labels sets.apex) (map set_of sets.sets.items) (map labels cuts.names.items) ≡ true },
    ghost weighed: { carried ≡ length (all_transferred (map set_of sets.sets.items)) },
    ghost bounded: { carried ≤ 879 * length (map set_of sets.sets.items) },
}
