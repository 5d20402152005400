// The sets of a zone, within its apex and in the order of names, then kinds.
ghost use Rattle.std.specs.Prelude.{◌≡◌, true, map, length};
ghost use Rattle.names.specs.Names.{labels};
ghost use Rattle.records.specs.Sets.{set_of};
ghost use Rattle.zones.specs.Sorted.{all_within, fronts_of, sorted};

use names::Name;
use records::RecordSet;

pub mod build;
pub mod placing;
pub mod reply;
pub mod search;

// In its searches name and kind go by themselves: no caller has the two as one value without more in it.
#[derive(Drop)]
pub struct SortedSets {
    // What is put in is asked to be within it: the zone, which refuses the rest, has seen that. `Cuts` has its own, so that each
    // of the two says for itself what it keeps.
    apex: Name,
    // Strictly in order.
    sets: Vec<RecordSet>,
    // The front of each set's name below the apex, in a list of its own, since a zone shows its sets as a slice. A search by
    // names alone misses the aim of docs/BENCHMARKS.md.
    fronts: Vec<u64>,
    ghost ordered: { sorted (map set_of sets.items) ≡ true },
    ghost inside: { all_within (labels apex) (map set_of sets.items) ≡ true },
    ghost marked: { fronts.items ≡ fronts_of (length (labels apex)) (map set_of sets.items) },
}
