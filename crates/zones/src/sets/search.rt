// Searches of sorted sets: each halves, and finds what a look through all of them would find, of names outside the apex too.
ghost use Rattle.std.specs.Prelude.{◌≡◌, ◌≤◌, true, length};
ghost use Rattle.std.specs.Option.{option_map};
ghost use Rattle.names.specs.Fronts.{front_below};
ghost use Rattle.names.specs.Names.{labels};
ghost use Rattle.names.specs.Order.{within};
ghost use Rattle.meaning.specs.Says.{is_exactly, find, any_under};
ghost use Rattle.records.specs.Sets.{set_of};
ghost use Rattle.zones.specs.Sorted.{is_before_below, place, Alike, Narrowed};
ghost use Rattle.zones.specs.Zones.{sets_of};

use super::SortedSets;
use names::Name;
use records::{Kind, RecordSet};
use std::ops::Range;

// Whether a set stands before a name and kind, by the labels from a depth on.
pub fn is_before(set: &RecordSet, name: &Name, kind: Kind, depth: usize) -> bool
    ensures { result ≡ is_before_below depth (labels name.now) kind.number (set_of set.now) }
{
    let by_name = set.name().compare_below(name, depth);
    by_name.then_with(|| set.kind().cmp(&kind)).is_lt()
}

pub fn is_exactly(set: &RecordSet, name: &Name, kind: Kind) -> bool
    ensures { result ≡ is_exactly (labels name.now) kind.number (set_of set.now) }
{
    *set.name() == *name && set.kind() == kind
}

impl SortedSets {
    // From where to where sets could stand at a name within the apex: those before have names before it, those behind have
    // names behind it. Only between the two, where the fronts are mostly the same, do labels have to be compared.
    pub fn narrow_within(&self, name: &Name) -> Range<usize>
        requires { within (labels self.now.apex) (labels name.now) ≡ true }
        ensures narrowed { Narrowed (labels self.now.apex) (labels name.now) (sets_of self.now) result.start result.end }
        ensures alike { Alike (front_below (length (labels self.now.apex)) (labels name.now)) self.now.fronts.items result.start result.end }
    {
        let sought = name.front_below(self.apex.label_count());
        let fronts = self.fronts.as_slice();
        let low = fronts.partition_point(|front| *front < sought);
        // Where the front there is another, no set stands at the name, and none of their labels has to be read.
        if fronts.get(low) != Some(&sought) {
            return low..low;
        }
        // Most fronts stand alone, so a look at the next one saves a second search.
        if fronts.get(low + 1) != Some(&sought) {
            return low..low + 1;
        }
        let alike = fronts[low..].partition_point(|front| *front == sought);
        low..low + alike
    }

    // The same of any name: outside the apex it stands before all sets, or behind them.
    fn narrow(&self, name: &Name) -> Range<usize>
        ensures { Narrowed (labels self.now.apex) (labels name.now) (sets_of self.now) result.start result.end }
    {
        if name.is_within(&self.apex) {
            return self.narrow_within(name);
        }
        let at = if *name < self.apex {
            0
        } else {
            self.sets.len()
        };
        at..at
    }

    // How many sets stand before a name and kind, where sets could stand at the name only at these places.
    pub fn place_between(&self, places: Range<usize>, name: &Name, kind: Kind) -> usize
        requires { Narrowed (labels self.now.apex) (labels name.now) (sets_of self.now) places.start places.end }
        ensures value { result ≡ place (labels name.now) kind.number (sets_of self.now) }
        ensures bound { result ≤ length (sets_of self.now) }
    {
        let depth = self.apex.label_count();
        let start = places.start;
        let between = &self.sets.as_slice()[places];
        start + between.partition_point(|set| is_before(set, name, kind, depth))
    }

    // How many sets stand before a name and kind.
    pub fn position(&self, name: &Name, kind: Kind) -> usize
        ensures value { result ≡ place (labels name.now) kind.number (sets_of self.now) }
        ensures bound { result ≤ length (sets_of self.now) }
    {
        self.place_between(self.narrow(name), name, kind)
    }

    // The set of a name and kind, by their place.
    pub fn find_at(&self, at: usize, name: &Name, kind: Kind) -> Option<&RecordSet>
        requires { at ≡ place (labels name.now) kind.number (sets_of self.now) }
        ensures { option_map (λ s. set_of s.now) result ≡ find (is_exactly (labels name.now) kind.number) (sets_of self.now) }
    {
        let set = self.sets.get(at)?;
        is_exactly(set, name, kind).then_some(set)
    }

    // The set of a name and kind.
    pub fn find(&self, name: &Name, kind: Kind) -> Option<&RecordSet>
        ensures { option_map (λ s. set_of s.now) result ≡ find (is_exactly (labels name.now) kind.number) (sets_of self.now) }
    {
        self.find_at(self.position(name, kind), name, kind)
    }
}
