// Where a set that is to come has its place, and what it meets there.
ghost use Rattle.std.specs.Prelude.{◌≡◌, true, length};
ghost use Rattle.names.specs.Fronts.{front_below};
ghost use Rattle.names.specs.Names.{labels};
ghost use Rattle.names.specs.Order.{within};
ghost use Rattle.records.specs.Sets.{set_of};
ghost use Rattle.zones.specs.Sorted.{place, set_at};
ghost use Rattle.zones.specs.Valid.{clash, clashes, no_clash};
ghost use Rattle.zones.specs.Zones.{sets_of};

use super::SortedSets;
use super::search::is_before;
use records::RecordSet;

// How many sets stand before one that is to come, and the front of its name.
#[derive(Clone, Copy)]
pub struct Place {
    pub at: usize,
    pub front: u64,
}

// An alias stands alone at its name, whichever of the two came first.
fn clash(set: &RecordSet, other: &RecordSet) -> bool
    ensures { result ≡ clash (set_of set.now) (set_of other.now) }
{
    (set.kind().is_alias() || other.kind().is_alias()) && *set.name() == *other.name()
}

impl SortedSets {
    // How many sets stand before one that is to come, of whose name the front is known. Sets mostly come in their order, and mostly
    // the fronts tell; only where they don't is there a search.
    fn count_before(&self, front: u64, set: &RecordSet) -> usize
        requires inside { within (labels self.now.apex) (set_of set.now).name ≡ true }
        requires front { front ≡ front_below (length (labels self.now.apex)) (set_of set.now).name }
        ensures { result ≡ place (set_of set.now).name (set_of set.now).kind (sets_of self.now) }
    {
        let Some(last_front) = self.fronts.last() else {
            return 0;
        };
        if *last_front < front {
            return self.sets.len();
        }
        let Some(last) = self.sets.last() else {
            return 0;
        };
        if *last_front == front
            && is_before(last, set.name(), set.kind(), self.apex.label_count())
        {
            return self.sets.len();
        }
        self.position(set.name(), set.kind())
    }

    pub fn place_of(&self, set: &RecordSet) -> Place
        requires { within (labels self.now.apex) (set_of set.now).name ≡ true }
        ensures at { result.at ≡ place (set_of set.now).name (set_of set.now).kind (sets_of self.now) }
        ensures front { result.front ≡ front_below (length (labels self.now.apex)) (set_of set.now).name }
    {
        let front = set.name().front_below(self.apex.label_count());
        let at = self.count_before(front, set);
        Place { at, front }
    }

    // Whether a set clashes with the one at an index.
    fn clashes_at(&self, at: usize, set: &RecordSet) -> bool
        ensures { result ≡ clashes (set_of set.now) (set_at at (sets_of self.now)) }
    {
        let other = self.sets.get(at);
        other.is_some_and(|other| clash(set, other))
    }

    // Whether a set clashes with any, by its place: whatever stands at its name stands on both sides of it, and an alias that does
    // stands there alone.
    pub fn has_clash(&self, at: usize, set: &RecordSet) -> bool
        requires alone { no_clash (sets_of self.now) ≡ true }
        requires place { at ≡ place (set_of set.now).name (set_of set.now).kind (sets_of self.now) }
        ensures { result ≡ clashes (set_of set.now) (sets_of self.now) }
    {
        if self.clashes_at(at, set) {
            return true;
        }
        at > 0 && self.clashes_at(at - 1, set)
    }
}
