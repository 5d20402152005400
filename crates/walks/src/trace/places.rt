// Gathering places, and marking them.
ghost use Rattle.std.specs.Prelude.{◌≡◌, [], length};
ghost use Rattle.std.specs.List.{slice_get};
ghost use Rattle.walks.specs.Traces.{places_of, one_place, marked};

use super::{MAX_STEPS, Trace};

impl Trace {
    #[tactic(auto, unfolding(crate::specs::Traces::places_of))]
    pub fn empty() -> Trace
        ensures { places_of result ≡ [] }
    {
        Trace {
            places: [0; MAX_STEPS],
            count: 0,
        }
    }

    // One place more; a walk never has more than there is room for.
    #[tactic(auto, using(crate::proofs::Traced::pushed, crate::proofs::Traced::full), unfolding(crate::specs::Traces::places_of))]
    pub fn push(&mut self, place: usize)
        ensures { places_of self.new ≡ one_place place (places_of self.old) }
    {
        if self.count < MAX_STEPS {
            self.places[self.count] = place;
            self.count += 1;
        }
    }

    // In their order.
    #[tactic(auto, unfolding(crate::specs::Traces::places_of))]
    fn as_slice(&self) -> &[usize]
        ensures { result.now ≡ places_of self.now }
    {
        &self.places[..self.count]
    }

    #[tactic(auto, unfolding(crate::specs::Traces::places_of))]
    pub fn len(&self) -> usize
        ensures { result ≡ length (places_of self.now) }
    {
        self.count
    }

    pub fn get(&self, i: usize) -> Option<usize>
        ensures { result ≡ slice_get (places_of self.now) i }
    {
        self.as_slice().get(i).copied()
    }

    // Sets the flag of each of its places.
    #[tactic(auto, using(crate::proofs::Traced::mark_on, crate::proofs::Traced::mark_past, crate::proofs::Traced::mark_end))]
    pub fn mark(&self, flags: &mut [bool])
        ensures { flags.new ≡ marked (places_of self.now) flags.old }
    {
        for place in self.as_slice() {
            if *place < flags.len() {
                flags[*place] = true;
            }
        }
    }
}
