// Searching the index, which halves, and changing it.
ghost use Rattle.std.specs.Prelude.{◌≡◌, ℕ, ◌+◌, ◌<◌, ◌≤◌, true, false, [], length, MatchOption, MatchResult, ◌≢◌, ◌==◌};
ghost use Rattle.std.specs.List.{filter, take_while};
ghost use Rattle.names.specs.declared.fault.Fault.TheVariants.{NoMemory};
ghost use Rattle.machine.specs.Store.{max_entries};
ghost use Rattle.cache.specs.Hints.{hash_at, place_on, hinted};
ghost use Rattle.cache.specs.Indexes.{hints_of};

use super::{Hint, Index};
use bounded::Bounded;
use names::Fault;
use std::alloc::Global;

impl Index {
    pub fn new(heap: Global) -> Result<Index, Fault>
        ensures { MatchResult result (λ x. hints_of x ≡ []) (λ f. f ≡ NoMemory) }
    {
        let hints = Bounded::new(heap)?;
        Ok(Index { hints })
    }

    // How many hints have a lower hash.
    fn first(&self, hash: u64) -> usize
        ensures within { result ≤ length (hints_of self.now) }
        ensures below { (k : ℕ) → k < result → hash_at (hints_of self.now) k < hash }
        ensures above { (k : ℕ) → result ≤ k → k < length (hints_of self.now) → hash ≤ hash_at (hints_of self.now) k }
    {
        self.hints
            .as_slice()
            .partition_point(|hint| hint.hash < hash)
    }

    // The hints of a hash, which stand side by side, and behind them those of higher hashes: who looks for one of the hash need
    // not see them all.
    pub fn from_hash(&self, hash: u64) -> &[Hint]
        ensures { take_while (λ x. x.hash == hash) result.now ≡ filter (λ x. x.hash == hash) (hints_of self.now) }
    {
        &self.hints.as_slice()[self.first(hash)..]
    }

    // One hint more, where there is room.
    pub fn insert(&mut self, hash: u64, place: usize)
        requires { length (hints_of self.old) < max_entries }
        ensures there { hinted hash place (hints_of self.new) ≡ true }
        ensures others { (h i : ℕ) → hinted h i (hints_of self.old) ≡ true → hinted h i (hints_of self.new) ≡ true }
        ensures len { length (hints_of self.new) ≡ length (hints_of self.old) + 1 }
    {
        let at = self.first(hash);
        let _ = self.hints.insert(at, Hint { hash, place });
    }

    // Where the hint of a place stands.
    fn position(&self, place: usize) -> Option<usize>
        ensures { MatchOption result (((h : ℕ) → hinted h place (hints_of self.now) ≡ false)) (λ k. (k < length (hints_of self.now)) × (place_on (hints_of self.now) k ≡ place)) }
    {
        self.hints
            .as_slice()
            .iter()
            .position(|hint| hint.place == place)
    }

    // Without a hint of a place that has one.
    pub fn remove(&mut self, place: usize)
        requires { (h : ℕ) × (hinted h place (hints_of self.old) ≡ true) }
        ensures others { (h i : ℕ) → (i ≢ place) → hinted h i (hints_of self.old) ≡ true → hinted h i (hints_of self.new) ≡ true }
        ensures len { length (hints_of self.new) + 1 ≡ length (hints_of self.old) }
        ensures room { length (hints_of self.new) < max_entries }
    {
        if let Some(at) = self.position(place) {
            self.hints.remove(at);
        }
    }
}
