// Making such a list, reading it, and changing it in place.
ghost use Rattle.std.specs.Prelude.{◌≡◌, ◌<◌, ◌≤◌, ◌⊎◌, [], ◌∷◌, ◌++◌, length, nat_le, insert, remove, slice_index_or, Err, IfOk, IsOk, MatchOption, MatchResult};
ghost use Rattle.std.specs.Borrow.{sem};
ghost use Rattle.std.specs.Fn.{CalledAt};
ghost use Rattle.std.specs.List.Retain.{IsFiltered};
ghost use Rattle.bounded.specs.Lends.{LendsAll};

use crate::Bounded;
use std::alloc::{AllocError, Global};

impl<T, const N: usize> Bounded<T, N> {
    pub fn new(heap: Global) -> Result<Self, AllocError>
        ensures { IfOk result (λ b. b ≡ []) }
    {
        let items = Vec::with_capacity(heap, N)?;
        Ok(Bounded { items })
    }

    pub fn as_slice(&self) -> &[T]
        ensures value { result.now ≡ self.now }
        ensures few { length result.now ≤ N }
    {
        self.items.as_slice()
    }

    pub fn as_mut_slice(&mut self) -> &mut [T]
        ensures* writes_back { sem 𝓛 (LendsAll T.row N.row self.entry result) }
        ensures value { result.now ≡ self.old }
    {
        self.items.as_mut_slice()
    }

    pub fn len(&self) -> usize
        ensures value { result ≡ length self.now }
        ensures few { result ≤ N }
    {
        self.items.len()
    }

    pub fn is_full(&self) -> bool
        ensures { result ≡ nat_le N (length self.now) }
    {
        N <= self.len()
    }

    // At the end; a full list hands it back.
    pub fn push(&mut self, item: T) -> Result<(), T>
        ensures { MatchResult result (λ _. (length self.old < N) × (self.new ≡ self.old ++ item ∷ [])) (λ x. (N ≤ length self.old) × (x ≡ item) × (self.new ≡ self.old)) }
    {
        if self.is_full() {
            return Err(item);
        }
        self.items.push_reserved(item);
        Ok(())
    }

    // Before what stands at the place; a full list, or one that ends before the place, hands it back.
    pub fn insert(&mut self, at: usize, item: T) -> Result<(), T>
        ensures inserted { length self.old < N → at ≤ length self.old → IsOk result × (self.new ≡ insert self.old at item) }
        ensures refused { (N ≤ length self.old) ⊎ (length self.old < at) → (result ≡ Err item) × (self.new ≡ self.old) }
    {
        if self.is_full() || self.len() < at {
            return Err(item);
        }
        self.items.insert(at, item).map_err(|failed| failed.value)
    }

    // The others keep their order, and there is room again.
    pub fn remove(&mut self, at: usize) -> Option<T>
        ensures { MatchOption result ((length self.old ≤ at) × (self.new ≡ self.old)) (λ x. (at < length self.old) × (x ≡ slice_index_or self.old at x) × (self.new ≡ remove self.old at) × (length self.new < N)) }
    {
        if at >= self.len() {
            return None;
        }
        Some(self.items.remove(at))
    }
}

impl<T: Drop, const N: usize> Bounded<T, N> {
    // Only those that pass stay, in their order.
    pub fn retain<F: FnMut(&T) -> bool>(&mut self, passes: F)
        requires { F.IsAlwaysCallable passes }
        ensures { IsFiltered (CalledAt F.FnMut) passes self.old self.new }
    {
        self.items.retain(passes);
    }
}
