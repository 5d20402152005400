// How old the words are that askers remember.
ghost use Rattle.std.specs.Prelude.{◌≡◌, ◌≢◌, ℕ, ◌-◌, Some, None, OnOk, nat_eq};
ghost use Rattle.std.specs.Option.{option_map};
ghost use Rattle.std.specs.HashMap.{get};

use cache::{Moment, QueryId};
use names::Fault;
use std::alloc::Global;
use std::collections::HashMap;

// For each query whose response was heard, the moment as of which the server had the zone when it answered.
#[derive(Drop)]
pub struct Ages {
    moments: HashMap<u64, u64>,
}

impl Ages {
    pub fn new(heap: Global) -> Ages
        ensures { (n : ℕ) → get nat_eq result.moments n ≡ None }
    {
        Ages {
            moments: HashMap::new(heap),
        }
    }

    pub fn note(&mut self, id: QueryId, moment: Moment) -> Result<(), Fault>
        ensures noted { OnOk result (get nat_eq self.new.moments id.0 ≡ Some moment.0) }
        ensures others { OnOk result ((n : ℕ) → n ≢ id.0 → get nat_eq self.new.moments n ≡ get nat_eq self.old.moments n) }
    {
        self.moments.insert(id.0, moment.0)?;
        Ok(())
    }

    // The age now of a word that came in response to a query.
    pub fn age(&self, id: QueryId, now: Moment) -> Option<u64>
        ensures { result ≡ option_map (λ m. now.0 - m) (get nat_eq self.now.moments id.0) }
    {
        let moment = self.moments.get(&id.0)?;
        Some(now.0.saturating_sub(*moment))
    }
}
