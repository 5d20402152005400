// Questions begin, and end where they are done.
ghost use Rattle.std.specs.Prelude.{◌≡◌, ◌+◌, ◌<◌, ◌≤◌, ◌⊎◌, vec_len, [], ◌++◌, map, take, drop, Some, None, length, IfOk, MatchOption, MatchResult, slice_index_or};
ghost use Rattle.std.specs.Option.{option_map};
ghost use Rattle.names.specs.declared.fault.Fault.TheVariants.{BadData, NoMemory};
ghost use Rattle.names.specs.Names.{labels};
ghost use Rattle.records.specs.Contents.{bytes_of};
ghost use Rattle.cache.specs.Caches.{entries_of};
ghost use Rattle.machine.specs.Machine as machine;
ghost use Rattle.machine.specs.Machine.{first_state, question, begin, settle, settle_in, shown_as};
ghost use Rattle.resolver.specs.Resolvers.{roots_of, rules_for, state_of, shown_for, answer_for};
ghost use Rattle.resolver.specs.Runs.{Runs, GoesOn, Keeps, KeepsIfOk};

use super::{MAX_ROOTS, Resolver};
use crate::answer::{Outcome, Shown, Standing};
use bounded::Bounded;
use cache::{Cache, Moment};
use names::Fault;
use questions::{PendingTable, Question, Request};
use records::Address;
use std::alloc::Global;

impl Resolver {
    // One that remembers nothing, and knows the root's servers, at most 16.
    pub fn new(heap: Global, roots: Vec<Address>) -> Result<Resolver, Fault>
        ensures made { MatchResult result (λ x. (state_of x ≡ first_state) × (roots_of x ≡ map bytes_of roots.items) × (vec_len roots ≤ 16)) (λ f. ((f ≡ BadData) × (16 < vec_len roots)) ⊎ (f ≡ NoMemory)) }
        ensures runs { IfOk result (λ x. Runs x []) }
    {
        if roots.len() > MAX_ROOTS {
            return Err(Fault::BadData);
        }
        let pending = PendingTable::new(heap)?;
        let cache = Cache::new(heap)?;
        let walks = Bounded::new(heap)?;
        Ok(Resolver {
            moment: Moment(0),
            roots,
            pending,
            cache,
            walks,
        })
    }

    // A question begins. It is shown at once where the cache has all its words, or no place is left for its walk.
    pub fn ask(&mut self, heap: Global, request: Request) -> Result<Option<Shown>, Fault>
        ensures done { MatchResult result (λ o. (option_map (shown_for (entries_of self.old.cache)) o ≡ (begin (rules_for self.old) (question request.ticket (labels request.name) request.kind.number) (state_of self.old)).shown) × (state_of self.new ≡ (begin (rules_for self.old) (question request.ticket (labels request.name) request.kind.number) (state_of self.old)).state)) (λ f. (f ≡ NoMemory) × (state_of self.new ≡ state_of self.old)) }
        ensures roots { roots_of self.new ≡ roots_of self.old }
        ensures runs { GoesOn self.old self.new }
        ensures promise { KeepsIfOk self.old result }
    {
        if self.walks.is_full() {
            let outcome = Outcome::NOWHERE;
            return Ok(Some(Shown { request, outcome }));
        }
        if let Some(outcome) = self.recalled(&request) {
            return Ok(Some(Shown { request, outcome }));
        }
        let question = Question::new(heap, request)?;
        if let Standing::Done(outcome) = self.standing(&question) {
            return Ok(Some(Shown { request, outcome }));
        }
        let _ = self.walks.push(question);
        Ok(None)
    }

    // The place of the first question that is done, and how it ends.
    fn first_done(&self) -> Option<(usize, Outcome)>
        ensures { MatchOption result (settle_in (rules_for self.now) (state_of self.now) (state_of self.now).walks ≡ record { walks = (state_of self.now).walks; shown = None }) (λ p. (p.0 < length self.now.walks) × ((d : machine.Question) → settle_in (rules_for self.now) (state_of self.now) (state_of self.now).walks ≡ record { walks = take p.0 (state_of self.now).walks ++ drop (p.0 + 1) (state_of self.now).walks; shown = Some (shown_as (slice_index_or (state_of self.now).walks p.0 d) (answer_for (entries_of self.now.cache) p.1.answer) p.1.left) })) }
    {
        for (place, question) in self.walks.as_slice().iter().enumerate() {
            if let Standing::Done(outcome) = self.standing(question) {
                return Some((place, outcome));
            }
        }
        None
    }

    // The first question that is done is shown, and ends.
    pub fn settle(&mut self) -> Option<Shown>
        ensures shown { option_map (shown_for (entries_of self.old.cache)) result ≡ (settle (rules_for self.old) (state_of self.old)).shown }
        ensures state { state_of self.new ≡ (settle (rules_for self.old) (state_of self.old)).state }
        ensures roots { roots_of self.new ≡ roots_of self.old }
        ensures runs { GoesOn self.old self.new }
        ensures promise { Keeps self.old result }
    {
        let (place, outcome) = self.first_done()?;
        let question = self.walks.remove(place)?;
        let request = *question.request();
        Some(Shown { request, outcome })
    }
}
