// A response is heard: its word is remembered, and its query is pending no more.
ghost use Rattle.std.specs.Prelude.{◌≡◌, ◌≤◌, false, map, length, None, Ok, Err, MatchResult, nat_eq};
ghost use Rattle.protocol.specs.Lists.{first};
ghost use Rattle.protocol.specs.World.{entry_for};
ghost use Rattle.cache.specs.Caches.{entries_of};
ghost use Rattle.cache.specs.Entries.{entry_of, word_of};
ghost use Rattle.machine.specs.Machine as machine;
ghost use Rattle.machine.specs.Machine.{max_walks, in_use, heard_by, hear_fit, hear_for, hear};
ghost use Rattle.machine.specs.Store.{put};
ghost use Rattle.questions.specs.Queries.{pending_of, query_of};
ghost use Rattle.questions.specs.Tables.{table_of};
ghost use Rattle.resolver.specs.Hears.{response_of, ousts, Hears};
ghost use Rattle.resolver.specs.Resolvers.{roots_of, rules_for, state_of};
ghost use Rattle.resolver.specs.Runs.{GoesOnHearing};

use super::Resolver;
use crate::response::Response;
use crate::response::fitting::check;
use cache::{Entry, MAX_ENTRIES, Moment, Numbers, Stored, Word};
use names::Fault;
use questions::{Pending, Query};
use walks::walk;

// What was forgotten for a word that is remembered.
#[derive(Clone, Copy, PartialEq, Eq, Debug)]
pub enum Heard {
    // At most the word of the same key.
    Kept,
    // The memory was full: the word that runs out first of those not in use.
    Ousted,
}

// What is remembered of a word that was heard at a moment.
fn entry_for(moment: Moment, query: &Query, word: Word) -> Entry
    ensures { entry_of result ≡ entry_for moment.0 (query_of query.now) (word_of word) }
{
    Entry {
        key: query.key,
        said: word.said,
        numbers: Numbers {
            ttl: word.ttl,
            heard: moment,
            id: query.id,
            server: query.server,
        },
    }
}

impl Resolver {
    // Sets the flag of each entry by which a walk under way goes.
    fn mark_used(&self, used: &mut [bool])
        requires { used.old ≡ map (λ _. false) (entries_of self.now.cache) }
        ensures used { used.new ≡ map (in_use (rules_for self.now) (state_of self.now)) (entries_of self.now.cache) }
        ensures few { length (state_of self.now).walks ≤ max_walks }
    {
        for question in self.walks.as_slice() {
            let request = question.request();
            let course = walk(&self.cache, self.moment, &request.name, request.kind);
            course.trace.mark(used);
        }
    }

    // The query that a response answers.
    fn answered(&self, response: &Response) -> Result<Pending, Fault>
        ensures { MatchResult result (λ p. hear_for (rules_for self.now) (state_of self.now) (response_of response.now) (first (λ (x : machine.Pending). nat_eq x.query.id response.now.id.0) (table_of self.now.pending)) ≡ hear_fit (rules_for self.now) (state_of self.now) (pending_of p) (word_of response.now.word) None) (λ f. hear_for (rules_for self.now) (state_of self.now) (response_of response.now) (first (λ (x : machine.Pending). nat_eq x.query.id response.now.id.0) (table_of self.now.pending)) ≡ Err f) }
    {
        let pending = self.pending.by_id(response.id).ok_or(Fault::NotPending)?;
        if pending.query.key.apex != response.apex {
            return Err(Fault::WrongApex);
        }
        check(&pending.query, &response.word.said)?;
        Ok(pending)
    }

    // The word of a pending query is remembered, and the query is closed.
    fn remember(&mut self, pending: &Pending, word: Word) -> Heard
        ensures done { heard_by (rules_for self.old) (state_of self.old) (pending_of pending.now) (put (rules_for self.old) (in_use (rules_for self.old) (state_of self.old)) (entry_for self.old.moment.0 (pending_of pending.now).query (word_of word)) (entries_of self.old.cache)) ≡ Ok (record { state = state_of self.new; ousted = ousts result }) }
        ensures roots { roots_of self.new ≡ roots_of self.old }
    {
        let mut flags = [false; MAX_ENTRIES];
        let used = &mut flags[..self.cache.len()];
        self.mark_used(used);
        // Counted while the word is lacking still.
        self.count_tries(pending);
        self.pending.close(pending.query.id);
        let entry = entry_for(self.moment, &pending.query, word);
        match self.cache.put(entry, used) {
            Stored::Kept => Heard::Kept,
            Stored::Ousted => Heard::Ousted,
            // The walks under way go by far fewer words than are remembered.
            Stored::NoRoom => unreachable!(),
        }
    }

    // A refused response changes nothing.
    pub fn hear(&mut self, response: Response) -> Result<Heard, Fault>
        ensures done { Hears (hear (rules_for self.old) (response_of response) (state_of self.old)) (state_of self.old) result (state_of self.new) }
        ensures roots { roots_of self.new ≡ roots_of self.old }
        ensures runs { GoesOnHearing self.old (response_of response) result self.new }
    {
        let pending = self.answered(&response)?;
        Ok(self.remember(&pending, response.word))
    }
}
