// The tries of a question: looked for by their word, and counted.
ghost use Rattle.std.specs.Prelude.{◌≡◌, ◌<◌, not, [], ◌∷◌, ◌++◌, length, slice_index_or, slice_set};
ghost use Rattle.std.specs.Option.{option_map};
ghost use Rattle.names.specs.Names.{labels};
ghost use Rattle.machine.specs.Store.{place_of};
ghost use Rattle.machine.specs.Machine as machine;
ghost use Rattle.machine.specs.Machine.{is_word, tried_of, too_many};
ghost use Rattle.questions.specs.Tries.{tried_for, tries_of, question_of, with_tries, tried_again, counted};

use super::Question;
use crate::query::Pending;
use crate::tried::Tried;
use cache::Key;

impl Question {
    // Where the tries for a word stand.
    fn find(&self, key: &Key) -> Option<usize>
        ensures { result ≡ place_of (is_word (labels key.now.apex) (labels key.now.name)) (tries_of self.now) }
    {
        self.tries
            .as_slice()
            .iter()
            .position(|tried| tried.is_word(key))
    }

    pub fn tried(&self, key: &Key) -> Option<Tried>
        ensures { option_map tried_for result ≡ tried_of (labels key.now.apex) (labels key.now.name) (tries_of self.now) }
    {
        self.tries
            .as_slice()
            .iter()
            .find(|tried| tried.is_word(key))
            .copied()
    }

    // Whether the word is one of those that it needed, or there may be one more.
    pub fn may_use(&self, key: &Key) -> bool
        ensures { result ≡ not (too_many (tried_of (labels key.now.apex) (labels key.now.name) (tries_of self.now)) (tries_of self.now)) }
    {
        self.find(key).is_some() || !self.tries.is_full()
    }

    // The tries for the word at a place, with a query more.
    fn recount(&mut self, at: usize, pending: &Pending)
        requires { at < length (tries_of self.old) }
        ensures { (d : machine.Tried) → question_of self.new ≡ with_tries (slice_set (tries_of self.old) at (tried_again pending.now.place pending.now.query.id.0 (slice_index_or (tries_of self.old) at d))) (question_of self.old) }
    {
        let tries = self.tries.as_mut_slice();
        tries[at] = tries[at].again(pending);
    }

    // A query counts once as a try for its word; where the question may need no more words nothing changes.
    pub fn count_try(&mut self, pending: &Pending)
        ensures { question_of self.new ≡ counted (labels pending.now.query.key.apex) (labels pending.now.query.key.name) pending.now.place pending.now.query.id.0 (question_of self.old) }
    {
        match self.find(&pending.query.key) {
            Some(at) => self.recount(at, pending),
            None => {
                let _ = self.tries.push(Tried::first(pending));
            }
        }
    }
}
