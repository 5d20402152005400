// A query counts as a try, once, for every question that lacks its word and may use it.
ghost use Rattle.std.specs.Prelude.{◌≡◌, map};
ghost use Rattle.protocol.specs.Walks.{shown_by};
ghost use Rattle.cache.specs.Caches.{entries_of};
ghost use Rattle.cache.specs.Entries.{rules};
ghost use Rattle.machine.specs.Machine.{lacks_for, count_tries, with_walks};
ghost use Rattle.questions.specs.Queries.{pending_of};
ghost use Rattle.questions.specs.Tries.{question_of};
ghost use Rattle.resolver.specs.Resolvers.{roots_of, rules_for, state_of, count_by};

use super::Resolver;
use cache::{Cache, Moment};
use questions::{Pending, Question};
use walks::{Ending, walk};

// Whether a question's walk lacks the word of a query. Not of the resolver, whose walks are lent to be changed meanwhile; and a
// value of cache and moment would hold a borrow, and be made for each call.
fn lacks_word(cache: &Cache, moment: Moment, question: &Question, pending: &Pending) -> bool
    ensures { result ≡ lacks_for (pending_of pending.now) (question_of question.now).kind (shown_by rules moment.0 (entries_of cache.now) (question_of question.now).name (question_of question.now).kind).end }
{
    let request = question.request();
    match walk(cache, moment, &request.name, request.kind).ending {
        Ending::Lacks(key) => pending.is_for(&key),
        Ending::Shows(_) | Ending::TooLong => false,
    }
}

// One question's count, where the query is for the word that it lacks.
fn count_for(cache: &Cache, moment: Moment, question: &mut Question, pending: &Pending)
    ensures { question_of question.new ≡ count_by moment.0 (entries_of cache.now) (pending_of pending.now) (question_of question.old) }
{
    if lacks_word(cache, moment, question, pending) {
        question.count_try(pending);
    }
}

// The count of each of these questions.
pub fn count_each(cache: &Cache, moment: Moment, walks: &mut [Question], pending: &Pending)
    ensures { map question_of walks.new ≡ map (count_by moment.0 (entries_of cache.now) (pending_of pending.now)) (map question_of walks.old) }
{
    for question in walks {
        count_for(cache, moment, question, pending);
    }
}

impl Resolver {
    pub fn count_tries(&mut self, pending: &Pending)
        ensures state { state_of self.new ≡ with_walks (count_tries (rules_for self.old) (state_of self.old) (pending_of pending.now) (state_of self.old).walks) (state_of self.old) }
        ensures roots { roots_of self.new ≡ roots_of self.old }
    {
        let walks = self.walks.as_mut_slice();
        count_each(&self.cache, self.moment, walks, pending);
    }
}
