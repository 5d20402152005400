// Where a question stands: done, waiting for a pending query, or wanting one to be sent.
ghost use Rattle.std.specs.Prelude.{◌≡◌, ℕ, map, IfSome};
ghost use Rattle.names.specs.Names.{labels};
ghost use Rattle.records.specs.Contents.{bytes_of};
ghost use Rattle.cache.specs.Caches.{entries_of};
ghost use Rattle.machine.specs.Machine.{count_of, exhausted, is_last, lacking, question, standing, tried_of, pending_for, Done};
ghost use Rattle.questions.specs.Tries.{question_of, tries_of, tried_for};
ghost use Rattle.questions.specs.Queries.{pending_of};
ghost use Rattle.questions.specs.Tables.{table_of};
ghost use Rattle.walks.specs.Ways.{servers_at};
ghost use Rattle.resolver.specs.Resolvers.{roots_of, rules_for, state_of, answer_for, standing_for, one_tried, WantsKind};

use super::Resolver;
use crate::answer::{Answer, Outcome, Standing, Wanted};
use cache::{Key, Said};
use questions::{Pending, Question, Request, Tried};
use records::Address;
use walks::{Ending, walk};

fn count_of(tried: Option<Tried>) -> usize
    ensures { result ≡ count_of (one_tried tried) }
{
    tried.map_or(0, |tried| usize::from(tried.count))
}

// Each named server was asked twice.
fn is_exhausted(servers: &[Address], tried: Option<Tried>) -> bool
    ensures { result ≡ exhausted (map bytes_of servers.now) (one_tried tried) }
{
    servers.len() <= count_of(tried) / 2
}

// The pending query was counted last for this question.
fn is_last(tried: Option<Tried>, pending: &Pending) -> bool
    ensures { result ≡ is_last (one_tried tried) (pending_of pending.now) }
{
    tried.is_some_and(|tried| pending.has_id(tried.id))
}

impl Resolver {
    // The servers that the referral at a place names, or the root's.
    pub fn servers_at(&self, referral: Option<usize>) -> &[Address]
        ensures { map bytes_of result.now ≡ servers_at (roots_of self.now) (entries_of self.now.cache) referral }
    {
        let entry = referral.and_then(|place| self.cache.get(place));
        match entry.map(|entry| &entry.said) {
            Some(Said::Referral(referral)) => referral.to.servers.as_slice(),
            _ => self.roots.as_slice(),
        }
    }

    // A question that lacks a word which it may use.
    fn lacking(&self, question: &Question, key: Key, referral: Option<usize>) -> Standing
        ensures standing { standing_for (roots_of self.now) (entries_of self.now.cache) result ≡ lacking (labels key.apex) (labels key.name) (servers_at (roots_of self.now) (entries_of self.now.cache) referral) (tried_of (labels key.apex) (labels key.name) (tries_of question.now)) (pending_for (labels key.apex) (labels key.name) key.kind.number (table_of self.now.pending)) }
        ensures kind { WantsKind key.kind.number result }
    {
        let tried = question.tried(&key);
        let pending = self.pending.for_word(&key);
        if is_exhausted(self.servers_at(referral), tried)
            && !pending.is_some_and(|pending| is_last(tried, &pending))
        {
            return Standing::Done(Outcome::NOWHERE);
        }
        match pending {
            Some(_) => Standing::Awaits(key),
            None => Standing::Wants(Wanted {
                key,
                referral,
                tried,
            }),
        }
    }

    // How a question ends, where the cache has all its words.
    pub fn recalled(&self, request: &Request) -> Option<Outcome>
        ensures { IfSome result (λ o. (t : ℕ) → Done (answer_for (entries_of self.now.cache) o.answer) o.left ≡ standing (rules_for self.now) (state_of self.now) (question t (labels request.now.name) request.now.kind.number)) }
    {
        let course = walk(&self.cache, self.moment, &request.name, request.kind);
        let answer = match course.ending {
            Ending::Shows(place) => Answer::At(place),
            Ending::TooLong => Answer::TooLong,
            Ending::Lacks(_) => return None,
        };
        Some(Outcome {
            answer,
            left: course.least,
        })
    }

    // What it wants is of its own kind.
    pub fn standing(&self, question: &Question) -> Standing
        ensures standing { standing_for (roots_of self.now) (entries_of self.now.cache) result ≡ standing (rules_for self.now) (state_of self.now) (question_of question.now) }
        ensures kind { WantsKind (question_of question.now).kind result }
    {
        let request = question.request();
        let course = walk(&self.cache, self.moment, &request.name, request.kind);
        let left = course.least;
        match course.ending {
            Ending::Shows(place) => Standing::Done(Outcome {
                answer: Answer::At(place),
                left,
            }),
            Ending::TooLong => Standing::Done(Outcome {
                answer: Answer::TooLong,
                left,
            }),
            Ending::Lacks(key) => {
                if question.may_use(&key) {
                    self.lacking(question, key, course.referral)
                } else {
                    Standing::Done(Outcome::NOWHERE)
                }
            }
        }
    }
}
