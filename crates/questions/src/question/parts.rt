// Making a question, and what it asks.
ghost use Rattle.std.specs.Prelude.{◌≡◌, ◌≤◌, length, MatchResult};
ghost use Rattle.names.specs.declared.fault.Fault.TheVariants.{NoMemory};
ghost use Rattle.names.specs.Names.{labels};
ghost use Rattle.machine.specs.Machine.{max_words, question};
ghost use Rattle.questions.specs.Tries.{question_of, tries_of};

use super::{Question, Request};
use bounded::Bounded;
use names::Fault;
use std::alloc::Global;

impl Question {
    pub fn new(heap: Global, request: Request) -> Result<Question, Fault>
        ensures { MatchResult result (λ q. question_of q ≡ question request.ticket (labels request.name) request.kind.number) (λ f. f ≡ NoMemory) }
    {
        let tries = Bounded::new(heap)?;
        Ok(Question { request, tries })
    }

    pub fn request(&self) -> &Request
        ensures ticket { result.now.ticket ≡ (question_of self.now).ticket }
        ensures name { labels result.now.name ≡ (question_of self.now).name }
        ensures kind { result.now.kind.number ≡ (question_of self.now).kind }
    {
        &self.request
    }

    // How many words it needed so far.
    pub fn tries_len(&self) -> usize
        ensures value { result ≡ length (tries_of self.now) }
        ensures few { result ≤ max_words }
    {
        self.tries.len()
    }
}
