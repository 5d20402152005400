// A copy of a word, with memory of its own: a response that comes again says the same again.
ghost use Rattle.std.specs.Prelude.{◌≡◌, map, vec_items, MatchResult};
ghost use Rattle.names.specs.declared.fault.Fault.TheVariants.{NoMemory};
ghost use Rattle.names.specs.Names.{labels};
ghost use Rattle.records.specs.Contents.{bytes_of};
ghost use Rattle.cache.specs.Entries.{said_of, word_of};

use super::{Referral, Said, Word};
use names::Fault;
use std::alloc::Global;

impl Referral {
    pub fn copied(&self, heap: Global) -> Result<Referral, Fault>
        ensures name { MatchResult result (λ r. labels r.name ≡ labels self.now.name) (λ f. f ≡ NoMemory) }
        ensures servers { MatchResult result (λ r. map bytes_of (vec_items r.to.servers) ≡ map bytes_of (vec_items self.now.to.servers)) (λ f. f ≡ NoMemory) }
    {
        let name = self.name;
        let to = self.to.copied(heap)?;
        Ok(Referral { name, to })
    }
}

impl Said {
    pub fn copied(&self, heap: Global) -> Result<Said, Fault>
        ensures { MatchResult result (λ s. said_of s ≡ said_of self.now) (λ f. f ≡ NoMemory) }
    {
        Ok(match self {
            Said::Data(data) => Said::Data(data.copied(heap)?),
            Said::Alias(name) => Said::Alias(*name),
            Said::Referral(referral) => Said::Referral(referral.copied(heap)?),
            Said::NoData => Said::NoData,
            Said::NoName => Said::NoName,
        })
    }
}

impl Word {
    pub fn copied(&self, heap: Global) -> Result<Word, Fault>
        ensures { MatchResult result (λ w. word_of w ≡ word_of self.now) (λ f. f ≡ NoMemory) }
    {
        let said = self.said.copied(heap)?;
        let ttl = self.ttl;
        Ok(Word { said, ttl })
    }
}
