// What a question means by what the owners say now.
ghost use Rattle.std.specs.Prelude.{◌≡◌, MatchOption, MatchResult};
ghost use Rattle.names.specs.declared.fault.Fault.TheVariants.{NoMemory};
ghost use Rattle.names.specs.Names.{labels};
ghost use Rattle.protocol.specs.Words.{Ends, Goes, next};
ghost use Rattle.cache.specs.Entries.{said_of};
ghost use Rattle.walks.specs.Ways.{outcome_of};
ghost use Rattle.valley.specs.Owning.{published_by};
ghost use Rattle.valley.specs.Meanings.{meant_by, StandsFor};

use crate::owners::Owners;
use cache::{Said, Word};
use names::{Fault, Name};
use records::Kind;
use std::alloc::Global;
use walks::MAX_STEPS;

#[derive(Drop)]
pub enum Meaning {
    // The word that ends the walk.
    Word(Word),
    TooLong,
    // A zone on the way has no owner.
    Nowhere,
}

// Where a walk is: the zone that is asked next, and for which name.
#[derive(Clone, Copy)]
struct Place {
    apex: Name,
    name: Name,
}

// Where a word leads, if it doesn't end the walk.
#[tactic(auto, unfolding(protocol::specs::Words::next))]
fn onward(said: &Said, name: &Name) -> Option<Place>
    ensures { MatchOption result (next (said_of said.now) (labels name.now) ≡ Ends (outcome_of (said_of said.now))) (λ p. next (said_of said.now) (labels name.now) ≡ Goes (labels p.apex) (labels p.name)) }
{
    match said {
        Said::Referral(referral) => Some(Place {
            apex: referral.name,
            name: *name,
        }),
        Said::Alias(to) => Some(Place {
            apex: Name::root(),
            name: *to,
        }),
        Said::Data(_) | Said::NoData | Said::NoName => None,
    }
}

pub fn meant(heap: Global, owners: &Owners, asked: &Name, kind: Kind) -> Result<Meaning, Fault>
    ensures { MatchResult result (λ m. StandsFor m (meant_by (published_by owners.now) (labels asked.now) kind.number)) (λ f. f ≡ NoMemory) }
{
    let mut place = Place {
        apex: Name::root(),
        name: *asked,
    };
    for _step in 0..MAX_STEPS {
        let Some(word) = owners.tell(heap, &place.apex, &place.name, kind)? else {
            return Ok(Meaning::Nowhere);
        };
        match onward(&word.said, &place.name) {
            Some(next) => place = next,
            None => return Ok(Meaning::Word(word)),
        }
    }
    Ok(Meaning::TooLong)
}
