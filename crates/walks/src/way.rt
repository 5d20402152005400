// Where a walk is, and what it has gathered: a value that each word turns into the next.
ghost use Rattle.std.specs.Prelude.{◌≡◌, [], IfSome, Some, None, MatchOption};
ghost use Rattle.names.specs.Names.{labels};
ghost use Rattle.protocol.specs.Walks.{left};
ghost use Rattle.protocol.specs.Words.{Ends, Goes, next};
ghost use Rattle.cache.specs.Entries.{entry_of, rules, said_of};
ghost use Rattle.walks.specs.Courses.{lesser};
ghost use Rattle.walks.specs.Ways.{outcome_of, Names};

use cache::{Entry, Key, Moment, Said};
use names::Name;
use records::Kind;

#[derive(Clone, Copy)]
pub struct Way {
    // The zone that is asked next, and for what.
    pub key: Key,
    // The least that is left of the times of the words so far.
    pub least: Option<u128>,
    // The place of the referral that names the zone's servers; the root's own where there is none.
    pub referral: Option<usize>,
}

// The lower of what is left so far and of a word more.
pub fn lesser_of(least: Option<u128>, more: u128) -> u128
    ensures { result ≡ lesser least more }
{
    least.map_or(more, |so_far| so_far.min(more))
}

impl Way {
    pub fn from_root(name: Name, kind: Kind) -> Way
        ensures apex { labels result.key.apex ≡ [] }
        ensures name { labels result.key.name ≡ labels name }
        ensures kind { result.key.kind ≡ kind }
        ensures least { result.least ≡ None }
        ensures referral { result.referral ≡ None }
    {
        Way {
            key: Key {
                apex: Name::root(),
                name,
                kind,
            },
            least: None,
            referral: None,
        }
    }

    // By a word, at a place of the cache: on to the next zone, or nowhere where the word ends the walk.
    #[tactic(auto, unfolding(protocol::specs::Words::next))]
    pub fn step(self, place: usize, entry: &Entry, moment: Moment) -> Option<Way>
        ensures turn { MatchOption result (next (said_of entry.now.said) (labels self.key.name) ≡ Ends (outcome_of (said_of entry.now.said))) (λ w. next (said_of entry.now.said) (labels self.key.name) ≡ Goes (labels w.key.apex) (labels w.key.name)) }
        ensures kind { IfSome result (λ w. w.key.kind ≡ self.key.kind) }
        ensures least { IfSome result (λ w. w.least ≡ Some (lesser self.least (left rules moment.0 (entry_of entry.now)))) }
        ensures referral { IfSome result (λ w. Names place (said_of entry.now.said) w.referral) }
    {
        let least = Some(lesser_of(self.least, entry.left(moment)));
        match &entry.said {
            Said::Alias(to) => Some(Way {
                least,
                ..Way::from_root(*to, self.key.kind)
            }),
            Said::Referral(referral) => Some(Way {
                key: Key {
                    apex: referral.name,
                    ..self.key
                },
                least,
                referral: Some(place),
            }),
            Said::Data(_) | Said::NoData | Said::NoName => None,
        }
    }
}
