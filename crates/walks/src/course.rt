// What a walk came to.
ghost use Rattle.std.specs.Prelude.{◌≡◌, List, map, Some};
ghost use Rattle.std.specs.List.{slice_get};
ghost use Rattle.names.specs.Names.{labels};
ghost use Rattle.protocol.specs.Words.{Server};
ghost use Rattle.protocol.specs.World.{rules_of};
ghost use Rattle.protocol.specs.Walks.{shown_by};
ghost use Rattle.cache.specs.Caches.{entries_of};
ghost use Rattle.cache.specs.Entries.{rules};
ghost use Rattle.walks.specs.Traces.{places_of};
ghost use Rattle.walks.specs.Courses.{course_of, least_of};
ghost use Rattle.walks.specs.Ways.{course_for, IsOfKind};

use crate::trace::{MAX_STEPS, Trace};
use crate::way::{Way, lesser_of};
use cache::{Cache, Key, Moment};
use names::Name;
use records::Kind;

#[derive(Clone, Copy)]
pub enum Ending {
    // The entry at this place ends the walk. A place and no reference: the cache is changed while answers are kept.
    Shows(usize),
    // The word of this key is lacking.
    Lacks(Key),
    TooLong,
}

#[derive(Clone, Copy)]
pub struct Course {
    pub ending: Ending,
    // The least that is left of the times of its words.
    pub least: u128,
    // The place of the referral that names the servers of the zone where it ends; the root's where there is none.
    pub referral: Option<usize>,
    // The places of its words.
    pub trace: Trace,
}

// The walk of a question by what the cache has at a moment. Name and kind go by themselves: what holds both elsewhere has a
// ticket too, or a zone.
pub fn walk(cache: &Cache, moment: Moment, name: &Name, kind: Kind) -> Course
    ensures course { (roots : List Server) → course_for roots (entries_of cache.now) result ≡ course_of (rules_of roots) moment.0 (entries_of cache.now) (labels name.now) kind.number }
    ensures words { map (slice_get (entries_of cache.now)) (places_of result.trace) ≡ map Some (shown_by rules moment.0 (entries_of cache.now) (labels name.now) kind.number).words }
    ensures kind { IsOfKind kind result.ending }
{
    let mut way = Way::from_root(*name, kind);
    let mut trace = Trace::empty();
    for _step in 0..MAX_STEPS {
        let Some((place, entry)) = cache.recall_entry(moment, &way.key) else {
            return way.stopped(Ending::Lacks(way.key), trace);
        };
        trace.push(place);
        match way.step(place, entry, moment) {
            Some(next) => way = next,
            None => {
                return Course {
                    ending: Ending::Shows(place),
                    least: lesser_of(way.least, entry.left(moment)),
                    referral: None,
                    trace,
                };
            }
        }
    }
    way.stopped(Ending::TooLong, trace)
}

impl Way {
    // Here, with what it has gathered.
    fn stopped(self, ending: Ending, trace: Trace) -> Course
        ensures { result ≡ record { ending = ending; least = least_of self.least; referral = self.referral; trace = trace } }
    {
        Course {
            ending,
            least: self.least.unwrap_or(0),
            referral: self.referral,
            trace,
        }
    }
}
