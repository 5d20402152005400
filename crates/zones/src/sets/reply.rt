// What sorted sets say of a name and kind that no delegation is over.
ghost use Rattle.std.specs.Prelude.{◌≡◌, true, [], ◌∷◌};
ghost use Rattle.names.specs.Names.{labels};
ghost use Rattle.names.specs.Order.{within};
ghost use Rattle.meaning.specs.Speech.{undelegated};
ghost use Rattle.records.specs.Sets.{set_of};
ghost use Rattle.zones.specs.Sorted.{set_at};
ghost use Rattle.zones.specs.Valid.{no_clash};
ghost use Rattle.zones.specs.Zones.{sets_of, speaker_of};

use super::SortedSets;
use crate::reply::Reply;
use names::Name;
use records::{Kind, RecordSet};

// What one set says of a name and kind, where it stands alone.
fn reply_of<'a>(set: &'a RecordSet, name: &Name, kind: Kind) -> Reply<'a>
    ensures { speaker_of result ≡ undelegated (labels name.now) kind.number (set_of set.now ∷ []) }
{
    let own = set.name();
    let own_kind = set.kind();
    if !own.is_within(name) {
        return Reply::NoName;
    }
    if own.label_count() != name.label_count() {
        return Reply::NoData;
    }
    if own_kind == kind {
        return Reply::Data(set);
    }
    if own_kind.is_alias() {
        return Reply::Alias(set);
    }
    Reply::NoData
}

impl SortedSets {
    // What the set at an index says, or that there is none.
    fn reply_at(&self, at: usize, name: &Name, kind: Kind) -> Reply<'_>
        ensures { speaker_of result ≡ undelegated (labels name.now) kind.number (set_at at (sets_of self.now)) }
    {
        let set = self.sets.get(at);
        set.map_or(Reply::NoName, |set| reply_of(set, name, kind))
    }

    // The two sets on both sides of the place of the name and kind say it: an alias stands alone at its name, and what is
    // below a name stands right behind it.
    pub fn reply_among(&self, name: &Name, kind: Kind) -> Reply<'_>
        requires alone { no_clash (sets_of self.now) ≡ true }
        requires asked { within (labels self.now.apex) (labels name.now) ≡ true }
        ensures { speaker_of result ≡ undelegated (labels name.now) kind.number (sets_of self.now) }
    {
        let at = self.place_between(self.narrow_within(name), name, kind);
        let here = self.reply_at(at, name, kind);
        if here.is_data() || at == 0 {
            return here;
        }
        let before = self.reply_at(at - 1, name, kind);
        if before.is_no_name() { here } else { before }
    }
}
