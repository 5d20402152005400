// Looking for newer versions.
ghost use Rattle.std.specs.Prelude.{◌≡◌, ◌+◌, ◌<◌, ◌^◌};
ghost use Rattle.names.specs.Names.{labels};
ghost use Rattle.valley.specs.Owning.{published_by};
ghost use Rattle.valley.specs.Having.{had, had_of, had_in, kept_by, is_before, later_of, zone_had, wait_for, Looked};

use super::{Copied, Keeping, RETRY, Servers};
use crate::owners::Owners;
use cache::Moment;
use names::{Fault, Name};
use script::MAX_SERVER;

impl Copied {
    // Of an earlier moment, or an older version of the same.
    fn is_before(&self, other: &Copied) -> bool
        ensures { result ≡ is_before (had_of self.now) (had_of other.now) }
    {
        self.moment.0 < other.moment.0
            || (self.moment.0 == other.moment.0 && self.serial < other.serial)
    }
}

// A copy gives way only to one that isn't before it.
fn later_of(copied: Option<Copied>, offer: Option<Copied>) -> Option<Copied>
    ensures { had_in result ≡ later_of (had_in copied) (had_in offer) }
{
    let Some(held) = copied else {
        return offer;
    };
    let Some(offer) = offer else {
        return copied;
    };
    if held.is_before(&offer) {
        Some(offer)
    } else {
        copied
    }
}

// For how many seconds a server that has looked doesn't look again.
fn wait(owners: &Owners, apex: &Name, copied: Option<Copied>, now: Moment) -> u64
    ensures { result ≡ wait_for (zone_had now.0 (published_by owners.now) (labels apex.now) (had_in copied)) }
{
    let Some(copied) = copied else {
        return RETRY;
    };
    match copied.zone(owners, apex, now) {
        Some(zone) => u64::from(zone.refresh().0),
        None => RETRY,
    }
}

impl Servers {
    // A keeping after a look.
    fn looked(&self, owners: &Owners, keeping: &Keeping, now: Moment) -> Keeping
        ensures of { (result.server ≡ keeping.now.server) × (labels result.apex ≡ labels keeping.now.apex) }
        ensures copied { Looked (had now.0 (published_by owners.now) (kept_by self.now) (labels keeping.now.apex)) keeping.now.server (had_in keeping.now.copied) (had_in result.copied) }
        ensures next_look { now.0 + wait_for (zone_had now.0 (published_by owners.now) (labels keeping.now.apex) (had_in result.copied)) < 2 ^ 64 → result.next_look.0 ≡ now.0 + wait_for (zone_had now.0 (published_by owners.now) (labels keeping.now.apex) (had_in result.copied)) }
    {
        let apex = &keeping.apex;
        let offer = self.nearest(owners, keeping.server, apex, now);
        let copied = later_of(keeping.copied, offer);
        let wait = wait(owners, apex, copied, now);
        Keeping {
            copied,
            next_look: Moment(now.0.saturating_add(wait)),
            ..*keeping
        }
    }

    fn look(&mut self, owners: &Owners, place: usize, now: Moment) {
        if let Some(keeping) = self.keepings.get(place) {
            self.keepings[place] = self.looked(owners, keeping, now);
        }
    }

    // A server keeps a copy of a zone from now on, and looks at once.
    pub fn keep(
        &mut self,
        owners: &Owners,
        server: u64,
        apex: Name,
        now: Moment,
    ) -> Result<(), Fault> {
        if let Some(place) = self.find(server, &apex) {
            self.look(owners, place, now);
            return Ok(());
        }
        let keeping = Keeping {
            server,
            apex,
            copied: None,
            next_look: now,
        };
        let keeping = self.looked(owners, &keeping, now);
        self.keepings.push(keeping)?;
        Ok(())
    }

    fn is_due(&self, place: usize, server: u64, now: Moment) -> bool {
        match self.keepings.get(place) {
            Some(keeping) => keeping.server == server && keeping.next_look <= now,
            None => false,
        }
    }

    // Each server looks for what it is time to look for.
    pub fn look_where_due(&mut self, owners: &Owners, now: Moment) {
        for server in 2..=MAX_SERVER {
            for place in 0..self.keepings.len() {
                if self.is_due(place, server, now) {
                    self.look(owners, place, now);
                }
            }
        }
    }
}
