// What a server has of a zone.
ghost use Rattle.std.specs.Prelude.{◌≡◌, []};
ghost use Rattle.std.specs.Option.{option_map};
ghost use Rattle.names.specs.Names.{labels};
ghost use Rattle.zones.specs.Zones.{zone_of};
ghost use Rattle.protocol.specs.Words.{Server};
ghost use Rattle.protocol.specs.World.{unexpired};
ghost use Rattle.valley.specs.Owning.{published_by, version_at};
ghost use Rattle.valley.specs.Having.{had_in, kept_by, keeping_of, is_by, copy_by, good, had, IsNearest};

use super::{Copied, Keeping, OWNERS_SERVER, Servers};
use crate::owners::Owners;
use cache::Moment;
use names::Name;
use std::alloc::Global;
use zones::Zone;

impl Copied {
    // Up to and including its moment and its own zone's expire.
    pub fn is_unexpired(&self, zone: &Zone, now: Moment) -> bool
        ensures { (s : Server) → result ≡ unexpired now.0 (record { server = s; zone = zone_of zone.now; taken = self.now.moment.0 }) }
    {
        now.0.saturating_sub(self.moment.0) <= u64::from(zone.expire().0)
    }

    // The zone, if the copy is unexpired.
    pub fn zone<'a>(&self, owners: &'a Owners, apex: &Name, now: Moment) -> Option<&'a Zone>
        ensures { option_map (λ z. zone_of z.now) result ≡ good now.0 self.now.moment.0 (version_at (labels apex.now) self.now.serial.number (published_by owners.now)) }
    {
        let zone = owners.version(apex, self.serial)?;
        if self.is_unexpired(zone, now) {
            Some(zone)
        } else {
            None
        }
    }
}

impl Keeping {
    pub fn is_by(&self, server: u64, apex: &Name) -> bool
        ensures { result ≡ is_by server (labels apex.now) (keeping_of self.now) }
    {
        self.server == server && self.apex == *apex
    }
}

impl Servers {
    pub fn new(heap: Global) -> Servers
        ensures { kept_by result ≡ [] }
    {
        Servers {
            keepings: Vec::new(heap),
        }
    }

    // Where the keeping of a zone by a server stands.
    pub fn find(&self, server: u64, apex: &Name) -> Option<usize> {
        self.keepings
            .as_slice()
            .iter()
            .position(|keeping| keeping.is_by(server, apex))
    }

    // A server's copy, expired or not.
    fn copied(&self, server: u64, apex: &Name) -> Option<Copied>
        ensures { had_in result ≡ copy_by server (labels apex.now) (kept_by self.now) }
    {
        let mut keepings = self.keepings.as_slice().iter();
        keepings.find(|keeping| keeping.is_by(server, apex))?.copied
    }

    // What a server has of a zone now: the owner's as of now, or its copy while that is unexpired.
    pub fn version(&self, owners: &Owners, server: u64, apex: &Name, now: Moment) -> Option<Copied>
        ensures { had_in result ≡ had now.0 (published_by owners.now) (kept_by self.now) (labels apex.now) server }
    {
        if server == OWNERS_SERVER {
            let serial = owners.current(apex)?.serial();
            return Some(Copied {
                moment: now,
                serial,
            });
        }
        let copied = self.copied(server, apex)?;
        copied.zone(owners, apex, now)?;
        Some(copied)
    }

    // What the nearest server below has, by number.
    pub fn nearest(&self, owners: &Owners, server: u64, apex: &Name, now: Moment) -> Option<Copied>
        ensures { IsNearest (had now.0 (published_by owners.now) (kept_by self.now) (labels apex.now)) server (had_in result) }
    {
        let mut nearest = None;
        for lower in 1..server {
            let offer = self.version(owners, lower, apex, now);
            if offer.is_some() {
                nearest = offer;
            }
        }
        nearest
    }
}
