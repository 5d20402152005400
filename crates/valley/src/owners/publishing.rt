// Publishing a zone, and finding what was published.
ghost use Rattle.std.specs.Prelude.{◌≡◌, [], MatchResult};
ghost use Rattle.std.specs.Option.{option_map};
ghost use Rattle.names.specs.declared.fault.Fault.TheVariants.{NoMemory};
ghost use Rattle.names.specs.Names.{labels};
ghost use Rattle.zones.specs.Zones.{zone_of};
ghost use Rattle.protocol.specs.World.{current, rises};
ghost use Rattle.protocol.specs.Walks.{by_zone};
ghost use Rattle.cache.specs.Entries.{word_of};
ghost use Rattle.valley.specs.Owning.{version_of, published_by, is_of, is_version, version_at, Publishes};

use super::{Owners, Version};
use authority::tell;
use cache::{Moment, Word};
use names::{Fault, Name};
use records::{Kind, Serial};
use std::alloc::Global;
use zones::Zone;

impl Version {
    fn is_of(&self, apex: &Name) -> bool
        ensures { result ≡ is_of (labels apex.now) (version_of self.now) }
    {
        *self.zone.apex() == *apex
    }

    fn is_version(&self, apex: &Name, serial: Serial) -> bool
        ensures { result ≡ is_version (labels apex.now) serial.number (version_of self.now) }
    {
        self.is_of(apex) && self.zone.serial() == serial
    }
}

impl Owners {
    pub fn new(heap: Global) -> Owners
        ensures { published_by result ≡ [] }
    {
        Owners {
            versions: Vec::new(heap),
        }
    }

    // What the owner of an apex says now.
    pub fn current(&self, apex: &Name) -> Option<&Zone>
        ensures { option_map (λ z. zone_of z.now) result ≡ current (labels apex.now) (published_by self.now) }
    {
        let mut versions = self.versions.as_slice().iter();
        let version = versions.find(|version| version.is_of(apex))?;
        Some(&version.zone)
    }

    // The version of a serial.
    pub fn version(&self, apex: &Name, serial: Serial) -> Option<&Zone>
        ensures { option_map (λ z. zone_of z.now) result ≡ version_at (labels apex.now) serial.number (published_by self.now) }
    {
        let mut versions = self.versions.as_slice().iter();
        let version = versions.find(|version| version.is_version(apex, serial))?;
        Some(&version.zone)
    }

    fn is_newer(&self, zone: &Zone) -> bool
        ensures { result ≡ rises (zone_of zone.now) (current (zone_of zone.now).apex (published_by self.now)) }
    {
        match self.current(zone.apex()) {
            Some(current) => zone.serial().is_newer_than(current.serial()),
            None => true,
        }
    }

    // The zone is what its owner says from this moment on, if its serial rises.
    pub fn publish(&mut self, moment: Moment, zone: Zone) -> Result<(), Fault>
        ensures { Publishes moment.0 (zone_of zone) (published_by self.old) result (published_by self.new) }
    {
        if !self.is_newer(&zone) {
            return Err(Fault::StaleSerial);
        }
        self.versions.insert(0, Version { moment, zone })?;
        Ok(())
    }

    // What the owner of an apex says now of a name and kind.
    pub fn tell(
        &self,
        heap: Global,
        apex: &Name,
        name: &Name,
        kind: Kind,
    ) -> Result<Option<Word>, Fault>
        ensures { MatchResult result (λ o. option_map word_of o ≡ by_zone (current (labels apex.now) (published_by self.now)) (labels name.now) kind.number) (λ f. f ≡ NoMemory) }
    {
        match self.current(apex) {
            Some(zone) => tell(heap, zone, name, kind),
            None => Ok(None),
        }
    }
}
