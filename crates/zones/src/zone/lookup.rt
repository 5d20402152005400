// What a zone says of a name and a kind, found by searches that halve.
ghost use Rattle.std.specs.Prelude.{◌≡◌, true, map, length, MatchResult};
ghost use Rattle.std.specs.Option.{option_map};
ghost use Rattle.names.specs.declared.fault.Fault.TheVariants.{NoMemory};
ghost use Rattle.names.specs.Names.{labels};
ghost use Rattle.names.specs.Order.{within};
ghost use Rattle.meaning.specs.Laws.{is_hidden, hidden};
ghost use Rattle.meaning.specs.Says.{is_over, highest, speaker, says, time_of};
ghost use Rattle.meaning.specs.Transfer.{all_transferred};
ghost use Rattle.records.specs.Sets.{set_of};
ghost use Rattle.zones.specs.Zones.{speaker_of, zone_of};

use super::Zone;
use crate::reply::Reply;
use crate::sets::search::is_exactly;
use names::{Fault, Name};
use records::{Kind, RecordSet, Serial, Ttl};
use std::alloc::Global;

impl Zone {
    // The highest delegation at a name or above it, and below the apex.
    fn find_delegation(&self, name: &Name) -> Option<&RecordSet>
        ensures { option_map (λ s. set_of s.now) result ≡ highest (is_over (zone_of self.now).apex (labels name.now)) (zone_of self.now).sets }
    {
        self.sets.find(self.cuts.find(name)?, Kind::DELEGATION)
    }

    // Within the apex a delegation over the name speaks before all, else what stands at the name and below it.
    fn reply(&self, name: &Name, kind: Kind) -> Reply<'_>
        requires { within (labels self.now.sets.apex) (labels name.now) ≡ true }
        ensures { speaker_of result ≡ speaker (zone_of self.now) (labels name.now) kind.number }
    {
        match self.find_delegation(name) {
            Some(set) => Reply::Referral(set),
            None => self.sets.reply_among(name, kind),
        }
    }

    // Nothing is said of a name that isn't within the apex.
    pub fn lookup(&self, name: &Name, kind: Kind) -> Option<Reply<'_>>
        ensures { option_map speaker_of result ≡ says (zone_of self.now) (labels name.now) kind.number }
    {
        if !name.is_within(self.sets.apex()) {
            return None;
        }
        Some(self.reply(name, kind))
    }

    // For how many seconds a reply of this zone may be remembered.
    pub fn ttl_of(&self, reply: &Reply) -> Ttl
        ensures { result.0 ≡ time_of (zone_of self.now) (speaker_of reply.now) }
    {
        match reply {
            Reply::Data(set) | Reply::Alias(set) | Reply::Referral(set) => set.ttl(),
            Reply::NoData | Reply::NoName => self.times.negative,
        }
    }

    // Whether a set is never told, since a delegation at its name or above it speaks in its place.
    pub fn is_hidden(&self, set: &RecordSet) -> bool
        ensures { result ≡ is_hidden (zone_of self.now) (set_of set.now) }
    {
        let over = self.find_delegation(set.name());
        over.is_some_and(|over| !is_exactly(over, set.name(), set.kind()))
    }

    // The sets that are never told, in their order.
    pub fn hidden(&self, heap: Global) -> Result<Vec<&RecordSet>, Fault>
        ensures { MatchResult result (λ v. map (λ s. set_of s.now) v.items ≡ hidden (zone_of self.now)) (λ f. f ≡ NoMemory) }
    {
        let sets = self.sets.as_slice().iter();
        Ok(sets.filter(|set| self.is_hidden(set)).collect(heap)?)
    }

    pub fn apex(&self) -> &Name
        ensures { labels result.now ≡ (zone_of self.now).apex }
    {
        self.sets.apex()
    }

    pub fn serial(&self) -> Serial
        ensures { result.number ≡ (zone_of self.now).serial }
    {
        self.serial
    }

    pub fn negative(&self) -> Ttl
        ensures { result.0 ≡ (zone_of self.now).negative }
    {
        self.times.negative
    }

    pub fn refresh(&self) -> Ttl
        ensures { result.0 ≡ (zone_of self.now).refresh }
    {
        self.times.refresh
    }

    pub fn expire(&self) -> Ttl
        ensures { result.0 ≡ (zone_of self.now).expire }
    {
        self.times.expire
    }

    pub fn sets(&self) -> &[RecordSet]
        ensures { map set_of result.now ≡ (zone_of self.now).sets }
    {
        self.sets.as_slice()
    }

    // How many bytes the sets take in a transfer.
    pub fn transfer_len(&self) -> usize
        ensures { result ≡ length (all_transferred (zone_of self.now).sets) }
    {
        self.carried
    }
}
