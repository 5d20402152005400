// What a server says.
ghost use Rattle.std.specs.Prelude.{◌≡◌, MatchResult};
ghost use Rattle.std.specs.Option.{option_map};
ghost use Rattle.names.specs.declared.fault.Fault.TheVariants.{NoMemory};
ghost use Rattle.names.specs.Names.{labels};
ghost use Rattle.cache.specs.Entries.{word_of};
ghost use Rattle.valley.specs.Owning.{published_by};
ghost use Rattle.valley.specs.Having.{kept_by, told_by};

use super::Servers;
use crate::owners::Owners;
use authority::tell;
use cache::{Key, Moment, Word};
use names::Fault;
use std::alloc::Global;

impl Servers {
    // The word of a server, and the moment as of which it has the zone; nothing where it doesn't have it.
    pub fn tell(
        &self,
        heap: Global,
        owners: &Owners,
        server: u64,
        key: &Key,
        now: Moment,
    ) -> Result<Option<(Word, Moment)>, Fault>
        ensures { MatchResult result (λ o. option_map (λ p. (word_of p.0, p.1.0)) o ≡ told_by now.0 (published_by owners.now) (kept_by self.now) server (labels key.now.apex) (labels key.now.name) key.now.kind.number) (λ f. f ≡ NoMemory) }
    {
        let Some(version) = self.version(owners, server, &key.apex, now) else {
            return Ok(None);
        };
        let Some(zone) = owners.version(&key.apex, version.serial) else {
            return Ok(None);
        };
        let Some(word) = tell(heap, zone, &key.name, key.kind)? else {
            return Ok(None);
        };
        Ok(Some((word, version.moment)))
    }
}
