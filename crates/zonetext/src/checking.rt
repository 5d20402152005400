// What an owner should be warned of in a zone that is no fault.
ghost use Rattle.std.specs.Prelude.{◌≡◌};
ghost use Rattle.records.specs.Sets.{set_of};
ghost use Rattle.zones.specs.Zones.{zone_of};
ghost use Rattle.zonetext.specs.Checks.{points_nowhere, outlasts_a_day};

use records::{Data, Kind, RecordSet, Ttl};
use zones::Zone;

// No word is remembered for longer, whatever its zone says.
pub const DAY: Ttl = Ttl(86_400);

// An alias of a name in the zone at and below which nothing stands.
pub fn points_nowhere(zone: &Zone, set: &RecordSet) -> bool
    ensures { result ≡ points_nowhere (zone_of zone.now) (set_of set.now) }
{
    let Data::Alias(to) = set.data() else {
        return false;
    };
    // That no name is there is said whatever the kind.
    let Some(reply) = zone.lookup(to, Kind::ADDRESS) else {
        return false;
    };
    reply.is_no_name()
}

pub fn outlasts_a_day(ttl: Ttl) -> bool
    ensures { result ≡ outlasts_a_day ttl.0 }
{
    ttl > DAY
}
