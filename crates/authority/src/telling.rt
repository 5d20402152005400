// What a zone says of a name and kind, as a word with memory of its own, which a server can send.
ghost use Rattle.std.specs.Prelude.{◌≡◌, map, vec_items, MatchResult};
ghost use Rattle.std.specs.Option.{option_map};
ghost use Rattle.names.specs.declared.fault.Fault.TheVariants.{NoMemory};
ghost use Rattle.names.specs.Names.{labels};
ghost use Rattle.meaning.specs.Speech.{delegation_of, said_by, target_of};
ghost use Rattle.records.specs.Contents.{bytes_of, content_of};
ghost use Rattle.zones.specs.Zones.{speaker_of, zone_of};
ghost use Rattle.protocol.specs.Words.{tells};
ghost use Rattle.cache.specs.Entries.{said_of, word_of};

use cache::{Referral, Said, Word};
use names::{Fault, Name};
use records::{Data, Delegation, Kind};
use std::alloc::Global;
use zones::{Reply, Zone};

// An alias's data are a name, since a set's data fit its kind. The root stands for any other data, which never come here.
fn target(content: &Data) -> Name
    ensures { labels result ≡ target_of (content_of content.now) }
{
    match content {
        Data::Alias(name) => **name,
        _ => Name::root(),
    }
}

// In the same way a delegation's data name its servers.
fn delegation(heap: Global, content: &Data) -> Result<Delegation, Fault>
    ensures { MatchResult result (λ d. map bytes_of (vec_items d.servers) ≡ (delegation_of (content_of content.now)).servers) (λ f. f ≡ NoMemory) }
{
    match content {
        Data::Delegation(to) => to.copied(heap),
        _ => Ok(Delegation {
            servers: Vec::new(heap),
        }),
    }
}

fn said(heap: Global, reply: &Reply) -> Result<Said, Fault>
    ensures { MatchResult result (λ s. said_of s ≡ said_by (speaker_of reply.now)) (λ f. f ≡ NoMemory) }
{
    Ok(match reply {
        Reply::Data(set) => Said::Data(set.data().copied(heap)?),
        Reply::Alias(set) => Said::Alias(target(set.data())),
        Reply::Referral(set) => Said::Referral(Referral {
            name: *set.name(),
            to: delegation(heap, set.data())?,
        }),
        Reply::NoData => Said::NoData,
        Reply::NoName => Said::NoName,
    })
}

// Nothing is told of a name that isn't within the zone's apex.
pub fn tell(heap: Global, zone: &Zone, name: &Name, kind: Kind) -> Result<Option<Word>, Fault>
    ensures { MatchResult result (λ o. option_map word_of o ≡ tells (zone_of zone.now) (labels name.now) kind.number) (λ f. f ≡ NoMemory) }
{
    let Some(reply) = zone.lookup(name, kind) else {
        return Ok(None);
    };
    let said = said(heap, &reply)?;
    let ttl = zone.ttl_of(&reply);
    Ok(Some(Word { said, ttl }))
}
