// A zone is cut into the parts of its transfer.
ghost use Rattle.std.specs.Prelude.{◌≡◌, ◌≤◌, true, [], map, length, IfOk, MatchResult};
ghost use mathlib.Core.List.{Memᴰ};
ghost use Rattle.names.specs.declared.fault.Fault.TheVariants.{NoMemory};
ghost use Rattle.records.specs.Sets.{set_of};
ghost use Rattle.zones.specs.Zones.{zone_of};
ghost use Rattle.wire.specs.Heads.{head_of};
ghost use Rattle.wire.specs.Parts as parts;
ghost use Rattle.wire.specs.Parts.{part_bytes, head_keeps, sets_keep, part_keeps};
ghost use Rattle.transfers.specs.Splitting.{rows, EachFits, part_from, split};
ghost use Rattle.transfers.specs.Sent.{part_of};

use cache::{Moment, QueryId};
use names::Fault;
use records::RecordSet;
use std::alloc::Global;
use wire::{MAX_PACKET, PartHead};
use zones::{Times, Zone};

// 41 bytes of a packet stand before the sets.
const ROOM: usize = MAX_PACKET - 41;

// A part as it is sent: no set is copied.
#[derive(Clone, Copy)]
pub struct Part<'a> {
    pub head: PartHead,
    pub sets: &'a [RecordSet],
}

// As many sets in each row as fit, in the order in which they stand.
fn rows<'a>(heap: Global, sets: &'a [RecordSet]) -> Result<Vec<&'a [RecordSet]>, Fault>
    ensures value { MatchResult result (λ v. map (λ r. map set_of r.now) v.items ≡ rows (map set_of sets.now)) (λ f. f ≡ NoMemory) }
    ensures alone { IfOk result (λ _. EachFits (map set_of sets.now)) }
{
    let mut rows = Vec::new(heap);
    let mut start: usize = 0;
    let mut len: usize = 0;
    for (at, set) in sets.iter().enumerate() {
        let more = set.transfer_len();
        if len + more > ROOM {
            rows.push(&sets[start..at])?;
            start = at;
            len = 0;
        }
        len += more;
    }
    rows.push(&sets[start..])?;
    Ok(rows)
}

// What stands before the sets, of as many parts, before the first one.
fn head_before(zone: &Zone, id: QueryId, moment: Moment, of: u16) -> PartHead
    ensures kept { head_keeps (head_of result) ≡ true }
    ensures value { head_of result ≡ (part_from (zone_of zone.now) id.0 moment.0 of 0 []).head }
{
    let times = Times {
        negative: zone.negative(),
        refresh: zone.refresh(),
        expire: zone.expire(),
    };
    PartHead {
        id,
        serial: zone.serial(),
        moment,
        times,
        part: 0,
        of,
    }
}

// The parts of a zone, counted from 1.
pub fn split<'a>(
    heap: Global,
    zone: &'a Zone,
    id: QueryId,
    moment: Moment,
) -> Result<Vec<Part<'a>>, Fault>
    ensures value { MatchResult result (λ v. map part_of v.items ≡ split (zone_of zone.now) id.0 moment.0) (λ f. f ≡ NoMemory) }
    ensures alone { IfOk result (λ _. EachFits (zone_of zone.now).sets) }
    ensures short { IfOk result (λ _. (p : parts.Part) → Memᴰ p (split (zone_of zone.now) id.0 moment.0) → length (part_bytes p) ≤ 1200) }
    ensures keeps { IfOk result (λ _. (p : parts.Part) → Memᴰ p (split (zone_of zone.now) id.0 moment.0) → sets_keep p.sets ≡ true → part_keeps p ≡ true) }
{
    let rows = rows(heap, zone.sets())?;
    let mut head = head_before(zone, id, moment, rows.len() as u16);
    let mut parts = Vec::with_capacity(heap, rows.len())?;
    for row in rows.as_slice() {
        head.part += 1;
        parts.push(Part { head, sets: *row })?;
    }
    Ok(parts)
}

#[cfg(test)]
mod tests {
    use super::*;
    use names::Name;
    use records::{Data, Kind, Serial, Ttl};
    use std::test::Fail;

    // A text that takes 520 bytes in a transfer.
    fn text(heap: Global, name: &[u8]) -> Result<RecordSet, Fault> {
        let half = vec![in heap; b't'; 250]?;
        let texts = vec![in heap; half.clone()?, half]?;
        RecordSet::new(
            Name::read_whole(name)?,
            Kind::TEXT,
            Ttl(300),
            Data::Texts(texts),
        )
    }

    fn village(heap: Global) -> Result<Zone, Fault> {
        let times = Times {
            negative: Ttl(60),
            refresh: Ttl(600),
            expire: Ttl(86400),
        };
        let apex = Name::read_whole(b"upperton")?;
        let mut zone = Zone::new(heap, apex, Serial::try_from(1)?, times);
        zone.insert(text(heap, b"a.upperton")?)?;
        zone.insert(text(heap, b"b.upperton")?)?;
        zone.insert(text(heap, b"c.upperton")?)?;
        Ok(zone)
    }

    #[test]
    fn puts_as_many_sets_in_a_part_as_fit(rt: HostRuntime) -> Result<(), Fail> {
        let heap = rt.alloc();
        let zone = village(heap)?;
        let parts = split(heap, &zone, QueryId(7), Moment(9))?;
        let mut told = Vec::new(heap);
        for part in parts.as_slice() {
            told.push((part.head.part, part.head.of, part.sets.len()))?;
        }
        assert_eq!(rt; told.as_slice(), [(1, 2, 2), (2, 2, 1)].as_slice());
        Ok(())
    }
}
