// Taking the parts of a transfer, in whatever order they come.
ghost use Rattle.std.specs.Prelude.{◌≡◌, ◌≤◌, true, false, map, length};
ghost use Rattle.names.specs.Names.{labels};
ghost use Rattle.records.specs.Sets.{set_of};
ghost use Rattle.wire.specs.Given.{Reads};
ghost use Rattle.wire.specs.Heads.{part_of};
ghost use Rattle.zones.specs.Zones.{zone_of};
ghost use Rattle.transfers.specs.Joining.{is_counted, is_there, begin, take};
ghost use Rattle.transfers.specs.Joinings.{joining_of, PutsAll, Puts, Takes};

use super::Joining;
use crate::joining::checking::{check_alone, check_beside};
use crate::joining::parts::is_counted;
use names::{Fault, Name};
use records::RecordSet;
use std::alloc::Global;
use wire::PartPacket;
use zones::{MAX_SETS, Zone};

// Room for all of them first, so that none comes in where memory ends.
fn put_all(zone: &mut Zone, sets: Vec<RecordSet>) -> Result<(), Fault>
    ensures { PutsAll (zone_of zone.old) (map set_of sets.items) result (zone_of zone.new) }
{
    zone.reserve(sets.len())?;
    for set in sets {
        zone.insert(set)?;
    }
    Ok(())
}

impl Joining {
    fn put(&mut self, part: PartPacket) -> Result<(), Fault>
        requires counted { is_counted (part_of part) ≡ true }
        requires inside { part.head.of ≡ length (joining_of self.old).there }
        requires fresh { is_there (joining_of self.old).there part.head.part ≡ false }
        ensures { Puts (part_of part) (joining_of self.old) result (joining_of self.new) }
    {
        put_all(&mut self.zone, part.sets)?;
        self.mark(part.head.part);
        Ok(())
    }

    // The first part that comes tells the version, and as many as there are.
    pub fn begin(heap: Global, apex: Name, part: PartPacket) -> Result<Joining, Fault>
        ensures { Reads joining_of (begin (labels apex) (part_of part)) result }
    {
        check_alone(&apex, part.sets.as_slice())?;
        let of = usize::from(part.head.of);
        if of > MAX_SETS {
            return Err(Fault::TooMuch);
        }
        if !is_counted(&part) {
            return Err(Fault::BadTransfer);
        }
        let mut joining = Joining {
            zone: Zone::new(heap, apex, part.head.serial, part.head.times),
            moment: part.head.moment,
            there: vec![in heap; false; of]?,
            missing: of,
        };
        joining.put(part)?;
        Ok(joining)
    }

    // A part that is there already changes nothing, and a refused one neither.
    pub fn take(&mut self, part: PartPacket) -> Result<(), Fault>
        ensures { Takes (take (part_of part) (joining_of self.old)) (joining_of self.old) result (joining_of self.new) }
    {
        let sets = part.sets.as_slice();
        if !self.is_of_same(&part) {
            check_alone(self.zone.apex(), sets)?;
            return Err(Fault::BadTransfer);
        }
        if self.is_there(part.head.part) {
            return check_alone(self.zone.apex(), sets);
        }
        check_beside(&self.zone, sets)?;
        self.put(part)
    }
}
