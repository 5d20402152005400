// A zone as a text in its normal form: one line a set, one space between pieces.
ghost use Rattle.std.specs.Prelude.{◌≡◌, true, false, ◌⊎◌, [], ◌∷◌, ◌++◌, IfOk, MatchResult};
ghost use Rattle.names.specs.declared.fault.Fault.TheVariants.{NoMemory, BadData};
ghost use Rattle.names.specs.Names.{labels};
ghost use Rattle.records.specs.Sets.{set_of};
ghost use Rattle.zones.specs.Zones.{zone_of};
ghost use Rattle.zonetext.specs.Appended.{Appends, AppendsIf};
ghost use Rattle.zonetext.specs.TextLaws.{good_serial, good_times, good_set, IsReadAs};
ghost use Rattle.zonetext.specs.Written.{heads_before, set_line, holds_set, holds, written_zone};

mod data;
mod name;

use data::write_data;
use lines::MAX_LINE;
use name::{write_name, write_whole};
use names::{Fault, Name};
use records::RecordSet;
use std::alloc::Global;
use std::io::Write;
use zones::Zone;

// The lines before those of the sets.
fn write_heads(zone: &Zone, out: &mut Vec<u8>) -> Result<(), Fault>
    ensures written { Appends out.old.items (heads_before (zone_of zone.now) []) result out.new.items }
    ensures serial { IfOk result (λ _. good_serial (zone_of zone.now).serial ≡ true) }
    ensures times { IfOk result (λ _. good_times (zone_of zone.now) ≡ true) }
{
    out.extend_from_slice(b"top ")?;
    write_whole(zone.apex(), out)?;
    let serial = zone.serial().number();
    let negative = zone.negative().0;
    let refresh = zone.refresh().0;
    let expire = zone.expire().0;
    write!(
        out,
        "\nnumber {serial}\ntimes {negative} {refresh} {expire}\n"
    )
    .map_err(|_| Fault::NoMemory)?;
    Ok(())
}

fn write_set(apex: &Name, set: &RecordSet, out: &mut Vec<u8>) -> Result<(), Fault>
    ensures written { AppendsIf (holds_set (labels apex.now) (set_of set.now)) out.old.items (set_line (labels apex.now) (set_of set.now) ++ 10 ∷ []) result out.new.items }
    ensures good { IfOk result (λ _. good_set (set_of set.now) ≡ true) }
{
    let start = out.len();
    out.extend_from_slice(b"set ")?;
    write_name(apex, set.name(), out)?;
    let kind = set.kind().number();
    let ttl = set.ttl().0;
    write!(out, " {kind} {ttl}").map_err(|_| Fault::NoMemory)?;
    write_data(apex, set.data(), out)?;
    if out.len() - start > MAX_LINE {
        return Err(Fault::BadData);
    }
    out.push(b'\n')?;
    Ok(())
}

// The text of a zone; refused where it has data that no text can hold: a text with a quote or a line end, or too long a line.
pub fn write(heap: Global, zone: &Zone) -> Result<Vec<u8>, Fault>
    ensures text { MatchResult result (λ v. (holds (zone_of zone.now) ≡ true) × (v.items ≡ written_zone (zone_of zone.now))) (λ f. ((f ≡ BadData) × (holds (zone_of zone.now) ≡ false)) ⊎ (f ≡ NoMemory)) }
    ensures read { IfOk result (λ v. IsReadAs v.items (zone_of zone.now)) }
{
    let mut out = Vec::new(heap);
    write_heads(zone, &mut out)?;
    for set in zone.sets() {
        write_set(zone.apex(), set, &mut out)?;
    }
    Ok(out)
}
