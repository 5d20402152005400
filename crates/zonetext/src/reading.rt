// A zone's text, read line by line.
ghost use Rattle.std.specs.Prelude.{◌≡◌, codes, map};
ghost use Rattle.names.specs.Names.{labels};
ghost use Rattle.zones.specs.Zones.{zone_of};
ghost use Rattle.zonetext.specs.Texts.{fields, top_of, serial_of, times_of, top_from, top_in, text_meaning};
ghost use Rattle.zonetext.specs.Readings.{piece_of};
ghost use Rattle.zonetext.specs.Numbered.{said_left, end_of};
ghost use Rattle.zonetext.specs.Heads.{times_for, old_zone};
ghost use Rattle.zonetext.specs.Loading.{Tops, Begins, Adds, AddsAll, Loads};

use crate::fields::record_set;
use crate::heads::{read_serial, read_times, read_top};
use crate::numbered::Lines;
use crate::refusal::{Refusal, Said};
use names::{Fault, Name};
use records::Serial;
use std::alloc::Global;
use zones::{Times, Zone};

// The most bytes that the sets of a zone take in a transfer: 1 MiB.
pub const MAX_TRANSFER: usize = 1_048_576;

fn top(heap: Global, lines: &mut Lines) -> Result<Name, Refusal>
    ensures apex { Tops (top_from (end_of lines.old) (said_left lines.old)) result }
    ensures said { Begins labels (end_of lines.old) (said_left lines.old) (λ o. top_of (fields (codes "top") o)) result (said_left lines.new) }
    ensures end { end_of lines.new ≡ end_of lines.old }
{
    let line = lines.required(heap)?;
    Refusal::at(line.number, line.fields(b"top").and_then(read_top))
}

fn serial(
    heap: Global,
    lines: &mut Lines,
    old: Option<&Zone>,
    apex: &Name,
) -> Result<Serial, Refusal>
    ensures said { Begins (λ s. s.number) (end_of lines.old) (said_left lines.old) (λ o. serial_of (old_zone old.entry) (labels apex.now) (fields (codes "number") o)) result (said_left lines.new) }
    ensures end { end_of lines.new ≡ end_of lines.old }
{
    let line = lines.required(heap)?;
    let fields = Refusal::at(line.number, line.fields(b"number"))?;
    Refusal::at(line.number, read_serial(old, apex, fields))
}

fn times(heap: Global, lines: &mut Lines) -> Result<Times, Refusal>
    ensures said { Begins times_for (end_of lines.old) (said_left lines.old) (λ o. times_of (fields (codes "times") o)) result (said_left lines.new) }
    ensures end { end_of lines.new ≡ end_of lines.old }
{
    let line = lines.required(heap)?;
    let fields = Refusal::at(line.number, line.fields(b"times"))?;
    Refusal::at(line.number, read_times(fields))
}

// One set more.
fn add_set(heap: Global, zone: &mut Zone, line: &Said) -> Result<(), Fault>
    ensures { Adds (zone_of zone.old) (map piece_of line.now.pieces.items) result (zone_of zone.new) }
{
    let set = record_set(heap, zone.apex(), line.fields(b"set")?)?;
    zone.insert(set)?;
    if zone.transfer_len() > MAX_TRANSFER {
        return Err(Fault::TooMuch);
    }
    Ok(())
}

fn add_sets(heap: Global, zone: &mut Zone, lines: &mut Lines) -> Result<(), Refusal>
    ensures { AddsAll (zone_of zone.old) (said_left lines.old) result (zone_of zone.new) }
{
    // Its pieces have room from the line before.
    let mut line = Said::new(heap);
    while lines.read_said(&mut line)? {
        Refusal::at(line.number, add_set(heap, zone, &line))?;
    }
    Ok(())
}

// The apex of a text, by which the zone is found that it is to renew.
pub fn apex_of(heap: Global, text: &[u8]) -> Result<Name, Refusal>
    ensures { Tops (top_in text.now) result }
{
    let mut lines = Lines::new(text);
    top(heap, &mut lines)
}

// The zone that a text means, in the place of the one that was there; or its first faulty line with its lowest fault.
pub fn load(heap: Global, old: Option<&Zone>, text: &[u8]) -> Result<Zone, Refusal>
    ensures { Loads (text_meaning (old_zone old.entry) text.now) result }
{
    let mut lines = Lines::new(text);
    let apex = top(heap, &mut lines)?;
    let serial = serial(heap, &mut lines, old, &apex)?;
    let times = times(heap, &mut lines)?;
    let mut zone = Zone::new(heap, apex, serial, times);
    add_sets(heap, &mut zone, &mut lines)?;
    Ok(zone)
}
