// The lines by which a text begins: its top, its number and its times.
ghost use Rattle.std.specs.Prelude.{◌≡◌, Some, None, map, MatchResult};
ghost use Rattle.std.specs.Option.{option_map};
ghost use Rattle.names.specs.declared.fault.Fault.TheVariants.{Malformed};
ghost use Rattle.names.specs.Names.{labels, given};
ghost use Rattle.records.specs.Numbers.{serial_given};
ghost use Rattle.zones.specs.Zones.{zone_of};
ghost use Rattle.zonetext.specs.Texts.{fields, top_of, renews, serial_of, times_of};
ghost use Rattle.zonetext.specs.Readings.{piece_of};
ghost use Rattle.zonetext.specs.Heads.{times_given, old_zone};

use crate::division::Piece;
use crate::fields::{name, number, seconds};
use crate::refusal::Said;
use names::{Fault, Name};
use records::Serial;
use zones::{Times, Zone};

impl<'a> Said<'a> {
    // What stands behind the first word, if it is this one.
    pub fn fields(&self, verb: &[u8]) -> Result<&[Piece<'a>], Fault>
        ensures { MatchResult result (λ ps. fields verb.now (Some (map piece_of self.now.pieces.items)) ≡ Some (map piece_of ps.now)) (λ f. (f ≡ Malformed) × (fields verb.now (Some (map piece_of self.now.pieces.items)) ≡ None)) }
    {
        match self.pieces.as_slice().split_first() {
            Some((Piece::Word(word), fields)) if *word == verb => Ok(fields),
            _ => Err(Fault::Malformed),
        }
    }
}

// The apex is whole, its last dot optional.
pub fn read_top(fields: &[Piece]) -> Result<Name, Fault>
    ensures { given result ≡ top_of (Some (map piece_of fields.now)) }
{
    let [top] = fields else {
        return Err(Fault::Malformed);
    };
    name(&Name::root(), *top)
}

// Newer than the zone that was there, if that has the same apex.
fn renews(old: Option<&Zone>, apex: &Name, serial: Serial) -> bool
    ensures { result ≡ renews (old_zone old.entry) (labels apex.now) serial.number }
{
    let Some(zone) = old else {
        return true;
    };
    *zone.apex() != *apex || serial.is_newer_than(zone.serial())
}

pub fn read_serial(old: Option<&Zone>, apex: &Name, fields: &[Piece]) -> Result<Serial, Fault>
    ensures { serial_given result ≡ serial_of (old_zone old.entry) (labels apex.now) (Some (map piece_of fields.now)) }
{
    let [serial] = fields else {
        return Err(Fault::Malformed);
    };
    let Some(number) = number(*serial) else {
        return Err(Fault::Malformed);
    };
    let serial = Serial::try_from(number)?;
    if renews(old, apex, serial) {
        Ok(serial)
    } else {
        Err(Fault::StaleSerial)
    }
}

pub fn read_times(fields: &[Piece]) -> Result<Times, Fault>
    ensures { times_given result ≡ times_of (Some (map piece_of fields.now)) }
{
    let [negative, refresh, expire] = fields else {
        return Err(Fault::Malformed);
    };
    let Some(negative) = seconds(*negative) else {
        return Err(Fault::Malformed);
    };
    let Some(refresh) = seconds(*refresh) else {
        return Err(Fault::Malformed);
    };
    let Some(expire) = seconds(*expire) else {
        return Err(Fault::Malformed);
    };
    Ok(Times {
        negative,
        refresh,
        expire,
    })
}
