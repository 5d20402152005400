// Names as they stand in a text: short below the apex, else whole with a last dot.
ghost use Rattle.names.specs.Names.{labels};
ghost use Rattle.zonetext.specs.Appended.{Appends};
ghost use Rattle.zonetext.specs.Written.{whole, name_text};

use names::{Fault, Name};
use std::io::Write;

pub fn write_whole(name: &Name, out: &mut Vec<u8>) -> Result<(), Fault>
    ensures { Appends out.old.items (whole (labels name.now)) result out.new.items }
{
    let dot = if name.label_count() == 0 { "" } else { "." };
    write!(out, "{name}{dot}").map_err(|_| Fault::NoMemory)
}

pub fn write_name(apex: &Name, name: &Name, out: &mut Vec<u8>) -> Result<(), Fault>
    ensures { Appends out.old.items (name_text (labels apex.now) (labels name.now)) result out.new.items }
{
    if !name.is_within(apex) || name.label_count() <= apex.label_count() {
        return write_whole(name, out);
    }
    write!(out, "{name}").map_err(|_| Fault::NoMemory)?;
    // The apex goes, with the dot before it; the root's name stands in no other.
    if apex.label_count() > 0 {
        out.truncate(out.len() - (apex.written_len() + 1));
    }
    Ok(())
}
