// Writing a part, straight from a slice of sets: who sends a zone copies none of it.
ghost use Rattle.std.specs.Prelude.{◌≡◌, true, map};
ghost use Rattle.records.specs.Sets.{set_of};
ghost use Rattle.wire.specs.Given.{written, joined, Writes, Fills};
ghost use Rattle.wire.specs.Heads.{head_of, part_of, part_with};
ghost use Rattle.wire.specs.Laws.{IsReadAgain};
ghost use Rattle.wire.specs.Packets.{IsPart};
ghost use Rattle.wire.specs.Parts.{head_bytes, part_bytes, head_keeps, sets_keep};

use super::{FIRST, PartHead, PartPacket};
use crate::buffer::Buffer;
use names::Fault;
use records::RecordSet;

impl PartHead {
    // What stands before the sets, behind the first byte.
    fn put_fields(&self, out: &mut Buffer)
        ensures put { written out.new ≡ joined (written out.old) (head_bytes (head_of self.now)) }
        ensures kept { head_keeps (head_of self.now) ≡ true }
    {
        out.number_8(self.id.0);
        out.number_8(self.serial.number());
        out.number_8(self.moment.0);
        out.number_4(self.times.negative.0);
        out.number_4(self.times.refresh.0);
        out.number_4(self.times.expire.0);
        out.number_2(self.part);
        out.number_2(self.of);
    }

    pub(crate) fn put(&self, sets: &[RecordSet], out: &mut Buffer)
        ensures put { written out.new ≡ joined (written out.old) (part_bytes (part_with self.now sets.now)) }
        ensures read { IsReadAgain (IsPart (part_with self.now sets.now)) }
        ensures kept { sets_keep (map set_of sets.now) ≡ true }
    {
        out.byte(FIRST);
        self.put_fields(out);
        for set in sets {
            out.set(set);
        }
    }

    // Writes the part of these sets behind what is there, all of it or nothing.
    pub fn write(&self, sets: &[RecordSet], out: &mut Vec<u8>) -> Result<(), Fault>
        ensures written { Writes out.old.items (part_bytes (part_with self.now sets.now)) result out.new.items }
        ensures read { IsReadAgain (IsPart (part_with self.now sets.now)) }
        ensures kept { sets_keep (map set_of sets.now) ≡ true }
    {
        let mut buffer = Buffer::new();
        self.put(sets, &mut buffer);
        buffer.append_to(out)
    }

    // Writes it to the front of the free bytes, and gives how many it takes; without room they stay as they are.
    pub fn write_into(&self, sets: &[RecordSet], free: &mut [u8]) -> Option<usize>
        ensures { Fills free.old (part_bytes (part_with self.now sets.now)) result free.new }
    {
        let mut buffer = Buffer::new();
        self.put(sets, &mut buffer);
        buffer.copy_to(free)
    }
}

impl PartPacket {
    pub(crate) fn put(&self, out: &mut Buffer)
        ensures put { written out.new ≡ joined (written out.old) (part_bytes (part_of self.now)) }
        ensures read { IsReadAgain (IsPart (part_of self.now)) }
    {
        self.head.put(self.sets.as_slice(), out);
    }
}
