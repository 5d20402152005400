// Which part of a transfer a packet is.
ghost use Rattle.std.specs.Prelude.{◌≡◌, ◌≤◌, false, length};
ghost use Rattle.wire.specs.Heads.{times_of, part_of};
ghost use Rattle.transfers.specs.Joining.{same_times, is_counted, belongs_to, is_there, marked};
ghost use Rattle.transfers.specs.Joinings.{joining_of, with_there};

use super::Joining;
use wire::PartPacket;
use zones::Times;

// Parts are counted from 1, and of several none is without sets.
pub(super) fn is_counted(part: &PartPacket) -> bool
    ensures { result ≡ is_counted (part_of part.now) }
{
    let head = part.head;
    let has_sets = !part.sets.is_empty();
    1 <= head.part && head.part <= head.of && (head.of == 1 || has_sets)
}

impl Joining {
    fn has_times(&self, times: Times) -> bool
        ensures { result ≡ same_times (times_of times) (joining_of self.now).times }
    {
        times.negative == self.zone.negative()
            && times.refresh == self.zone.refresh()
            && times.expire == self.zone.expire()
    }

    // Of the same version, cut into as many.
    pub(super) fn is_of_same(&self, part: &PartPacket) -> bool
        ensures { result ≡ belongs_to (joining_of self.now) (part_of part.now) }
    {
        let head = part.head;
        head.serial == self.zone.serial()
            && head.moment == self.moment
            && self.has_times(head.times)
            && usize::from(head.of) == self.there.len()
            && is_counted(part)
    }

    pub(super) fn is_there(&self, number: u16) -> bool
        ensures { result ≡ is_there (joining_of self.now).there number }
    {
        let Some(at) = usize::from(number).checked_sub(1) else {
            return false;
        };
        self.there.get(at).copied().unwrap_or(false)
    }

    // One more is there.
    pub(super) fn mark(&mut self, number: u16)
        requires counted { 1 ≤ number }
        requires inside { number ≤ length (joining_of self.old).there }
        requires fresh { is_there (joining_of self.old).there number ≡ false }
        ensures { joining_of self.new ≡ with_there (joining_of self.old) (marked (joining_of self.old).there number) }
    {
        let at = usize::from(number) - 1;
        self.there[at] = true;
        self.missing -= 1;
    }
}
