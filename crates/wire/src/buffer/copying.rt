// Copying out what was written.
ghost use Rattle.std.specs.Prelude.{◌≡◌, ℕ, List};
ghost use Rattle.std.specs.Option.{option_map};
ghost use Rattle.wire.specs.Given.{written, short_enough, Writes, Fills};

use super::Buffer;
use names::Fault;

impl Buffer {
    // The packet, unless it is too long.
    fn packet(&self) -> Option<&[u8]>
        ensures { option_map (λ x. x.now) result ≡ written self.now }
    {
        if self.overflown {
            None
        } else {
            Some(self.bytes.as_slice())
        }
    }

    // Behind what is there, all of it or nothing.
    pub fn append_to(&self, out: &mut Vec<u8>) -> Result<(), Fault>
        ensures { (due : List ℕ) → written self.now ≡ short_enough due → Writes out.old.items due result out.new.items }
    {
        let Some(packet) = self.packet() else {
            return Err(Fault::Malformed);
        };
        out.extend_from_slice(packet)?;
        Ok(())
    }

    // To the front of the free bytes, and gives how many it takes; without room they stay as they are.
    pub fn copy_to(&self, free: &mut [u8]) -> Option<usize>
        ensures { (due : List ℕ) → written self.now ≡ short_enough due → Fills free.old due result free.new }
    {
        let Some(packet) = self.packet() else {
            return None;
        };
        let len = packet.len();
        if len > free.len() {
            return None;
        }
        free[..len].copy_from_slice(packet);
        Some(len)
    }
}
