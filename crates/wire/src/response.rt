// A response as it is sent.
ghost use Rattle.std.specs.Prelude.{◌≡◌, Ok};
ghost use Rattle.names.specs.Names.{labels};
ghost use Rattle.wire.specs.Packets.{allowed};
ghost use Rattle.wire.specs.Tellings.{told_of};

use crate::told::Told;
use cache::QueryId;
use names::Name;
use records::Ttl;

pub mod parts;
pub mod reading;
pub mod writing;

pub const FIRST: u8 = 2;

// It always tells what a server of its apex can tell.
#[derive(Drop)]
pub struct ResponsePacket {
    id: QueryId,
    apex: Name,
    ttl: Ttl,
    told: Told,
    ghost fitting: { allowed (labels apex) (told_of told) ≡ Ok (told_of told) },
}
