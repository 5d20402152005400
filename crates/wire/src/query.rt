// A query as it is sent.
ghost use Rattle.std.specs.Prelude.{◌≡◌, true};
ghost use Rattle.names.specs.Names.{labels};
ghost use Rattle.names.specs.Order.{within};

use cache::QueryId;
use names::Name;
use records::Kind;

pub mod parts;
pub mod reading;
pub mod writing;

pub const FIRST: u8 = 1;

// Its name always lies within its apex.
#[derive(Clone, Copy)]
pub struct QueryPacket {
    id: QueryId,
    apex: Name,
    kind: Kind,
    name: Name,
    ghost inside: { within (labels apex) (labels name) ≡ true },
}
