// A record set: all that stands at a name under one kind.
ghost use Rattle.std.specs.Prelude.{◌≡◌, true};
ghost use Rattle.records.specs.Contents.{content_of};
ghost use Rattle.meaning.specs.Model.{fits};

use crate::data::Data;
use crate::types::{Kind, Ttl};
use names::Name;

pub mod parts;

// Its data always fit its kind.
#[derive(Drop)]
pub struct RecordSet {
    name: Name,
    kind: Kind,
    ttl: Ttl,
    content: Data,
    ghost fitting: { fits kind.number (content_of content) ≡ true },
}
