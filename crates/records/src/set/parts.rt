// Making a record set, and its parts.
ghost use Rattle.std.specs.Prelude.{◌≡◌, ◌≤◌, length};
ghost use Rattle.names.specs.Names.{labels};
ghost use Rattle.meaning.specs.Transfer.{transferred};
ghost use Rattle.records.specs.Contents.{content_of};
ghost use Rattle.records.specs.Sets.{set_of, set_from, set_given};

use super::RecordSet;
use crate::data::Data;
use crate::types::{Kind, Ttl};
use names::{Fault, Name};

impl RecordSet {
    pub fn new(name: Name, kind: Kind, ttl: Ttl, content: Data) -> Result<RecordSet, Fault>
        ensures { set_given result ≡ set_from (labels name) kind.number ttl.0 (content_of content) }
    {
        if content.fits(kind) {
            Ok(RecordSet {
                name,
                kind,
                ttl,
                content,
            })
        } else {
            Err(Fault::BadData)
        }
    }

    pub fn name(&self) -> &Name
        ensures { labels result.now ≡ (set_of self.now).name }
    {
        &self.name
    }

    pub fn kind(&self) -> Kind
        ensures { result.number ≡ (set_of self.now).kind }
    {
        self.kind
    }

    pub fn ttl(&self) -> Ttl
        ensures { result.0 ≡ (set_of self.now).ttl }
    {
        self.ttl
    }

    pub fn data(&self) -> &Data
        ensures { content_of result.now ≡ (set_of self.now).content }
    {
        &self.content
    }

    // How many bytes it takes in a transfer: its name, kind, time and number of pieces, and its pieces.
    pub fn transfer_len(&self) -> usize
        ensures value { result ≡ length (transferred (set_of self.now)) }
        ensures bound { result ≤ 879 }
    {
        self.name.wire_len() + 6 + self.content.pieces_len(self.kind)
    }
}
