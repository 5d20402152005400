// Record sets, as a part of a transfer carries them.
ghost use Rattle.std.specs.Prelude.{◌≡◌, true, [], ◌∷◌};
ghost use Rattle.names.specs.Labels.{written as text};
ghost use Rattle.names.specs.Names.{labels};
ghost use Rattle.names.specs.Wire.{wire};
ghost use Rattle.meaning.specs.Model.{fits};
ghost use Rattle.meaning.specs.Transfer.{pieces, transferred};
ghost use Rattle.records.specs.Contents.{content_of};
ghost use Rattle.records.specs.Sets.{set_of};
ghost use Rattle.wire.specs.Given.{written, joined};
ghost use Rattle.wire.specs.Parts.{content_keeps, set_keeps};

use super::Buffer;
use names::Name;
use records::{Data, Kind, RecordSet};

impl Buffer {
    // A name from its lowest label up, with dots between.
    fn text(&mut self, name: &Name)
        ensures { written self.new ≡ joined (written self.old) (text (labels name.now)) }
    {
        let mut labels = name.labels().rev();
        let Some(lowest) = labels.next() else {
            self.byte(b'.');
            return;
        };
        self.put(lowest);
        for label in labels {
            self.byte(b'.');
            self.put(label);
        }
    }

    // An alias's one piece is its target as it is written.
    #[tactic(auto, using(crate::proofs::Putting::joined_more, crate::proofs::Putting::one_piece))]
    fn target(&mut self, name: &Name)
        ensures { written self.new ≡ joined (written self.old) (wire (text (labels name.now) ∷ [])) }
    {
        self.byte(1);
        self.byte(name.written_len() as u8);
        self.text(name);
    }

    // Data of the kind that they fit.
    pub fn data(&mut self, kind: Kind, content: &Data)
        requires { fits kind.number (content_of content.now) ≡ true }
        ensures put { written self.new ≡ joined (written self.old) (wire (pieces (content_of content.now))) }
        ensures kept { content_keeps (content_of content.now) ≡ true }
    {
        match content {
            Data::Addresses(addresses) => self.addresses(addresses.as_slice()),
            Data::Texts(pieces) | Data::Others(pieces) => self.pieces(pieces.as_slice()),
            Data::Alias(name) => self.target(name),
            Data::Delegation(to) => self.addresses(to.servers.as_slice()),
        }
    }

    #[tactic(auto, using(crate::proofs::Putting::joined_more), unfolding(names::specs::Wire::wire, meaning::specs::Transfer::transferred))]
    pub fn set(&mut self, set: &RecordSet)
        ensures put { written self.new ≡ joined (written self.old) (transferred (set_of set.now)) }
        ensures kept { set_keeps (set_of set.now) ≡ true }
    {
        self.name(set.name());
        self.kind(set.kind());
        self.number_4(set.ttl().0);
        self.data(set.kind(), set.data());
    }
}
