// A packet being written, in a fixed block of memory: nothing is written anywhere before all of it is known to fit.
ghost use Rattle.std.specs.Prelude.{◌≡◌, ◌<◌, ◌≤◌, true, [], ◌∷◌, map, length, vec_items, Some};
ghost use Rattle.meaning.specs.Model.{pieces_fit};
ghost use Rattle.records.specs.Contents.{bytes_of};
ghost use Rattle.std.specs.Int.{w16, w32, w64, to_be_bytes};
ghost use Rattle.names.specs.Names.{labels};
ghost use Rattle.names.specs.Wire.{wire};
ghost use Rattle.wire.specs.Given.{written, joined};
ghost use Rattle.wire.specs.Parts.{are_addresses};

use arrayvec::ArrayVec;
use names::Name;
use records::{Address, Kind};

pub mod copying;
pub mod front;
pub mod sets;

pub const MAX_PACKET: usize = 1200;

// That it is too long is kept and told at the end, so that what a packet holds is written down in a row.
#[derive(Drop)]
pub struct Buffer {
    bytes: ArrayVec<u8, MAX_PACKET>,
    overflown: bool,
}

impl Buffer {
    pub fn new() -> Buffer
        ensures { written result ≡ Some [] }
    {
        Buffer {
            bytes: ArrayVec::new(),
            overflown: false,
        }
    }

    #[tactic(auto, unfolding(crate::specs::Given::joined))]
    fn put(&mut self, bytes: &[u8])
        ensures { written self.new ≡ joined (written self.old) bytes.now }
    {
        if self.bytes.try_extend_from_slice(bytes).is_err() {
            self.overflown = true;
        }
    }

    pub fn byte(&mut self, byte: u8)
        ensures { written self.new ≡ joined (written self.old) (byte ∷ []) }
    {
        self.put(&[byte]);
    }

    pub fn number_2(&mut self, number: u16)
        ensures { written self.new ≡ joined (written self.old) (to_be_bytes w16 number) }
    {
        self.put(&number.to_be_bytes());
    }

    pub fn number_4(&mut self, number: u32)
        ensures { written self.new ≡ joined (written self.old) (to_be_bytes w32 number) }
    {
        self.put(&number.to_be_bytes());
    }

    pub fn number_8(&mut self, number: u64)
        ensures { written self.new ≡ joined (written self.old) (to_be_bytes w64 number) }
    {
        self.put(&number.to_be_bytes());
    }

    pub fn kind(&mut self, kind: Kind)
        ensures { written self.new ≡ joined (written self.old) (kind.number ∷ []) }
    {
        self.byte(kind.number());
    }

    // A piece behind its length.
    #[tactic(auto, using(crate::proofs::Putting::joined_more))]
    pub fn piece(&mut self, piece: &[u8])
        requires { length piece.now < 256 }
        ensures { written self.new ≡ joined (written self.old) (length piece.now ∷ piece.now) }
    {
        self.byte(piece.len() as u8);
        self.put(piece);
    }

    pub fn name(&mut self, name: &Name)
        ensures { written self.new ≡ joined (written self.old) (wire (labels name.now)) }
    {
        self.byte(name.label_count() as u8);
        for label in name.labels() {
            self.piece(label);
        }
    }

    pub fn no_pieces(&mut self)
        ensures { written self.new ≡ joined (written self.old) (wire []) }
    {
        self.byte(0);
    }

    pub fn pieces(&mut self, pieces: &[Vec<u8>])
        requires { pieces_fit (map vec_items pieces.now) ≡ true }
        ensures { written self.new ≡ joined (written self.old) (wire (map vec_items pieces.now)) }
    {
        self.byte(pieces.len() as u8);
        for piece in pieces {
            self.piece(piece.as_slice());
        }
    }

    fn address(&mut self, address: &Address)
        ensures put { written self.new ≡ joined (written self.old) (length (bytes_of address.now) ∷ bytes_of address.now) }
        ensures kept { length (bytes_of address.now) ≡ 8 }
    {
        self.piece(&address.0);
    }

    pub fn addresses(&mut self, addresses: &[Address])
        requires { length addresses.now ≤ 16 }
        ensures put { written self.new ≡ joined (written self.old) (wire (map bytes_of addresses.now)) }
        ensures kept { are_addresses (map bytes_of addresses.now) ≡ true }
    {
        self.byte(addresses.len() as u8);
        for address in addresses {
            self.address(address);
        }
    }
}
