// Which data fit which kind.
ghost use Rattle.std.specs.Prelude.{◌≡◌, ◌≤◌, true, ◌&&◌, map, length, vec_items, nat_le};
ghost use Rattle.names.specs.Wire.{wire_labels};
ghost use Rattle.records.specs.Contents.{bytes_of, content_of};
ghost use Rattle.meaning.specs.Model.{fits, pieces_fit};
ghost use Rattle.meaning.specs.Transfer.{pieces};

use super::{Data, Delegation};
use crate::types::{Address, Kind};

pub const MAX_PIECES: usize = 16;

pub const MAX_PIECE: usize = 255;

pub const MAX_DATA: usize = 600;

pub fn pieces_fit(pieces: &[Vec<u8>]) -> bool
    ensures { result ≡ pieces_fit (map vec_items pieces.now) }
{
    if pieces.len() > MAX_PIECES {
        return false;
    }
    let mut total: usize = 0;
    for piece in pieces {
        if piece.len() > MAX_PIECE {
            return false;
        }
        total += piece.len();
    }
    total <= MAX_DATA
}

fn are_few(addresses: &[Address]) -> bool
    ensures { result ≡ nat_le (length (map bytes_of addresses.now)) 16 }
{
    addresses.len() <= MAX_PIECES
}

fn address_len(address: &Address) -> usize
    ensures value { result ≡ length (bytes_of address.now) }
    ensures bound { result ≤ 8 }
{
    let bytes: &[u8] = &address.0;
    bytes.len()
}

// The bytes of addresses in a transfer, each behind its length. Not one generic function with `pieces_len`: of an address
// in a list nothing says that it has eight bytes, so the bound of the sum can't be proved there.
fn addresses_len(addresses: &[Address]) -> usize
    requires { length addresses.now ≤ 16 }
    ensures value { result ≡ length (wire_labels (map bytes_of addresses.now)) }
    ensures bound { result ≤ 144 }
{
    let mut len: usize = 0;
    for address in addresses {
        len += 1 + address_len(address);
    }
    len
}

// The same of pieces.
fn pieces_len(pieces: &[Vec<u8>]) -> usize
    requires { pieces_fit (map vec_items pieces.now) ≡ true }
    ensures value { result ≡ length (wire_labels (map vec_items pieces.now)) }
    ensures bound { result ≤ 616 }
{
    let mut len: usize = 0;
    for piece in pieces {
        len += 1 + piece.len();
    }
    len
}

impl Delegation {
    // At least one server, and not too many.
    pub fn fits(&self) -> bool
        ensures { result ≡ (nat_le 1 (length (map bytes_of (vec_items self.now.servers))) && nat_le (length (map bytes_of (vec_items self.now.servers))) 16) }
    {
        !self.servers.is_empty() && are_few(self.servers.as_slice())
    }
}

impl Data {
    // How many bytes its pieces take in a transfer, each behind its length.
    pub(crate) fn pieces_len(&self, kind: Kind) -> usize
        requires { fits kind.number (content_of self.now) ≡ true }
        ensures value { result ≡ length (wire_labels (pieces (content_of self.now))) }
        ensures bound { result ≤ 616 }
    {
        match self {
            Data::Addresses(addresses) => addresses_len(addresses.as_slice()),
            Data::Texts(pieces) | Data::Others(pieces) => pieces_len(pieces.as_slice()),
            Data::Alias(name) => 1 + name.written_len(),
            Data::Delegation(to) => addresses_len(to.servers.as_slice()),
        }
    }

    pub fn fits(&self, kind: Kind) -> bool
        ensures { result ≡ fits kind.number (content_of self.now) }
    {
        match self {
            Data::Addresses(addresses) => kind == Kind::ADDRESS && are_few(addresses.as_slice()),
            Data::Texts(pieces) => kind == Kind::TEXT && pieces_fit(pieces.as_slice()),
            Data::Others(pieces) => kind.is_plain() && pieces_fit(pieces.as_slice()),
            Data::Alias(_) => kind.is_alias(),
            Data::Delegation(to) => kind.is_delegation() && to.fits(),
        }
    }
}
