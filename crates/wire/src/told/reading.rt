// Reading what is told.
ghost use Rattle.std.specs.Prelude.{◌≡◌, ℕ, List, length, nat_eq};
ghost use Rattle.names.specs.Names.{labels};
ghost use Rattle.names.specs.Wire.{wire};
ghost use Rattle.wire.specs.Given.{Reads};
ghost use Rattle.wire.specs.Packets.{told_in};
ghost use Rattle.wire.specs.Tellings.{told_of};
ghost use Rattle.wire.specs.Whats.{number_of};

use super::Told;
use crate::pieces::{addresses, pieces};
use crate::what::What;
use cache::Referral;
use names::{Fault, Name};
use records::Delegation;
use std::alloc::Global;

// A list without pieces is its number of pieces alone.
fn is_none(list: &[u8]) -> bool
    ensures { (ps : List (List ℕ)) → list.now ≡ wire ps → result ≡ nat_eq (length ps) 0 }
{
    list.len() == 1
}

impl Told {
    // By its name and the list of its pieces.
    pub(crate) fn read(heap: Global, what: What, name: Name, list: &[u8]) -> Result<Told, Fault>
        ensures { (ps : List (List ℕ)) → list.now ≡ wire ps → Reads told_of (told_in (number_of what) (labels name) ps) result }
    {
        let bare = match what {
            What::Data => return Ok(Told::Data(pieces(heap, list)?)),
            What::Referral => {
                let servers = addresses(heap, list)?;
                let to = Delegation { servers };
                return Ok(Told::Referral(Referral { name, to }));
            }
            What::Alias => Told::Alias(name),
            What::NoData => Told::NoData,
            What::NoName => Told::NoName,
            What::Nowhere => Told::Nowhere,
            What::TooLong => Told::TooLong,
        };
        if !is_none(list) {
            return Err(Fault::BadData);
        }
        Ok(bare)
    }
}
