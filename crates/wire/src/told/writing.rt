// Writing what is told.
ghost use Rattle.std.specs.Prelude.{◌≡◌, true};
ghost use Rattle.wire.specs.Given.{written, joined};
ghost use Rattle.wire.specs.Packets.{what_of, told_bytes, told_sound};
ghost use Rattle.wire.specs.Tellings.{told_of, held};
ghost use Rattle.wire.specs.Whats.{number_of};

use super::Told;
use crate::buffer::Buffer;
use crate::what::What;

impl Told {
    pub(crate) fn what(&self) -> What
        ensures { number_of result ≡ what_of (told_of self.now) }
    {
        match self {
            Told::Data(_) => What::Data,
            Told::Alias(_) => What::Alias,
            Told::Referral(_) => What::Referral,
            Told::NoData => What::NoData,
            Told::NoName => What::NoName,
            Told::Nowhere => What::Nowhere,
            Told::TooLong => What::TooLong,
        }
    }

    #[tactic(auto, using(crate::proofs::Putting::joined_more))]
    pub(crate) fn put(&self, out: &mut Buffer)
        requires { held (told_of self.now) ≡ true }
        ensures put { written out.new ≡ joined (written out.old) (told_bytes (told_of self.now)) }
        ensures kept { told_sound (told_of self.now) ≡ true }
    {
        match self {
            Told::Data(pieces) => out.pieces(pieces.as_slice()),
            Told::Alias(name) => {
                out.name(name);
                out.no_pieces();
            }
            Told::Referral(referral) => {
                out.name(&referral.name);
                out.addresses(referral.to.servers.as_slice());
            }
            Told::NoData | Told::NoName | Told::Nowhere | Told::TooLong => out.no_pieces(),
        }
    }
}
