// The response by which a remembered word is sent, straight from the memory: none of its data are copied.
ghost use Rattle.std.specs.Prelude.{◌≡◌, ◌≤◌, true, length};
ghost use Rattle.names.specs.Names.{labels};
ghost use Rattle.cache.specs.Entries.{said_of};
ghost use Rattle.wire.specs.Given.{written, joined};
ghost use Rattle.wire.specs.Packets.{what_of, told_bytes, response_bytes};
ghost use Rattle.wire.specs.Replies.{told_for, response_for, said_fits, SendsIf};
ghost use Rattle.wire.specs.Whats.{number_of};

use crate::buffer::Buffer;
use crate::what::What;
use cache::{QueryId, Said, Word};
use names::{Fault, Name};
use records::Kind;

fn what(said: &Said) -> What
    ensures { number_of result ≡ what_of (told_for (said_of said.now)) }
{
    match said {
        Said::Data(_) => What::Data,
        Said::Alias(_) => What::Alias,
        Said::Referral(_) => What::Referral,
        Said::NoData => What::NoData,
        Said::NoName => What::NoName,
    }
}

fn fits(kind: Kind, said: &Said) -> bool
    ensures { result ≡ said_fits kind.number (said_of said.now) }
{
    match said {
        Said::Data(content) => content.fits(kind),
        Said::Referral(referral) => referral.to.fits(),
        Said::Alias(_) | Said::NoData | Said::NoName => true,
    }
}

#[tactic(auto, using(crate::proofs::Putting::joined_more))]
fn put_told(kind: Kind, said: &Said, out: &mut Buffer)
    requires { said_fits kind.number (said_of said.now) ≡ true }
    ensures put { written out.new ≡ joined (written out.old) (told_bytes (told_for (said_of said.now))) }
    ensures short { length (told_bytes (told_for (said_of said.now))) ≤ 617 }
{
    match said {
        Said::Data(content) => out.data(kind, content),
        Said::Alias(to) => {
            out.name(to);
            out.no_pieces();
        }
        Said::Referral(referral) => {
            out.name(&referral.name);
            out.addresses(referral.to.servers.as_slice());
        }
        Said::NoData | Said::NoName => out.no_pieces(),
    }
}

// Writes the response to the query of this id for this kind behind what is there. Data of another kind are refused; all else
// fits a packet.
pub fn write_word(
    id: QueryId,
    apex: &Name,
    kind: Kind,
    word: &Word,
    out: &mut Vec<u8>,
) -> Result<(), Fault>
    ensures { SendsIf (said_fits kind.number (said_of word.now.said)) out.old.items (response_bytes (response_for id.0 (labels apex.now) word.now.ttl.0 (said_of word.now.said))) result out.new.items }
{
    if !fits(kind, &word.said) {
        return Err(Fault::BadData);
    }
    let mut buffer = Buffer::new();
    buffer.front(id, apex, what(&word.said), word.ttl);
    put_told(kind, &word.said, &mut buffer);
    buffer.append_to(out)
}
