// The response by which a zone's reply is sent, straight from the zone: none of its data are copied.
ghost use Rattle.std.specs.Prelude.{◌≡◌, ◌≤◌, true, length};
ghost use Rattle.names.specs.Names.{labels};
ghost use Rattle.names.specs.Wire.{wire};
ghost use Rattle.meaning.specs.Model.{fits};
ghost use Rattle.meaning.specs.Speech.{delegation_of, target_of, said_by};
ghost use Rattle.records.specs.Contents.{content_of};
ghost use Rattle.zones.specs.Zones.{speaker_of};
ghost use Rattle.wire.specs.Given.{written, joined};
ghost use Rattle.wire.specs.Packets.{what_of, told_bytes, response_bytes};
ghost use Rattle.wire.specs.Replies.{told_for, response_for, Sends};
ghost use Rattle.wire.specs.Whats.{number_of};

use crate::buffer::Buffer;
use crate::what::What;
use cache::QueryId;
use names::{Fault, Name};
use records::{Data, Kind, Ttl};
use zones::Reply;

fn what(reply: &Reply) -> What
    ensures { number_of result ≡ what_of (told_for (said_by (speaker_of reply.now))) }
{
    match reply {
        Reply::Data(_) => What::Data,
        Reply::Alias(_) => What::Alias,
        Reply::Referral(_) => What::Referral,
        Reply::NoData => What::NoData,
        Reply::NoName => What::NoName,
    }
}

// An alias's data are a name, since a set's data fit its kind. The root stands for any other data, which never come here.
fn put_target(content: &Data, out: &mut Buffer)
    ensures put { written out.new ≡ joined (written out.old) (wire (target_of (content_of content.now))) }
    ensures short { length (wire (target_of (content_of content.now))) ≤ 257 }
{
    match content {
        Data::Alias(name) => out.name(name),
        _ => out.name(&Name::root()),
    }
}

// In the same way a delegation's data name its servers.
fn put_servers(kind: Kind, content: &Data, out: &mut Buffer)
    requires { fits kind.number (content_of content.now) ≡ true }
    ensures put { written out.new ≡ joined (written out.old) (wire (delegation_of (content_of content.now)).servers) }
    ensures short { length (wire (delegation_of (content_of content.now)).servers) ≤ 145 }
{
    match content {
        Data::Delegation(to) => out.addresses(to.servers.as_slice()),
        _ => out.no_pieces(),
    }
}

#[tactic(auto, using(crate::proofs::Putting::joined_more))]
fn put_told(reply: &Reply, out: &mut Buffer)
    ensures put { written out.new ≡ joined (written out.old) (told_bytes (told_for (said_by (speaker_of reply.now)))) }
    ensures short { length (told_bytes (told_for (said_by (speaker_of reply.now)))) ≤ 617 }
{
    match reply {
        Reply::Data(set) => out.data(set.kind(), set.data()),
        Reply::Alias(set) => {
            put_target(set.data(), out);
            out.no_pieces();
        }
        Reply::Referral(set) => {
            out.name(set.name());
            put_servers(set.kind(), set.data(), out);
        }
        Reply::NoData | Reply::NoName => out.no_pieces(),
    }
}

// Writes the response to the query of this id behind what is there. It fits a packet, whatever the zone says.
pub fn write_reply(
    id: QueryId,
    apex: &Name,
    ttl: Ttl,
    reply: &Reply,
    out: &mut Vec<u8>,
) -> Result<(), Fault>
    ensures { Sends out.old.items (response_bytes (response_for id.0 (labels apex.now) ttl.0 (said_by (speaker_of reply.now)))) result out.new.items }
{
    let mut buffer = Buffer::new();
    buffer.front(id, apex, what(reply), ttl);
    put_told(reply, &mut buffer);
    buffer.append_to(out)
}
