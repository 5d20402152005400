// Writing a response.
ghost use Rattle.std.specs.Prelude.{◌≡◌, true};
ghost use Rattle.wire.specs.Given.{written, joined};
ghost use Rattle.wire.specs.Packets.{response_bytes, response_keeps};
ghost use Rattle.wire.specs.Responses.{response_of};

use super::ResponsePacket;
use crate::buffer::Buffer;

impl ResponsePacket {
    pub(crate) fn put(&self, out: &mut Buffer)
        ensures put { written out.new ≡ joined (written out.old) (response_bytes (response_of self.now)) }
        ensures kept { response_keeps (response_of self.now) ≡ true }
    {
        out.front(self.id, &self.apex, self.told.what(), self.ttl);
        self.told.put(out);
    }
}
