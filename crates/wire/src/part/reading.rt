// Reading a part.
ghost use Rattle.std.specs.Prelude.{◌≡◌};
ghost use Rattle.wire.specs.Fields.{unread};
ghost use Rattle.wire.specs.Given.{Reads, shaped};
ghost use Rattle.wire.specs.Parts.{part_in, all_sets};
ghost use Rattle.wire.specs.Heads.{part_of, fields_of, head_given, head_in, TakesTimes, TakesHead};
ghost use Rattle.wire.specs.Sets.{sets_of};
ghost use Rattle.wire.specs.Shapes.{cut_times, cut_head, sets_behind, part_shape};

use super::{PartHead, PartPacket};
use crate::fields::Fields;
use crate::sets::sets;
use cache::{Moment, QueryId};
use names::Fault;
use records::{RecordSet, Serial, Ttl};
use std::alloc::Global;
use zones::Times;

// A head whose serial may be none: what is cut short is told before that.
#[derive(Clone, Copy)]
struct HeadFields {
    id: u64,
    serial: u64,
    moment: u64,
    times: Times,
    part: u16,
    of: u16,
}

fn times(fields: &mut Fields) -> Option<Times>
    ensures { TakesTimes (cut_times (unread fields.old)) result (unread fields.new) }
{
    let Some(negative) = fields.number_4() else {
        return None;
    };
    let Some(refresh) = fields.number_4() else {
        return None;
    };
    let Some(expire) = fields.number_4() else {
        return None;
    };
    Some(Times {
        negative: Ttl(negative),
        refresh: Ttl(refresh),
        expire: Ttl(expire),
    })
}

fn head(fields: &mut Fields) -> Option<HeadFields>
    ensures { TakesHead (cut_head (unread fields.old)) result (unread fields.new) }
{
    let Some(id) = fields.number_8() else {
        return None;
    };
    let Some(serial) = fields.number_8() else {
        return None;
    };
    let Some(moment) = fields.number_8() else {
        return None;
    };
    let Some(times) = times(fields) else {
        return None;
    };
    let Some(part) = fields.number_2() else {
        return None;
    };
    let Some(of) = fields.number_2() else {
        return None;
    };
    Some(HeadFields {
        id,
        serial,
        moment,
        times,
        part,
        of,
    })
}

impl HeadFields {
    fn judged(self) -> Result<PartHead, Fault>
        ensures { head_given result ≡ head_in (fields_of self) }
    {
        Ok(PartHead {
            id: QueryId(self.id),
            serial: Serial::try_from(self.serial)?,
            moment: Moment(self.moment),
            times: self.times,
            part: self.part,
            of: self.of,
        })
    }

    // A part of none tells that there is nothing newer: no set stands behind it.
    fn sets(&self, heap: Global, fields: &mut Fields) -> Result<Vec<RecordSet>, Fault>
        ensures { Reads sets_of (shaped all_sets (sets_behind (fields_of self.now) (unread fields.old))) result }
    {
        if self.of == 0 && !fields.is_empty() {
            return Err(Fault::Malformed);
        }
        sets(heap, fields)
    }
}

impl PartPacket {
    // What stands behind the first byte, to its end.
    pub(crate) fn read(heap: Global, fields: &mut Fields) -> Result<PartPacket, Fault>
        ensures { Reads part_of (shaped part_in (part_shape (unread fields.old))) result }
    {
        let Some(head) = head(fields) else {
            return Err(Fault::Malformed);
        };
        let sets = head.sets(heap, fields)?;
        let head = head.judged()?;
        Ok(PartPacket { head, sets })
    }
}
