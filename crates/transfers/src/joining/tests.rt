// Two parts of a zone, in whatever order they come.
use super::Joining;
use cache::{Moment, QueryId};
use names::{Fault, Name};
use records::{Data, Kind, RecordSet, Serial, Ttl};
use std::alloc::Global;
use std::test::Fail;
use wire::{PartHead, PartPacket};
use zones::Times;

// One of two parts, with a text at a name.
fn part(heap: Global, serial: u64, part: u16, name: &[u8]) -> Result<PartPacket, Fault> {
    let times = Times {
        negative: Ttl(60),
        refresh: Ttl(600),
        expire: Ttl(86400),
    };
    let head = PartHead {
        id: QueryId(7),
        serial: Serial::try_from(serial)?,
        moment: Moment(5),
        times,
        part,
        of: 2,
    };
    let text = Data::Texts(vec![in heap; vec![in heap; b't']?]?);
    let set = RecordSet::new(Name::read_whole(name)?, Kind::TEXT, Ttl(300), text)?;
    Ok(PartPacket {
        head,
        sets: vec![in heap; set]?,
    })
}

#[test]
fn joins_parts_in_any_order(rt: HostRuntime) -> Result<(), Fail> {
    let heap = rt.alloc();
    let apex = Name::read_whole(b"upperton")?;
    let mut joining = Joining::begin(heap, apex, part(heap, 3, 2, b"well.upperton")?)?;
    joining.take(part(heap, 3, 2, b"well.upperton")?)?;
    assert!(rt; !joining.is_complete());
    joining.take(part(heap, 3, 1, b"mill.upperton")?)?;
    let Ok(zone) = joining.finish() else {
        return Err(Fault::BadTransfer.into());
    };
    assert_eq!(rt; zone.sets().len(), 2);
    assert_eq!(rt; zone.expire(), Ttl(86400));
    Ok(())
}

#[test]
fn refuses_what_does_not_fit(rt: HostRuntime) -> Result<(), Fail> {
    let heap = rt.alloc();
    let apex = Name::read_whole(b"upperton")?;
    let mut joining = Joining::begin(heap, apex, part(heap, 3, 2, b"well.upperton")?)?;
    let newer = joining.take(part(heap, 4, 1, b"mill.upperton")?);
    assert_eq!(rt; newer, Err(Fault::BadTransfer));
    let again = joining.take(part(heap, 3, 1, b"well.upperton")?);
    assert_eq!(rt; again, Err(Fault::Misplaced));
    assert!(rt; !joining.is_complete());
    Ok(())
}
