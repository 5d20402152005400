// What a server says of its zone, and the packet by which it answers.
#![tactic(auto)]

mod answering;
mod telling;

pub use answering::answer;
pub use telling::tell;

#[cfg(test)]
mod tests {
    use super::*;
    use cache::Said;
    use names::{Fault, Name};
    use records::{Address, Data, Delegation, Kind, RecordSet, Serial, Ttl};
    use std::alloc::Global;
    use std::test::Fail;
    use zones::{Times, Zone};

    fn put(zone: &mut Zone, name: &[u8], kind: Kind, ttl: u32, content: Data) -> Result<(), Fault> {
        zone.insert(RecordSet::new(Name::read_whole(name)?, kind, Ttl(ttl), content)?)
    }

    fn village(heap: Global) -> Result<Zone, Fault> {
        let times = Times {
            negative: Ttl(60),
            refresh: Ttl(600),
            expire: Ttl(86400),
        };
        let apex = Name::read_whole(b"upperton")?;
        let mut zone = Zone::new(heap, apex, Serial::try_from(1)?, times);
        let text = vec![in heap; vec![in heap; b't']?]?;
        put(
            &mut zone,
            b"well.upperton",
            Kind::TEXT,
            300,
            Data::Texts(text),
        )?;
        let other = Name::read_whole(b"well.upperton")?;
        put(
            &mut zone,
            b"help.upperton",
            Kind::ALIAS,
            600,
            Data::Alias(Box::new(heap, other)?),
        )?;
        let servers = vec![in heap; Address([0, 0, 0, 0, 0, 0, 0, 2])]?;
        let to = Data::Delegation(Delegation { servers });
        put(&mut zone, b"dairy.upperton", Kind::DELEGATION, 3600, to)?;
        Ok(zone)
    }

    // What is told of a text at a name, in short: its form and its ttl.
    fn told(heap: Global, zone: &Zone, name: &[u8]) -> Result<Option<(&'static str, u32)>, Fault> {
        let Some(word) = tell(heap, zone, &Name::read_whole(name)?, Kind::TEXT)? else {
            return Ok(None);
        };
        let form = match word.said {
            Said::Data(_) => "data",
            Said::Alias(_) => "alias",
            Said::Referral(_) => "referral",
            Said::NoData => "no data",
            Said::NoName => "no name",
        };
        Ok(Some((form, word.ttl.0)))
    }

    #[test]
    fn tells_each_form(rt: HostRuntime) -> Result<(), Fail> {
        let heap = rt.alloc();
        let zone = village(heap)?;
        assert_eq!(rt; told(heap, &zone, b"well.upperton")?, Some(("data", 300)));
        assert_eq!(rt; told(heap, &zone, b"help.upperton")?, Some(("alias", 600)));
        assert_eq!(rt;
            told(heap, &zone, b"milk.dairy.upperton")?,
            Some(("referral", 3600))
        );
        assert_eq!(rt; told(heap, &zone, b"upperton")?, Some(("no data", 60)));
        assert_eq!(rt; told(heap, &zone, b"mill.upperton")?, Some(("no name", 60)));
        assert_eq!(rt; told(heap, &zone, b"lowerton")?, None);
        Ok(())
    }
}
