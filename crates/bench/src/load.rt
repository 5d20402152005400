// A zone for counting: addresses, aliases, delegations, names that only have something below them, and texts, in the order
// of their names.
use names::{Fault, Name};
use records::{Address, Data, Delegation, Kind, RecordSet, Serial, Ttl};
use std::alloc::Global;
use zones::{Times, Zone};

// How many sets of each class a zone has.
#[derive(Clone, Copy)]
pub struct Plan {
    pub addresses: u64,
    pub aliases: u64,
    pub delegations: u64,
    pub empties: u64,
    pub texts: u64,
}

impl Plan {
    // Of 4,096 sets: 3,840 addresses, 128 aliases, 16 delegations, 32 below names without sets, 80 texts. Of others in
    // proportion, but at least one of each.
    pub fn new(sets: u64) -> Plan {
        let aliases = (sets / 32).max(1);
        let delegations = (sets / 256).max(1);
        let empties = (sets / 128).max(1);
        let texts = (sets.saturating_mul(5) / 256).max(1);
        let rest = sets
            .saturating_sub(aliases)
            .saturating_sub(delegations)
            .saturating_sub(empties)
            .saturating_sub(texts);
        Plan {
            addresses: rest.max(1),
            aliases,
            delegations,
            empties,
            texts,
        }
    }
}

// The last digit alone. Not printed: four digits of any number want `% 10_000` and a slice around the label.
fn digit(number: u64) -> u8 {
    b'0' + (number % 10) as u8
}

// A letter for the class and a number of four digits.
pub fn label(class: u8, number: u64) -> [u8; 5] {
    [
        class,
        digit(number / 1000),
        digit(number / 100),
        digit(number / 10),
        digit(number),
    ]
}

pub fn apex() -> Result<Name, Fault> {
    Name::read(b"upperton")
}

// The name of a class and number below the apex.
pub fn named(class: u8, number: u64) -> Result<Name, Fault> {
    apex()?.child(&label(class, number))
}

fn put(zone: &mut Zone, name: Name, kind: Kind, content: Data) -> Result<(), Fault> {
    zone.insert(RecordSet::new(name, kind, Ttl(3600), content)?)
}

fn addresses(heap: Global) -> Result<Vec<Address>, Fault> {
    Ok(vec![in heap; Address([0, 0, 0, 0, 0, 0, 0, 9])]?)
}

fn text(heap: Global) -> Result<Vec<Vec<u8>>, Fault> {
    let piece = vec![in heap; b't']?;
    Ok(vec![in heap; piece]?)
}

fn put_all(heap: Global, zone: &mut Zone, plan: &Plan) -> Result<(), Fault> {
    for i in 0..plan.addresses {
        let data = Data::Addresses(addresses(heap)?);
        put(zone, named(b'a', i)?, Kind::ADDRESS, data)?;
    }
    for i in 0..plan.aliases {
        put(
            zone,
            named(b'b', i)?,
            Kind::ALIAS,
            Data::Alias(Box::new(heap, named(b'a', i)?)?),
        )?;
    }
    for i in 0..plan.delegations {
        let servers = addresses(heap)?;
        let data = Data::Delegation(Delegation { servers });
        put(zone, named(b'd', i)?, Kind::DELEGATION, data)?;
    }
    for i in 0..plan.empties {
        let data = Data::Addresses(addresses(heap)?);
        put(zone, named(b'e', i)?.child(b"x")?, Kind::ADDRESS, data)?;
    }
    for i in 0..plan.texts {
        put(zone, named(b't', i)?, Kind::TEXT, Data::Texts(text(heap)?))?;
    }
    Ok(())
}

// With the times of the sample zones of `valley`: programs share no crate of their own.
pub fn zone(heap: Global, plan: &Plan) -> Result<Zone, Fault> {
    let serial = Serial::try_from(1)?;
    let times = Times {
        negative: Ttl(60),
        refresh: Ttl(600),
        expire: Ttl(86400),
    };
    let mut zone = Zone::new(heap, apex()?, serial, times);
    put_all(heap, &mut zone, plan)?;
    Ok(zone)
}
