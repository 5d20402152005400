// Questions over two delegations, which a resolver answers by what it remembers.
use crate::load::label;
use cache::{QueryId, Referral, Said, Word};
use names::{Fault, Name};
use questions::{Query, Request};
use records::{Address, Data, Delegation, Kind, Ttl};
use resolver::{Resolver, Response};
use std::alloc::Global;

const SERVER: Address = Address([0, 0, 0, 0, 0, 0, 0, 1]);

// Two referrals, and the data.
const WORDS: usize = 3;

fn request(number: u64) -> Result<Request, Fault> {
    let name = Name::read_whole(b"upperton.valley")?.child(&label(b'a', number))?;
    Ok(Request {
        ticket: number,
        name,
        kind: Kind::ADDRESS,
    })
}

// What the zones of the root and of the valley, and then the village's, say.
fn said(heap: Global, query: &Query) -> Result<Said, Fault> {
    let depth = query.key.apex.label_count();
    let servers = vec![in heap; SERVER]?;
    if depth >= 2 {
        return Ok(Said::Data(Data::Addresses(servers)));
    }
    let name = query.key.name.ancestor(depth + 1);
    let to = Delegation { servers };
    Ok(Said::Referral(Referral { name, to }))
}

fn response(heap: Global, query: &Query) -> Result<Response, Fault> {
    Ok(Response {
        id: query.id,
        apex: query.key.apex,
        word: Word {
            said: said(heap, query)?,
            ttl: Ttl(3600),
        },
    })
}

// Asks, and brings what is wanted: one word, or three where nothing is remembered yet.
fn learn(heap: Global, resolver: &mut Resolver, number: u64) -> Result<(), Fault> {
    let _ = resolver.ask(heap, request(number)?)?;
    for word in 0..WORDS {
        let id = QueryId(number.wrapping_mul(4).wrapping_add(word as u64));
        let Some(query) = resolver.draw(id)? else {
            break;
        };
        resolver.hear(response(heap, &query)?)?;
    }
    let _ = resolver.settle();
    Ok(())
}

// A resolver that remembers the words of so many questions.
pub fn learned(heap: Global, questions: u64) -> Result<Resolver, Fault> {
    let mut resolver = Resolver::new(heap, vec![in heap; SERVER]?)?;
    for number in 0..questions {
        learn(heap, &mut resolver, number)?;
    }
    Ok(resolver)
}

// The questions that it learned.
pub fn requests(heap: Global, questions: u64) -> Result<Vec<Request>, Fault> {
    let mut requests = Vec::new(heap);
    for number in 0..questions {
        requests.push(request(number)?)?;
    }
    Ok(requests)
}

// How many of so many questions, asked in turn, are answered at once.
pub fn answered(
    heap: Global,
    resolver: &mut Resolver,
    requests: &[Request],
    wanted: u64,
) -> Result<u64, Fault> {
    let mut answered: u64 = 0;
    for (_, request) in (0..wanted).zip(requests.iter().cycle()) {
        if resolver.ask(heap, *request)?.is_some() {
            answered = answered.wrapping_add(1);
        }
    }
    Ok(answered)
}
