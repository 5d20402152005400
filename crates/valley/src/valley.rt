// Owners, servers, askers and the net, by one clock.
ghost use Rattle.std.specs.Prelude.{◌≡◌, ◌+◌, if◌then◌else◌, is_some, IfOk, MatchResult};
ghost use Rattle.std.specs.Int.{from_be_bytes, w64};
ghost use Rattle.std.specs.Option.{option_map};
ghost use Rattle.names.specs.declared.fault.Fault.TheVariants.{NoMemory};
ghost use Rattle.names.specs.Names.{labels};
ghost use Rattle.protocol.specs.World.{current};
ghost use Rattle.questions.specs.Queries.{query_of};
ghost use Rattle.valley.specs.Having.{kept_by, told_by};
ghost use Rattle.valley.specs.Owning.{published_by};
ghost use Rattle.valley.specs.Packets.{Renews, telling_of, telling_for};

use crate::ages::Ages;
use crate::bytes::bytes_of;
use crate::clock::Clock;
use crate::ids::Ids;
use crate::net::{Asked, Net, Packet, Told};
use crate::owners::Owners;
use crate::print::{
    print_bytes, print_meaning, print_packet, print_refusal, print_shown, print_way, report,
};
use crate::servers::{OWNERS_SERVER, Servers};
use crate::settings::Settings;
use crate::stop::Stop;
use crate::walk::meant;
use cache::Moment;
use names::{Fault, Name};
use questions::{Query, Request};
use records::{Address, Kind};
use resolver::{Heard, MAX_WALKS, Resolver, Shown};
use script::Command;
use std::alloc::Global;
use std::io;
use zones::Zone;
use zonetext::{Refusal, apex_of, load};

// Boxes are counted behind them.
const ASKERS: u64 = 4;

#[derive(Drop)]
pub struct Valley {
    clock: Clock,
    settings: Settings,
    owners: Owners,
    servers: Servers,
    // By their numbers, from 1.
    askers: Vec<Resolver>,
    net: Net,
    ids: Ids,
    ages: Ages,
}

fn askers(heap: Global) -> Result<Vec<Resolver>, Fault> {
    let mut askers = Vec::with_capacity(heap, ASKERS as usize)?;
    for _ in 0..ASKERS {
        let roots = vec![in heap; Address([0, 0, 0, 0, 0, 0, 0, 1])]?;
        askers.push(Resolver::new(heap, roots)?)?;
    }
    Ok(askers)
}

fn place_of(asker: u64) -> usize {
    asker.saturating_sub(1) as usize
}

impl Valley {
    pub fn new(heap: Global, settings: Settings) -> Result<Valley, Fault> {
        Ok(Valley {
            clock: Clock::new(),
            settings,
            owners: Owners::new(heap),
            servers: Servers::new(heap),
            askers: askers(heap)?,
            net: Net::new(heap),
            ids: Ids::new(),
            ages: Ages::new(heap),
        })
    }

    pub fn now(&self) -> Moment
        ensures { result.0 ≡ self.now.clock.moment }
    {
        Moment(self.clock.now())
    }

    // What is shown, what it means now, and by which words it is shown.
    fn show(&self, rt: &HostRuntime, asker: u64, shown: &Shown) -> Result<(), Stop> {
        let Some(resolver) = self.askers.get(place_of(asker)) else {
            return Ok(());
        };
        let request = &shown.request;
        let meaning = meant(rt.alloc(), &self.owners, &request.name, request.kind)?;
        print_shown(rt, asker, resolver, shown)?;
        print_meaning(rt, &meaning)?;
        print_way(rt, &self.ages, resolver, shown)?;
        Ok(())
    }

    fn send(&mut self, rt: &HostRuntime, packet: Packet) -> Result<(), Stop> {
        let number = self.net.send(packet)?;
        if let Some(packet) = self.net.get(number) {
            print_packet(rt, number, packet)?;
            if self.settings.shows_bytes {
                print_bytes(rt, bytes_of(rt.alloc(), packet)?.as_slice())?;
            }
        }
        Ok(())
    }

    // The query that an asker sends under the next id, if it wants one.
    fn draw(&mut self, asker: u64) -> Result<Option<Query>, Fault>
        ensures ids { IfOk result (λ o. self.new.ids.last ≡ (if is_some o then self.old.ids.last + 1 else self.old.ids.last)) }
    {
        let Some(resolver) = self.askers.get_mut(place_of(asker)) else {
            return Ok(None);
        };
        let Some(id) = self.ids.next() else {
            return Ok(None);
        };
        let query = resolver.draw(id)?;
        if query.is_some() {
            self.ids.use_up(id);
        }
        Ok(query)
    }

    fn settle(&mut self, asker: u64) -> Option<Shown> {
        self.askers.get_mut(place_of(asker))?.settle()
    }

    // An asker shows what is done, and sends the queries that its questions want.
    fn go_on(&mut self, rt: &HostRuntime, asker: u64) -> Result<(), Stop> {
        for _ in 0..MAX_WALKS {
            let Some(shown) = self.settle(asker) else {
                break;
            };
            self.show(rt, asker, &shown)?;
        }
        // A question wants one query at a time.
        for _ in 0..MAX_WALKS {
            let Some(query) = self.draw(asker)? else {
                break;
            };
            self.send(rt, Packet::Query(Asked { asker, query }))?;
        }
        Ok(())
    }

    fn all_go_on(&mut self, rt: &HostRuntime) -> Result<(), Stop> {
        for asker in 1..=ASKERS {
            self.go_on(rt, asker)?;
        }
        Ok(())
    }

    fn ask(
        &mut self,
        rt: &HostRuntime,
        line: u64,
        asker: u64,
        name: Name,
        kind: Kind,
    ) -> Result<(), Stop> {
        let Some(resolver) = self.askers.get_mut(place_of(asker)) else {
            let number = kind.number();
            println!(rt; "line {line}: ask {asker} {name} {number}: read, not played yet")?;
            return Ok(());
        };
        let ticket = line;
        let request = Request { ticket, name, kind };
        if let Some(shown) = resolver.ask(rt.alloc(), request)? {
            self.show(rt, asker, &shown)?;
        }
        self.all_go_on(rt)
    }

    // What a server says to a query: nothing where it doesn't have the zone.
    fn told(&self, heap: Global, asked: &Asked) -> Result<Option<Told>, Fault>
        ensures { MatchResult result (λ o. option_map telling_of o ≡ option_map (telling_for asked.now.asker (from_be_bytes w64 asked.now.query.server.0) (query_of asked.now.query)) (told_by self.now.clock.moment (published_by self.now.owners) (kept_by self.now.servers) (from_be_bytes w64 asked.now.query.server.0) (labels asked.now.query.key.apex) (labels asked.now.query.key.name) asked.now.query.key.kind.number)) (λ f. f ≡ NoMemory) }
    {
        let key = &asked.query.key;
        let server = asked.server();
        let told = self
            .servers
            .tell(heap, &self.owners, server, key, self.now())?;
        let Some((word, moment)) = told else {
            return Ok(None);
        };
        Ok(Some(Told {
            asker: asked.asker,
            server,
            id: asked.query.id,
            apex: key.apex,
            kind: key.kind,
            word,
            moment,
        }))
    }

    fn bring_query(&mut self, rt: &HostRuntime, asked: &Asked) -> Result<(), Stop> {
        match self.told(rt.alloc(), asked)? {
            Some(told) => self.send(rt, Packet::Response(told)),
            None => Ok(()),
        }
    }

    // An asker hears a response; a refusal is told, and changes nothing.
    fn bring_response(&mut self, rt: &HostRuntime, line: u64, told: Told) -> Result<(), Stop> {
        let Some(resolver) = self.askers.get_mut(place_of(told.asker)) else {
            return Ok(());
        };
        let id = told.id;
        let moment = told.moment;
        match resolver.hear(told.response()) {
            Ok(heard) => {
                self.ages.note(id, moment)?;
                if heard == Heard::Ousted {
                    report(rt, line, Fault::CacheFull)?;
                }
            }
            Err(fault) => report(rt, line, fault)?,
        }
        Ok(())
    }

    fn bring(&mut self, rt: &HostRuntime, line: u64, number: u64) -> Result<(), Stop> {
        let Some(packet) = self.net.get(number) else {
            return Ok(());
        };
        match packet.copied(rt.alloc())? {
            Packet::Query(asked) => self.bring_query(rt, &asked)?,
            Packet::Response(told) => self.bring_response(rt, line, told)?,
        }
        self.all_go_on(rt)
    }

    fn tick(&mut self, rt: &HostRuntime) -> Result<(), Stop> {
        let Some(now) = self.clock.tick() else {
            return Err(Stop::Io(io::Error::other("the clock has run out")));
        };
        println!(rt; "moment {now}")?;
        self.servers.look_where_due(&self.owners, Moment(now));
        for resolver in self.askers.as_mut_slice() {
            let _ = resolver.tick();
        }
        self.all_go_on(rt)
    }

    // The zone that a text means, in the place of the one that its owner says now.
    fn zone_in(&self, heap: Global, text: &[u8]) -> Result<Zone, Refusal>
        ensures { Renews (λ a. current a (published_by self.now.owners)) text.now result }
    {
        let apex = apex_of(heap, text)?;
        load(heap, self.owners.current(&apex), text)
    }

    // A faulty text is told with its line, and changes nothing.
    fn publish(&mut self, rt: &HostRuntime, line: u64, file: &[u8]) -> Result<(), Stop> {
        let file = String::from_utf8_lossy(rt.alloc(), file)?;
        let text = self.settings.texts.read(rt, file.as_str())?;
        match self.zone_in(rt.alloc(), text.as_slice()) {
            Ok(zone) => {
                let now = self.now();
                self.owners.publish(now, zone)?;
            }
            Err(refusal) => print_refusal(rt, line, file.as_str(), &refusal)?,
        }
        Ok(())
    }

    fn copy(&mut self, server: u64, apex: Name) -> Result<(), Stop> {
        let now = self.now();
        if server != OWNERS_SERVER {
            self.servers.keep(&self.owners, server, apex, now)?;
        }
        Ok(())
    }

    // An error ends the script.
    pub fn play(&mut self, rt: &HostRuntime, line: u64, command: Command) -> Result<(), Stop> {
        match command {
            Command::Nothing => Ok(()),
            Command::Tick => self.tick(rt),
            Command::Zone { file } => self.publish(rt, line, file.as_slice()),
            Command::Copy { server, name } => self.copy(server, name),
            Command::Ask { asker, name, kind } => self.ask(rt, line, asker, name, kind),
            Command::Bring { packet } => self.bring(rt, line, packet),
        }
    }
}
