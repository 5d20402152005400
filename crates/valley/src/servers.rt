// The servers: the first has the owners' zones, the others keep copies.
use cache::Moment;
use names::Name;
use records::Serial;

pub mod copying;
pub mod looking;
pub mod telling;

pub const OWNERS_SERVER: u64 = 1;

// In seconds: how often a server looks for a zone of which it has no copy.
pub const RETRY: u64 = 5;

// A version that a server has, and the moment as of which it is known to be what the owner says.
#[derive(Clone, Copy)]
pub struct Copied {
    pub moment: Moment,
    pub serial: Serial,
}

// A zone of which a server keeps a copy.
#[derive(Clone, Copy)]
pub struct Keeping {
    pub server: u64,
    pub apex: Name,
    pub copied: Option<Copied>,
    pub next_look: Moment,
}

#[derive(Drop)]
pub struct Servers {
    keepings: Vec<Keeping>,
}
