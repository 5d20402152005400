// What the owners published: every version of every zone.
use cache::Moment;
use zones::Zone;

pub mod publishing;

// A zone, and since when its owner says it.
#[derive(Drop)]
pub struct Version {
    pub moment: Moment,
    pub zone: Zone,
}

// The newest version first.
#[derive(Drop)]
pub struct Owners {
    versions: Vec<Version>,
}
