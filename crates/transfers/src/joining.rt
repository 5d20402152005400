// A transfer under way.
ghost use Rattle.std.specs.Prelude.{◌≡◌};
ghost use Rattle.transfers.specs.Joining.{absent};

use cache::Moment;
use zones::Zone;

mod checking;
mod parts;
pub mod reading;
pub mod taking;
#[cfg(test)]
mod tests;

// Which parts of a version of a zone came, and the zone as far as they make it.
#[derive(Drop)]
pub struct Joining {
    zone: Zone,
    moment: Moment,
    // Whether each part is there, the first one first, and how many are not.
    there: Vec<bool>,
    missing: usize,
    ghost counted: { missing ≡ absent there.items },
}
