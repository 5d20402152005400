// The topmost delegations of a zone, by their names in order. No two lie within one another, so the last that isn't after a
// name is the only one that can be over it.
ghost use Rattle.std.specs.Prelude.{◌≡◌, true, map};
ghost use Rattle.names.specs.Names.{labels};
ghost use Rattle.zones.specs.Cuts.{all_below, apart};

use names::Name;

pub mod build;
pub mod search;

#[derive(Drop)]
pub struct Cuts {
    apex: Name,
    names: Vec<Name>,
    ghost ordered: { apart (map labels names.items) ≡ true },
    ghost inside: { all_below (labels apex) (map labels names.items) ≡ true },
}
