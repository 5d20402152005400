// The topmost delegation over a name, found by halving.
ghost use Rattle.std.specs.Prelude.{◌≡◌, ◌≤◌, true, length};
ghost use Rattle.std.specs.Option.{option_map};
ghost use Rattle.names.specs.Names.{labels};
ghost use Rattle.names.specs.Order.{within};
ghost use Rattle.zones.specs.Cuts.{cut_place, cut_over, is_up_to_below};
ghost use Rattle.zones.specs.Zones.{cuts_in};

use super::Cuts;
use names::Name;

// Whether a name isn't after another, by their labels from a depth on.
fn is_up_to(cut: &Name, name: &Name, depth: usize) -> bool
    ensures { result ≡ is_up_to_below depth (labels name.now) (labels cut.now) }
{
    cut.compare_below(name, depth).is_le()
}

impl Cuts {
    // How many aren't after a name within the apex.
    pub fn position(&self, name: &Name) -> usize
        ensures value { within (labels self.now.apex) (labels name.now) ≡ true → result ≡ cut_place (labels name.now) (cuts_in self.now) }
        ensures bound { result ≤ length (cuts_in self.now) }
    {
        let depth = self.apex.label_count();
        let names = self.names.as_slice();
        names.partition_point(|cut| is_up_to(cut, name, depth))
    }

    // The one at a name or above it.
    pub fn find(&self, name: &Name) -> Option<&Name>
        ensures { option_map (λ n. labels n.now) result ≡ cut_over (labels name.now) (cuts_in self.now) }
    {
        let cut = self.names.as_slice()[..self.position(name)].last()?;
        name.is_within(cut).then_some(cut)
    }
}
