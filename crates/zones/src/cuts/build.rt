// Keeping the topmost delegations as sets come in.
ghost use Rattle.std.specs.Prelude.{◌≡◌, ◌+◌, ◌<◌, ◌≤◌, true, [], None, vec_len, vec_capacity, MatchResult};
ghost use Rattle.std.specs.List.{remove_range};
ghost use Rattle.names.specs.declared.fault.Fault.TheVariants.{NoMemory};
ghost use Rattle.names.specs.Names.{labels};
ghost use Rattle.names.specs.Order.{within};
ghost use Rattle.records.specs.Sets.{set_of};
ghost use Rattle.zones.specs.Cuts.{cut_over, new_cut, with_cut, with_any};
ghost use Rattle.zones.specs.Zones.{cuts_in, free_in};

use super::Cuts;
use names::{Fault, Name};
use records::RecordSet;
use std::alloc::Global;

// So many names from an index on go. A drain moves all that are behind it, even where none goes.
fn take_out(names: &mut Vec<Name>, at: usize, count: usize)
    requires { at + count ≤ vec_len names.old }
    ensures items { names.new.items ≡ remove_range names.old.items at (at + count) }
    ensures capacity { vec_capacity names.new ≡ vec_capacity names.old }
{
    if count > 0 {
        drop(names.drain(at..at + count));
    }
}

impl Cuts {
    pub fn new(heap: Global, apex: Name) -> Cuts
        ensures apex { labels result.apex ≡ labels apex }
        ensures cuts { cuts_in result ≡ [] }
    {
        Cuts {
            apex,
            names: Vec::new(heap),
        }
    }

    // Room for so many more.
    pub fn reserve(&mut self, count: usize) -> Result<(), Fault>
        ensures apex { labels self.new.apex ≡ labels self.old.apex }
        ensures cuts { cuts_in self.new ≡ cuts_in self.old }
        ensures kept { free_in self.old.names ≤ free_in self.new.names }
        ensures room { MatchResult result (λ _. count ≤ free_in self.new.names) (λ f. (f ≡ NoMemory) × (free_in self.old.names < count)) }
    {
        self.names.reserve(count)?;
        Ok(())
    }

    // A delegation more, where none is over it yet: those within it are topmost no more.
    fn add(&mut self, name: Name)
        requires inside { within (labels self.old.apex) (labels name) ≡ true }
        requires topmost { cut_over (labels name) (cuts_in self.old) ≡ None }
        requires room { 1 ≤ free_in self.old.names }
        ensures apex { labels self.new.apex ≡ labels self.old.apex }
        ensures cuts { cuts_in self.new ≡ with_cut (labels name) (cuts_in self.old) }
        ensures room { free_in self.old.names ≤ free_in self.new.names + 1 }
    {
        let at = self.position(&name);
        let below = self.names.as_slice()[at..].partition_point(|cut| cut.is_within(&name));
        take_out(&mut self.names, at, below);
        let _ = self.names.insert(at, name);
    }

    // A set more: a delegation that none is over becomes one of the topmost.
    pub fn add_set(&mut self, set: &RecordSet)
        requires inside { within (labels self.old.apex) (set_of set.now).name ≡ true }
        requires room { 1 ≤ free_in self.old.names }
        ensures apex { labels self.new.apex ≡ labels self.old.apex }
        ensures cuts { cuts_in self.new ≡ with_any (new_cut (set_of set.now) (cuts_in self.old)) (cuts_in self.old) }
        ensures room { free_in self.old.names ≤ free_in self.new.names + 1 }
    {
        if set.kind().is_delegation() && self.find(set.name()).is_none() {
            self.add(*set.name());
        }
    }
}
