// The resolver as a machine, and the proof that it is the resolver of the protocol. No code, only theorems.
#![tactic(auto)]

ghost use Rattle.machine.specs.Bounds.{MachineBounds};
ghost use Rattle.machine.specs.Live.{MachineLive};
ghost use Rattle.machine.specs.Refine.{MachineRefines};
ghost use Rattle.machine.specs.Store.{StoreLaws};

// Any sequence of calls, where drawn ids are new and what is heard was said, is the resolver's part of a run of the
// world; so what the machine shows is fresh, and what is meant where owners rest.
pub fn machine_refines()
    ensures { MachineRefines }
{}

// An entry put into the cache takes the place of its key or of the one that runs out first of those not in use.
pub fn store_laws()
    ensures { StoreLaws }
{}

// No state of the machine is a dead end: with room for a walk, ids can be drawn and packets brought so that the machine
// itself asks what it should, and shows what is meant.
pub fn machine_lives()
    ensures { MachineLive }
{}

// For one question at most two queries are sent for each server of 24 words, and it ends within a bounded time if what is
// done is shown and what is wanted is asked before each second passes, for which there is always a place.
pub fn machine_bounds()
    ensures { MachineBounds }
{}
