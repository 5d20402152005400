// Domain names: their limits, their order, the written form and the wire form, and the faults of the whole service.
#![tactic(auto)]

mod fault;
mod name;

pub use fault::{Fault, fault_laws};
pub use name::iter::Labels;
pub use name::order::{order_laws, within_laws};
pub use name::text::written_laws;
pub use name::wire::{Reader, wire_laws};
pub use name::{MAX_LABEL, MAX_LABELS, MAX_WRITTEN, Name};
