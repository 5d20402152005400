// A domain name, kept from the root down in one fixed block: no name owns heap memory.
ghost use Rattle.std.specs.Prelude.{◌≡◌, ◌≤◌, true, length, take};
ghost use Rattle.names.specs.Labels.{proper};
ghost use Rattle.names.specs.Layout.{pieces, rising};

pub mod display;
pub mod iter;
pub mod labels;
pub mod order;
pub mod text;
pub mod wire;

// The most labels of a name, the most bytes of a label, and the most bytes of a name as it is written.
pub const MAX_LABELS: usize = 16;

pub const MAX_LABEL: usize = 63;

pub const MAX_WRITTEN: usize = 255;

// Every value keeps the limits: at most 16 labels, each of 1 to 63 bytes that are small letters, digits or hyphens,
// and at most 255 bytes as written.
#[derive(Clone, Copy)]
pub struct Name {
    // The bytes of the labels, one label behind the other.
    bytes: [u8; MAX_WRITTEN],
    // Where each label ends. Sixteen ends with a count beside them, and no `ArrayVec`, which is not `Copy`: names are plain
    // values.
    ends: [u8; MAX_LABELS],
    count: u8,
    ghost counted: { count ≤ length ends },
    ghost laid: { rising 0 (take count ends) (length bytes) ≡ true },
    ghost limited: { proper (pieces 0 (take count ends) bytes) ≡ true },
}
