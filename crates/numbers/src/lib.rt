// The control record as numbers in a slice: read, and written back but for the address slots. Their order is that of specs/Lists.antt and of include/vintrazzola.h.
#![tactic(auto)]

mod lists;
mod places;
mod record;

pub use lists::write_but_slots;
pub use record::read;
