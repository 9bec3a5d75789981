//! A box with a trail of its changes, and a stack of the boxes that are left for later.
//!
//! `put` changes the box and nothing of the stack, `push` leaves for later the box with other bounds for one variable, `pop`
//! goes back to it; where memory is refused all is as before. Contracts see a box and a list of boxes, and no trail. Where it is
//! asked for, a log of what was put and why is kept beside, of which no contract speaks. It stands on `interval`.
#![tactic(auto)]

mod log;
mod trail;
mod trailed;

pub use log::{Cause, Event, Log};
pub use trail::Part;
pub use trailed::TrailedBox;
