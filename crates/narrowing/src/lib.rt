//! What narrows the boxes of a search: with one lane propagation that asks what moved, on the trailed box itself; with more an
//! engine over shared bounds. Both give the one greatest closed box.
//!
//! `Narrower::narrow` ends with that box, or that there is none, or as many rounds as the limit led to a box that holds every
//! closed box inside, with one lane exactly where so many sweeps move it; the boxes left for later stay. Whoever puts a bound notes its variable (`note`); of a new box that
//! one alone by which it was made (`note_alone`), or all (`note_all`). It builds on `moved_fixpoint` and
//! `rounds`, and parts no box: `search` does.
#![tactic(auto)]

mod alone;
mod lanes;
mod laws;
mod narrowed;
mod narrower;
mod propagation;

pub use alone::Alone;
pub use lanes::Lanes;
pub use laws::{law_known_where_rests, law_quiet_where_closed};
pub use narrowed::Narrowed;
pub use narrower::Narrower;
pub use propagation::Propagation;
