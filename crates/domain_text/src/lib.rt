//! The domains that propagation alone leaves for the variables of a model, as text.
#![tactic(auto)]

mod laws;
mod left;
mod lines;
mod sets;

pub use laws::law_one_domain_text;
pub use left::domains_of;
