//! What a user reads about octets that are refused: what was found in them, and what was expected in its place.
#![tactic(auto)]

mod allowed;
mod arcs;
mod contents;
mod headers;
mod items;
mod lacking;
mod next;
mod presence;
mod refused;
mod site;
mod tags;
mod words;

pub use allowed::allowed_in_bits;
pub use headers::{contents_depth, depth};
pub use lacking::missing;
pub use refused::{FaultSite, finding};
pub use site::Site;
pub use tags::{constructed, unexpected};
