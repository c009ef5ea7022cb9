//! Tags of linked types.
#![tactic(auto)]

mod automatic;
mod check;
mod columns;
mod fault;
mod first;
pub mod law;
mod lists;
mod path;
mod table;
mod tagged;

pub use fault::{Limit, TagFault};
pub use path::{FormedTag, TagForm, TagPath};
pub use table::TagTable;
pub use tagged::{Tagged, tag, tag_table, tags_of};
