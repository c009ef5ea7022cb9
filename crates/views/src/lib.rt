//! Values read from a message, whose strings are slices of the message: one list of nodes, each before those below it.
#![tactic(auto)]

mod builder;
pub mod law;
mod leaf;
mod node;
mod node_slices;
mod packed_i128;
mod part;
pub mod room;
mod value_kind;
mod view;

pub use asn_base::node::ValueKind;
pub use builder::Builder;
pub use node::Lists;
pub use part::{MemberRefs, ValueRef};
pub use view::View;
