//! Places in the canonical order of tags (X.680, 8.6), for all members of a list. `asn_base::order` looks at each
//! member to find the place of one; here the tags are sorted once, and each place is then found in a few steps.
#![tactic(auto)]

mod keys;
mod places;

pub use keys::{key_law, tagged_key};
pub use places::{alternative_keys, component_keys, place_by};
