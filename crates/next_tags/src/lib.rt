//! What comes next in octets: an encoding at their start, and the component or alternative that its tag identifies
//! (X.680, 25.6.1, 27.3 and 29.3; X.690, 8.1.1).
#![tactic(auto)]

mod encoding;
mod first;
mod search;

pub use asn_base::tag::same_tag;
pub use encoding::{Unit, next_unit, short_unit};
pub use first::{can_begin, can_begin_by, step_at};
pub use search::{
    are_read, choose, field_in, find, is_extensible, is_in, last_steps, may_be_absent,
};
