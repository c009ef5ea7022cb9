//! Header octets of encodings: identifier octets and length octets (X.690, 8.1.2 and 8.1.3).
#![tactic(auto)]

mod digits;
mod form;
mod header;
mod header_fault;
pub mod law;
mod read;

pub use digits::octets_of;
pub use form::Form;
pub use header::{header_len, write_header};
pub use header_fault::{Fault, HeaderFault};
pub use read::{Header, read_header};
