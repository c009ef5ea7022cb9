//! The compiler as one library. From the texts of modules, the name of a type and a value it makes octets. From the
//! name of a type and octets it makes a printed value.
#![tactic(auto)]

mod error_site;
mod kit;
mod kit_types;
pub mod law;
mod reading;
mod showing;
mod unpacking;
mod view_text;

pub use asn_base::schema::{Schema, TypeId};
pub use asn_base::value::{BitString, Value};
pub use ber_reader::Read;
pub use decode_faults::{ReadFault, Refusal};
pub use der_writer::WriteFault;
pub use judging::messages::{BitDecodeError, DecodeError, Fault, NotationFault, number, status};
pub use judging::named_values::ValueGiven;
pub use kit::Kit;
pub use later_versions::{Difference, Explained, Reason};
pub use octet_account::account::Account;
pub use packed_reader::{Part, PerFault, RefusedBits};
pub use packed_writer::WriteFault as PackFault;
pub use reading::Rules;
pub use showing::Listing;
pub use sinks::{Counted, InMemory, Sink, Stops, send_all};
pub use value_text::Fault as PrintFault;
pub use views::{ValueRef, View};

// Libraries that crates above name through this one.
pub use judging::{front_end, messages, named_values};
