//! Decodes messages by the basic and by the distinguished rules, as views of their values, and says where a message is
//! refused (X.690, 8.1 to 8.14, 10 and 11).
#![tactic(auto)]

mod der;
mod follower;
pub mod law;
mod open;
mod open_sink;
mod parts;
mod path;
mod place;
mod read;
mod stop;
mod view;
mod wrong;

pub use der::read_der;
pub use open::{OpenValue, Part};
pub use place::locate_error;
pub use read::{Read, read_ber};
pub use stop::ErrorPosition;
pub use view::read_view;
