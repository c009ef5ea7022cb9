//! What tokens mean, and readers of whole productions, made of readers of their parts.
#![tactic(auto)]

pub mod decode;
pub mod lists;
pub mod parser;
pub mod punctuation;
pub mod read_error;
pub mod wrappers;

pub use lists::{Addition, AdditionParser, CommaList, Extensible, ExtensibleList, RootlessList};
pub use parser::{FnParser, Parser, PeekParser, Production, fn_parser};
pub use read_error::{Limit, Read, ReadError};
pub use wrappers::{InBraces, InParens, Optional, WithName};
