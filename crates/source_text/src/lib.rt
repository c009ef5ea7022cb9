//! What a message shows of texts that others wrote: their tokens, names, lines and characters, and where these are.
#![tactic(auto)]

mod caret;
mod characters;
mod line;
mod modules;
mod places;

pub use caret::context;
pub use characters::{character, open_string};
pub use line::{escaped, on_one_line, shown};
pub use modules::module_text;
pub use places::{
    is_kind, line_and_column, place_text, spelling, start, token_octet, token_text, tokens_in,
    word_at,
};
