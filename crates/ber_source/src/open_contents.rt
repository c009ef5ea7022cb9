//! The part of contents octets that isn't read yet.

use octets::Form;

/// The contents octets, constructed or not, that aren't read yet, with the offset in the message, from 0, of the first
/// of them. `from` is the number of components that were read of the SETs around them.
#[derive(Clone, Copy)]
pub struct OpenContents<'a> {
    pub form: Form,
    pub octets: &'a [u8],
    pub at: usize,
    pub from: usize,
}
