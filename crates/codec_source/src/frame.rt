//! What a machine still has to do.

use codec_code::Step;

/// The steps of a routine that are left, to the end of its value.
#[derive(Clone, Copy)]
pub struct Frame<'a> {
    pub steps: &'a [Step],
}
