//! Where reading stops in a message.

/// Where reading stops in a message.
#[derive(Clone, Copy)]
pub struct Site {
    /// The offset of the octet, from 0.
    pub at: usize,
    /// The number of headers that the octet is within, if it is in contents octets, or at their end, and none of the
    /// parts of their value can begin there. None at a header of the part that was being read itself.
    pub levels: Option<usize>,
}
