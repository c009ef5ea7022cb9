//! How a value is given.

/// A value that a caller gives, by its name or by the text of a notation.
#[derive(Clone, Copy)]
pub enum ValueGiven<'a> {
    /// The value's name as `Module.name`, by the module that assigns or imports it.
    Named(&'a str),
    /// The octets of a text that is a notation of the value (X.680, clause 17). Its names are read in the module that
    /// the name of the type begins with.
    Written(&'a [u8]),
}
