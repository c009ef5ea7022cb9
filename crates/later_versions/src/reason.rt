//! Where a type is no later version of another one, and why.

use asn_base::schema::TypeId;

/// Why a type is no later version of another one: the first condition that fails. The order is that of the variants.
/// Places are from 0.
#[derive(Clone, Copy)]
pub enum Reason {
    /// The tags differ (X.680, 8).
    Tags,
    /// The kinds differ. BIT STRINGs with and without named bits are of two kinds, and so are strings of two types.
    Kind,
    /// Other numbers are allowed (X.680, 51).
    Numbers,
    /// Other characters are allowed.
    Alphabet,
    /// Other sizes are allowed.
    Sizes,
    /// The same numbers or sizes are allowed, but the packed encoding uses other bounds (X.691, 10.3).
    Bounds,
    /// Other bits have names, or other names (X.680, 22).
    NamedBits,
    /// The extension marker is in one of both alone.
    Marker,
    /// The items or alternatives of the root differ at this place, or one root ends there. Items are in order of
    /// number.
    Root(usize),
    /// The addition of an ENUMERATED or a CHOICE at this place, counted from the marker, is missing or another one.
    Addition(usize),
    /// The component at this place is missing.
    Removed(usize),
    /// The component at this place has another name.
    Name(usize),
    /// The component at this place isn't in both mandatory, OPTIONAL, with a DEFAULT, or an addition.
    Presence(usize),
    /// The component at this place has another default.
    Default(usize),
    /// The component at this place, after those of the older version, isn't an extension addition.
    Appended(usize),
    /// The component at this place is in other version brackets. If it comes after those of the older version, it is in
    /// brackets with one of them.
    Brackets(usize),
}

/// Where two types differ first, and why the newer type there is no later version of the older one. Places of members
/// of the two go before those of members of members, and those in front before those after them.
#[derive(Drop)]
pub struct Difference {
    /// The places of members that lead there from both types, from 0: of components, of alternatives over both lists,
    /// and 0 for elements.
    pub places: Vec<usize>,
    /// The type of the older schema to which the places lead.
    pub older: TypeId,
    /// The type of the newer schema to which they lead.
    pub newer: TypeId,
    /// Why the newer one isn't a later version of the older one.
    pub reason: Reason,
}

/// Whether a type is a later version of another one.
#[derive(Drop)]
pub enum Comparison {
    /// It is a later version.
    Later,
    /// It is none: here both differ.
    Differs(Difference),
}

/// Whether a type is a later version of another one, in words.
#[derive(Drop)]
pub enum Explained {
    /// It is a later version.
    Later,
    /// It is none: here both differ. The text says where and why, with the names of components.
    Differs(Difference, String),
}
