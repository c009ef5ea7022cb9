//! The limits of texts, schemas, values and messages, each written once. Contracts have the limits as numbers in
//! digits, so that a reader sees them there. What passes a limit is refused with a fault of its own, and never cut off.

#![tactic(auto)]

// ---- texts

/// The most octets that a module's text may have.
pub const MAX_TEXT: usize = 16_777_216;
/// The limit on written numbers: after a minus sign a number may be as great as this, and elsewhere it is below this.
pub const MAX_NUMBER: u128 = 1 << 127;
/// The most open braces, tags, list types and values of alternatives that may be nested in each other. Parentheses and
/// version brackets aren't counted.
pub const MAX_NESTING: usize = 128;

// ---- names and written types

/// The most modules in a set.
pub const MAX_MODULES: usize = 256;
/// The most types that all modules together may assign.
pub const MAX_TYPES: usize = 4096;
/// The most values that all modules together may assign.
pub const MAX_VALUES: usize = 65536;
/// The most types that may be written, those inside others counted too.
pub const MAX_WRITTEN: usize = 65536;
/// The most members in the root of a SEQUENCE, SET or CHOICE.
pub const MAX_MEMBERS: usize = 256;
/// The most items in the root of an enumeration.
pub const MAX_ITEMS: usize = 1024;
/// The most additions after the marker of a list or an enumeration, those in version brackets counted too.
pub const MAX_ADDITIONS: usize = 64;

// ---- tags

/// The most tags that may be written on one type, through references; its own universal tag is not counted.
pub const MAX_TAGS: usize = 4;
/// Every written tag number is below this one.
pub const TAG_NUMBERS: u128 = 1 << 31;
/// Every automatic tag number is below this one, which is the same number as `TAG_NUMBERS`.
pub const AUTOMATIC_NUMBERS: usize = 2_147_483_648;

// ---- values

/// The most nodes that a value may have.
pub const MAX_NODES: u32 = 16_777_216;
/// The most levels that a value may have.
pub const MAX_LEVELS: u8 = 64;
/// The most values that may be nested in each other in a message, which is the same number as `MAX_LEVELS`.
pub const MAX_OPEN: usize = 64;
/// The most numbers that an object identifier may have.
pub const MAX_ARCS: usize = 64;

// ---- encodings

/// The most octets that an encoding, or a message that is read, may have.
pub const MAX_MESSAGE: usize = 16_777_216;
/// The most octets that length octets may promise, which is the same number as `MAX_MESSAGE`.
pub const MAX_LENGTH: u64 = 16_777_216;
/// The most headers that may be nested in each other in a message.
pub const MAX_HEADERS: usize = 400;
