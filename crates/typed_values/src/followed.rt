//! A notation before and after its references.

ghost use Rattle.std.specs.Prelude.{◌≡◌};

use crate::fault::ValueSite;
use resolve::NamedShape;
use trees::ValueSyntax;

/// A notation under a type, before its references.
#[derive(Clone, Copy)]
pub(crate) struct Unfollowed<'r, 'a> {
    pub(crate) at: ValueSite<'a>,
    /// The shape of the type after its references and tags, with the names that it lists.
    pub(crate) shape: &'r NamedShape<'r>,
    /// How many levels are left for the notation.
    pub(crate) levels: u8,
    /// How many nodes are left.
    pub(crate) nodes: u32,
}

impl<'r, 'a> Unfollowed<'r, 'a> {
    /// The name of the module in which the notation is read.
    pub(crate) fn within(&self) -> &'a str
        ensures { result.now ≡ self.now.at.within.now }
    {
        self.at.within
    }
}

/// A notation under a type, after its references.
#[derive(Clone, Copy)]
pub(crate) struct Followed<'a> {
    /// The notation before its references, and its type.
    pub(crate) at: ValueSite<'a>,
    /// How many levels are left for the notation's parts.
    pub(crate) levels: u8,
    /// The name of the module in which the type is written, after its references and tags.
    pub(crate) home: &'a str,
    /// The name of the module in which the last notation is read.
    pub(crate) within: &'a str,
    /// The notation to which the references lead.
    pub(crate) last: &'a ValueSyntax,
}

/// A notation to which references lead.
#[derive(Clone, Copy)]
pub(crate) struct LastNotation<'a> {
    /// The name of the module in which the notation is read.
    pub(crate) within: &'a str,
    pub(crate) notation: &'a ValueSyntax,
}
