//! The rows of an account.

ghost use Rattle.std.specs.Prelude.{◌≡◌, IfOk};

use std::alloc::{AllocError, Global};

/// The numbers of a header: how many identifier octets and how many length octets it has, and how many contents octets
/// it announces. Each is at most 16,777,216.
#[derive(Clone, Copy, Debug, PartialEq, Eq)]
pub struct Numbers {
    pub identifier: u32,
    pub size: u32,
    pub contents: u32,
}

/// The members of a SET or SET OF. `members` is the number of rows that follow, in the order of definition or of the
/// value. `places` has the place of each encoded member in the octets, from 0. `inverse` has for each place the number
/// of its member.
pub struct Places {
    pub members: u32,
    pub places: Vec<u32>,
    pub inverse: Vec<u32>,
    /// For each place how many octets there are up to the end of its member. An account fills this list as a help for
    /// readers, and it is no part of what the account says. A reader that uses it must check that it is right.
    pub ends: Vec<u32>,
}

impl Places {
    /// The members at these places, whose ends aren't known yet. `AllocError` only if an allocation fails.
    pub fn of(
        alloc: Global,
        members: u32,
        places: Vec<u32>,
        inverse: Vec<u32>,
    ) -> Result<Box<Self>, AllocError>
        ensures members { IfOk result (λ b. b.value.members ≡ members) }
        ensures places { IfOk result (λ b. b.value.places.items ≡ places.items) }
        ensures inverse { IfOk result (λ b. b.value.inverse.items ≡ inverse.items) }
    {
        let ends = inverse.clone()?;
        let found = Places {
            members,
            places,
            inverse,
            ends,
        };
        Ok(Box::new(alloc, found)?)
    }
}

/// One row of an account. Each row comes before those of its members.
#[derive(Drop)]
pub enum RowLayout {
    /// A value without other values in it.
    Leaf(Numbers),
    /// An explicit tag. One row, with the rows in it, follows.
    Wrap(Numbers),
    /// A SEQUENCE, and how many members follow in the order of definition.
    Seq(Numbers, u32),
    /// A SEQUENCE OF, and how many members follow in the order of the value.
    SeqOf(Numbers, u32),
    /// A SET.
    Set(Numbers, Box<Places>),
    /// A SET OF.
    SetOf(Numbers, Box<Places>),
    /// A component without a DEFAULT, which is absent.
    Absent,
    /// A component that is left out because its value is the same as its DEFAULT.
    Default,
}

/// A row in an account.
#[derive(Drop)]
pub struct Row {
    pub listed: RowLayout,
    /// How many rows the member has that begins with this row. It is 0 in rows with members if it isn't known yet; an
    /// account sets it then.
    pub(crate) span: u32,
}

/// How many rows begin with this one: 1 if no rows are in it, or else 0, since the number isn't known yet.
#[inline(always)]
fn first_span(listed: &RowLayout) -> u32 {
    match listed {
        RowLayout::Leaf(_) | RowLayout::Absent | RowLayout::Default => 1,
        RowLayout::Wrap(_) | RowLayout::Seq(_, _) | RowLayout::SeqOf(_, _) => 0,
        RowLayout::Set(_, _) | RowLayout::SetOf(_, _) => 0,
    }
}

impl Row {
    /// The row with this content.
    #[inline(always)]
    pub fn of(listed: RowLayout) -> Self
        ensures { result.listed ≡ listed }
    {
        let span = first_span(&listed);
        Row { listed, span }
    }

    /// The row with this content, where its member has so many rows, this one included. The number is a help for
    /// readers, and it is no part of what the account says. With 0 the account finds it.
    #[inline(always)]
    pub fn spanning(listed: RowLayout, span: u32) -> Self
        ensures { result.listed ≡ listed }
    {
        Row { listed, span }
    }
}

impl Drop for Places {
    fn drop(self) {
        let Places {
            members: _,
            places: _,
            inverse: _,
            ends: _,
        } = self;
    }
}
