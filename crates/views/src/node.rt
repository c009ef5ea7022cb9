//! Nodes of a view, and the lists beside the nodes.

ghost use Rattle.std.specs.Prelude.{◌≡◌, ◌<◌, ◌++◌, ◌∷◌, [], length, get_or, map, IfOk, string_bytes};
ghost use Rattle.views.specs.Nodes.{extent as extent', with_extent};
ghost use Rattle.views.specs.Seen.{SideLists, IsContentWithin, IsWithin, content_of};
ghost use Rattle.std.specs.List.{slice_range};

use crate::packed_i128::PackedI128;
use std::alloc::AllocError;

/// What a node says. A string is a slice of the message with its place, or an entry of the lists beside the nodes if it
/// was joined from segments. `extent` is how many nodes it is with all below it, which come right after it.
#[derive(Clone, Copy)]
pub(crate) enum NodeContent<'a> {
    Bool(bool),
    Int(PackedI128),
    Enum(PackedI128),
    Bits {
        unused: u8,
        at: u32,
        octets: &'a [u8],
    },
    JoinedBits {
        unused: u8,
        from: usize,
        to: usize,
    },
    Octets {
        at: u32,
        octets: &'a [u8],
    },
    JoinedOctets {
        from: usize,
        to: usize,
    },
    Text {
        at: u32,
        text: &'a str,
    },
    JoinedText(usize),
    Null,
    Oid {
        from: usize,
        to: usize,
    },
    RelativeOid {
        from: usize,
        to: usize,
    },
    Fields {
        size: usize,
        extent: usize,
    },
    List {
        extent: usize,
    },
    Alternative {
        index: usize,
        extent: usize,
    },
}

/// A node, with the number of the component that it is, or 0 if it is no component.
#[derive(Clone, Copy)]
pub(crate) struct Node<'a> {
    pub number: u32,
    pub content: NodeContent<'a>,
}

/// A node takes 32 octets.
const _: () = prove!(size_of::<Node<'static>>() == 32);

/// The lists beside the nodes: octets and texts joined from segments, and the numbers of object identifiers.
pub struct Lists {
    pub(crate) octets: Vec<u8>,
    pub(crate) texts: Vec<String>,
    pub arcs: Vec<u64>,
}

impl<'a> NodeContent<'a> {
    /// How many nodes it is with all below it.
    pub(crate) fn extent(self) -> usize
        ensures { (b : SideLists) → result ≡ extent' (content_of b self.entry) }
    {
        match self {
            NodeContent::Fields { size: _, extent } => extent,
            NodeContent::List { extent } => extent,
            NodeContent::Alternative { index: _, extent } => extent,
            _ => 1,
        }
    }

    /// The same with this extent. A leaf stays as it is.
    pub(crate) fn with_extent(self, extent: usize) -> NodeContent<'a>
        ensures content { (b : SideLists) → content_of b result ≡ with_extent (content_of b self.entry) extent }
        ensures within { (b : SideLists) → IsContentWithin b self.entry → IsContentWithin b result }
    {
        match self {
            NodeContent::Fields { size, extent: _ } => NodeContent::Fields { size, extent },
            NodeContent::List { extent: _ } => NodeContent::List { extent },
            NodeContent::Alternative { index, extent: _ } => NodeContent::Alternative {
                index,
                extent,
            },
            other => other,
        }
    }
}

impl Lists {
    /// Adds octets, and returns the index of the first one.
    pub(crate) fn add_octets(&mut self, octets: &[u8]) -> Result<usize, AllocError>
        ensures from { IfOk result (λ n. n ≡ length self.old.octets.items) }
        ensures added { IfOk result (λ _. self.new.octets.items ≡ self.old.octets.items ++ octets.now) }
        ensures texts { self.new.texts.items ≡ self.old.texts.items }
        ensures arcs { self.new.arcs.items ≡ self.old.arcs.items }
    {
        let from = self.octets.len();
        self.octets.extend_from_slice(octets)?;
        Ok(from)
    }

    /// Adds a text, and returns its index.
    pub(crate) fn add_text(&mut self, text: String) -> Result<usize, AllocError>
        ensures from { IfOk result (λ n. n ≡ length self.old.texts.items) }
        ensures added { IfOk result (λ _. self.new.texts.items ≡ self.old.texts.items ++ text ∷ []) }
        ensures octets { self.new.octets.items ≡ self.old.octets.items }
        ensures arcs { self.new.arcs.items ≡ self.old.arcs.items }
    {
        let from = self.texts.len();
        self.texts.push(text)?;
        Ok(from)
    }

    /// The octets from one index up to another one.
    pub(crate) fn octets_in(&self, from: usize, to: usize) -> &[u8]
        requires { IsWithin from to (length self.now.octets.items) }
        ensures { result.now ≡ slice_range self.now.octets.items from to }
    {
        &self.octets[from..to]
    }

    /// The numbers from one index up to another one.
    pub(crate) fn arcs_in(&self, from: usize, to: usize) -> &[u64]
        requires { IsWithin from to (length self.now.arcs.items) }
        ensures { result.now ≡ slice_range self.now.arcs.items from to }
    {
        &self.arcs[from..to]
    }

    /// The text at an index.
    pub(crate) fn text_at(&self, place: usize) -> &str
        requires { place < length (map string_bytes self.now.texts.items) }
        ensures { result.now ≡ get_or (map string_bytes self.now.texts.items) place [] }
    {
        self.texts[place].as_str()
    }
}

impl Drop for Lists {
    fn drop(self) {
        let Lists {
            octets: _,
            texts: _,
            arcs: _,
        } = self;
    }
}
