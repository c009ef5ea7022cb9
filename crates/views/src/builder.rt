//! Views are built in the order of the message.

ghost use Rattle.std.specs.Prelude.{◌≡◌, ◌<◌, ◌≤◌, ◌++◌, ◌^◌, ◌∷◌, [], List, None, OnOk, Some, length, ℕ, string_bytes};
ghost use Rattle.views.specs.Building.{Building, Header, IsClosed, Waiting, begun, opened, open_alternative, open_fields, open_list, open_content, with_leaf, with_tree};
ghost use Rattle.views.specs.Nodes.{node, nodes};
ghost use Rattle.views.specs.Seen.{HadBuilt, HasBuilt, IsContentWithin, side_lists, content_of};
ghost use Rattle.views.specs.Tree.{ViewTree, bits, boolean, enumerated, integer, null, octets, oid, relative_oid, text};

use crate::node::{Lists, Node, NodeContent};
use crate::packed_i128::PackedI128;
use crate::room::add_one;
use crate::view::View;
use std::alloc::{AllocError, Global};

/// A view while its message is read, from its first octet on. Each call that adds something fails only if there is not
/// enough memory; then the builder is of no more use. Members are numbered: a component by its place in order of
/// definition, in whatever order components arrive; an element, the value of a CHOICE and the whole by 0. An absent
/// component is left out.
#[derive(Drop)]
pub struct Builder<'a> {
    pub(crate) nodes: Vec<Node<'a>>,
    pub lists: Lists,
    pub(crate) headers: Vec<usize>,
}

/// The number of nodes that a new list has room for.
const FIRST_NODES: usize = 64;

/// A list without nodes, with room for this number of nodes, if there is memory for them.
fn with_room<'a>(alloc: Global, room: usize) -> Vec<Node<'a>>
    ensures { result.items ≡ [] }
{
    match Vec::with_capacity(alloc, room) {
        Ok(nodes) => nodes,
        Err(_) => Vec::new(alloc),
    }
}

/// The number of open nodes that a new list has room for.
const FIRST_OPEN: usize = 16;

/// A list without places, with room for some, if there is memory for them.
fn with_room_for_open(alloc: Global) -> Vec<usize>
    ensures { result.items ≡ [] }
{
    match Vec::with_capacity(alloc, FIRST_OPEN) {
        Ok(places) => places,
        Err(_) => Vec::new(alloc),
    }
}

impl<'a> Builder<'a> {
    /// A builder with nothing in it.
    pub fn new(alloc: Global) -> Self
        ensures { HasBuilt result begun }
    {
        Builder::with_room(alloc, FIRST_NODES)
    }

    /// A builder with nothing in it, with room for this number of nodes if there is memory for them.
    pub fn with_room(alloc: Global, room: usize) -> Self
        ensures { HasBuilt result begun }
    {
        Builder {
            nodes: with_room(alloc, room),
            lists: Lists {
                octets: Vec::new(alloc),
                texts: Vec::new(alloc),
                arcs: Vec::new(alloc),
            },
            headers: with_room_for_open(alloc),
        }
    }

    /// Adds a value of one node.
    #[inline(always)]
    fn add(&mut self, number: u32, content: NodeContent<'a>) -> Result<(), AllocError>
        requires { IsContentWithin (side_lists self.old.lists) content }
        ensures { (b : Building) (t : ViewTree)
            → HasBuilt self.old b
            → nodes number t ≡ node number (content_of (side_lists self.old.lists) content.entry) ∷ []
            → OnOk result (HasBuilt self.new (with_tree number t b)) }
    {
        add_one(&mut self.nodes, Node { number, content })?;
        Ok(())
    }

    /// Adds a BOOLEAN.
    #[inline(always)]
    pub fn push_bool(&mut self, number: u32, truth: bool) -> Result<(), AllocError>
        ensures { (b : Building)
            → HasBuilt self.old b
            → OnOk result (HasBuilt self.new (with_leaf number (boolean truth) b)) }
    {
        self.add(number, NodeContent::Bool(truth))?;
        Ok(())
    }

    /// Adds an INTEGER.
    #[inline(always)]
    pub fn push_int(&mut self, number: u32, value: i128) -> Result<(), AllocError>
        ensures { (b : Building)
            → HasBuilt self.old b
            → OnOk result (HasBuilt self.new (with_leaf number (integer value) b)) }
    {
        self.add(number, NodeContent::Int(PackedI128::of(value)))?;
        Ok(())
    }

    /// Adds an ENUMERATED, by the number of its item.
    pub fn push_enum(&mut self, number: u32, item: i128) -> Result<(), AllocError>
        ensures { (b : Building)
            → HasBuilt self.old b
            → OnOk result (HasBuilt self.new (with_leaf number (enumerated item) b)) }
    {
        self.add(number, NodeContent::Enum(PackedI128::of(item)))?;
        Ok(())
    }

    /// Adds a NULL.
    pub fn push_null(&mut self, number: u32) -> Result<(), AllocError>
        ensures { (b : Building)
            → HasBuilt self.old b
            → OnOk result (HasBuilt self.new (with_leaf number null b)) }
    {
        self.add(number, NodeContent::Null)?;
        Ok(())
    }

    /// Adds an OCTET STRING that is borrowed: its octets, and the place of the first one in the message, from 0.
    pub fn push_octets(&mut self, number: u32, value: &'a [u8], at: usize) -> Result<(), AllocError>
        requires { at < 2 ^ 32 }
        ensures { (b : Building)
            → HasBuilt self.old b
            → OnOk result (HasBuilt self.new (with_leaf number (octets value.now (Some at)) b)) }
    {
        let at = at as u32;
        self.add(number, NodeContent::Octets { at, octets: value })?;
        Ok(())
    }

    /// Adds a BIT STRING that is borrowed. `unused` is how many bits of its last octet are unused; `value` are its
    /// octets after the initial octet (X.690, 8.6.2). `at` is the place of the first of these octets in the message,
    /// from 0.
    pub fn push_bits(
        &mut self,
        number: u32,
        unused: u8,
        value: &'a [u8],
        at: usize,
    ) -> Result<(), AllocError>
        requires small { at < 2 ^ 32 }
        requires few_unused { unused < 8 }
        requires unused_in_octets { length value.now ≡ 0 → unused ≡ 0 }
        ensures { (b : Building)
            → HasBuilt self.old b
            → OnOk result (HasBuilt self.new (with_leaf number (bits unused value.now (Some at)) b)) }
    {
        let at = at as u32;
        self.add(
            number,
            NodeContent::Bits {
                unused,
                at,
                octets: value,
            },
        )?;
        Ok(())
    }

    /// Adds a character string that is borrowed, with the place of its first octet in the message, from 0.
    pub fn push_text(&mut self, number: u32, value: &'a str, at: usize) -> Result<(), AllocError>
        requires { at < 2 ^ 32 }
        ensures { (b : Building)
            → HasBuilt self.old b
            → OnOk result (HasBuilt self.new (with_leaf number (text value.now (Some at)) b)) }
    {
        let at = at as u32;
        self.add(number, NodeContent::Text { at, text: value })?;
        Ok(())
    }

    /// Adds an OCTET STRING whose octets were joined from segments. They are copied.
    pub fn push_joined_octets(&mut self, number: u32, value: &[u8]) -> Result<(), AllocError>
        ensures { (b : Building)
            → HasBuilt self.old b
            → OnOk result (HasBuilt self.new (with_leaf number (octets value.now None) b)) }
    {
        let from = self.lists.add_octets(value)?;
        let to = self.lists.octets.len();
        self.add(number, NodeContent::JoinedOctets { from, to })?;
        Ok(())
    }

    /// Adds a BIT STRING whose octets were joined from segments. They are copied.
    pub fn push_joined_bits(
        &mut self,
        number: u32,
        unused: u8,
        value: &[u8],
    ) -> Result<(), AllocError>
        requires few_unused { unused < 8 }
        requires unused_in_octets { length value.now ≡ 0 → unused ≡ 0 }
        ensures { (b : Building)
            → HasBuilt self.old b
            → OnOk result (HasBuilt self.new (with_leaf number (bits unused value.now None) b)) }
    {
        let from = self.lists.add_octets(value)?;
        let to = self.lists.octets.len();
        self.add(number, NodeContent::JoinedBits { unused, from, to })?;
        Ok(())
    }

    /// Adds a character string that was joined from segments.
    pub fn push_joined_text(&mut self, number: u32, value: String) -> Result<(), AllocError>
        ensures { (b : Building)
            → HasBuilt self.old b
            → OnOk result (HasBuilt self.new (with_leaf number (text (string_bytes value) None) b)) }
    {
        let place = self.lists.add_text(value)?;
        self.add(number, NodeContent::JoinedText(place))?;
        Ok(())
    }

    /// Adds an OBJECT IDENTIFIER, whose numbers were appended to `lists.arcs`: they are those from an index on.
    pub fn push_oid(&mut self, number: u32, from: usize) -> Result<(), AllocError>
        requires { from ≤ length self.old.lists.arcs.items }
        ensures { (b : Building) (before arcs : List ℕ)
            → HadBuilt self.old before b
            → self.old.lists.arcs.items ≡ before ++ arcs
            → from ≡ length before
            → OnOk result (HasBuilt self.new (with_leaf number (oid arcs) b)) }
    {
        let to = self.lists.arcs.len();
        self.add(number, NodeContent::Oid { from, to })?;
        Ok(())
    }

    /// Adds a RELATIVE-OID, whose numbers were appended to `lists.arcs`: they are those from an index on.
    pub fn push_relative_oid(&mut self, number: u32, from: usize) -> Result<(), AllocError>
        requires { from ≤ length self.old.lists.arcs.items }
        ensures { (b : Building) (before arcs : List ℕ)
            → HadBuilt self.old before b
            → self.old.lists.arcs.items ≡ before ++ arcs
            → from ≡ length before
            → OnOk result (HasBuilt self.new (with_leaf number (relative_oid arcs) b)) }
    {
        let to = self.lists.arcs.len();
        self.add(number, NodeContent::RelativeOid { from, to })?;
        Ok(())
    }

    /// Opens a node.
    #[inline(always)]
    fn open(&mut self, number: u32, content: NodeContent<'a>) -> Result<(), AllocError>
        requires { IsContentWithin (side_lists self.old.lists) content }
        ensures { (b : Building) (h : Header)
            → HasBuilt self.old b
            → content_of (side_lists self.old.lists) content.entry ≡ open_content h
            → OnOk result (HasBuilt self.new (opened number h b)) }
    {
        let place = self.nodes.len();
        add_one(&mut self.headers, place)?;
        add_one(&mut self.nodes, Node { number, content })?;
        Ok(())
    }

    /// Opens a SEQUENCE or SET of `size` components: those that are there follow, then `close`.
    #[inline(always)]
    pub fn open_fields(&mut self, number: u32, size: usize) -> Result<(), AllocError>
        ensures { (b : Building) → HasBuilt self.old b
            → OnOk result (HasBuilt self.new (opened number (open_fields size) b)) }
    {
        self.open(number, NodeContent::Fields { size, extent: 0 })?;
        Ok(())
    }

    /// Opens a SEQUENCE OF or SET OF: the elements follow, then `close`.
    #[inline(always)]
    pub fn open_list(&mut self, number: u32) -> Result<(), AllocError>
        ensures { (b : Building) → HasBuilt self.old b → OnOk result (HasBuilt self.new (opened number open_list b)) }
    {
        self.open(number, NodeContent::List { extent: 0 })?;
        Ok(())
    }

    /// Opens a CHOICE by the number of the alternative: its value follows, then `close`.
    #[inline(always)]
    pub fn open_alternative(&mut self, number: u32, index: usize) -> Result<(), AllocError>
        ensures { (b : Building)
            → HasBuilt self.old b
            → OnOk result (HasBuilt self.new (opened number (open_alternative index) b)) }
    {
        self.open(number, NodeContent::Alternative { index, extent: 0 })?;
        Ok(())
    }

    /// Closes the innermost node that is open, with the members that were added since: a CHOICE has just one. The call
    /// takes no memory. If nothing is open, nothing is done.
    pub fn close(&mut self)
        ensures { (b c : Building) (w : Waiting) (ws : List Waiting) (t : ViewTree)
            → HasBuilt self.old b
            → IsClosed b w ws t c
            → HasBuilt self.new c }
    {
        match self.headers.pop() {
            Some(place) => {
                let length = self.nodes.len();
                if place < length {
                    let node = self.nodes[place];
                    let content = node.content.with_extent(length - place);
                    self.nodes[place] = Node {
                        number: node.number,
                        content,
                    };
                }
            }
            None => {}
        }
    }

    /// The view of the one value that was added, as number 0. No node may be open.
    pub fn finish(self) -> View<'a>
        requires { (t : ViewTree) × HasBuilt self (with_tree 0 t begun) }
        ensures { (t : ViewTree) → HasBuilt self.entry (with_tree 0 t begun) → result ≡ t }
    {
        View {
            nodes: self.nodes,
            lists: self.lists,
        }
    }
}
