//! Views, and the values that they show.

ghost use Rattle.asn_base.specs.Abstract.{abstract, row_of_list, row_of_options};
ghost use Rattle.std.specs.Prelude.{◌≡◌, ℕ, IfOk, map, option_map};
ghost use Rattle.views.specs.Seen.{Spell, SpellMembers, side_lists};
ghost use Rattle.views.specs.Rows.{AreAbsent, IsPut};
ghost use Rattle.views.specs.Tree.{ViewMembers, ViewTree, component_value, element_values, placed, value_of};

use crate::leaf::leaf_value;
use crate::node::{Lists, Node, NodeContent};
use crate::node_slices::{below, between, first_of, next_of};
use crate::part::{ValueRef, value_ref};
use asn_base::law::lemma_abstract_values;
use asn_base::list::add;
use asn_base::value::Value;
use std::alloc::{AllocError, Global};
use std::marker::Model;

/// A value that was read from a message. A string that is a slice of the message is borrowed from it.
pub struct View<'a> {
    pub(crate) nodes: Vec<Node<'a>>,
    pub(crate) lists: Lists,
}

impl<'a> Model for View<'a> {
    ghost use Rattle.views.specs.Spelled.{tree_code};
    ghost use Rattle.views.specs.Tree.{ViewTree};

    ghost Value = { ViewTree };

    ghost coded = { tree_code };

    ghost use Rattle.views.specs.Seen.{IsSpelled, side_lists, tree_of};

    ghost view = { λ v. tree_of (side_lists v.lists) v.nodes.items };

    ghost invariant = { λ v. IsSpelled (side_lists v.lists) v.nodes.items };
}

impl<'a> View<'a> {
    /// A reference to the whole value.
    pub fn top(&self) -> ValueRef<'_, 'a>
        ensures { result ≡ self.now }
    {
        value_ref(&self.lists, self.nodes.as_slice())
    }

    /// The value that the view shows, as [`ValueRef::to_value`] makes it.
    pub fn to_value(&self, alloc: Global) -> Result<Value, AllocError>
        ensures { IfOk result (λ v. abstract v ≡ value_of self.now) }
    {
        self.top().to_value(alloc)
    }
}

/// The value of these nodes.
#[cycle(values)]
pub(crate) fn value(alloc: Global, lists: &Lists, nodes: &[Node<'_>]) -> Result<Value, AllocError>
    requires { (k : ℕ) × (t : ViewTree) × Spell (side_lists lists.now) nodes.now k t }
    ensures { (k : ℕ) (t : ViewTree)
        → Spell (side_lists lists.now) nodes.now k t
        → IfOk result (λ v. abstract v ≡ value_of t) }
{
    lemma_abstract_values();
    let content = first_of(lists, nodes);
    let rest = below(nodes);
    match content {
        NodeContent::Fields { size, extent: _ } => Ok(Value::Fields(fields(
            alloc, lists, size, rest,
        )?)),
        NodeContent::List { extent: _ } => Ok(Value::List(elements(alloc, lists, rest)?)),
        NodeContent::Alternative { index, extent: _ } => {
            let inner = value(alloc, lists, rest)?;
            Ok(Value::Alt(index, Box::new(alloc, inner)?))
        }
        other => Ok(leaf_value(alloc, lists, other)?),
    }
}

/// The components of these nodes, in order of definition.
#[cycle(values)]
fn fields(
    alloc: Global,
    lists: &Lists,
    size: usize,
    nodes: &[Node<'_>],
) -> Result<Vec<Option<Value>>, AllocError>
    requires { (ms : ViewMembers) × SpellMembers (side_lists lists.now) nodes.now ms }
    ensures { (ms : ViewMembers)
        → SpellMembers (side_lists lists.now) nodes.now ms
        → IfOk result (λ vs. map (option_map abstract) vs.items ≡ placed size (λ i. component_value ms i)) }
{
    let mut values = absent(alloc, size)?;
    let mut at = 0;
    while at < nodes.len() {
        let (number, end) = next_of(lists, nodes, at);
        let one = value(alloc, lists, between(nodes, at, end))?;
        put(&mut values, number as usize, one);
        at = end;
    }
    Ok(values)
}

/// The elements of these nodes.
#[cycle(values)]
fn elements(alloc: Global, lists: &Lists, nodes: &[Node<'_>]) -> Result<Vec<Value>, AllocError>
    requires { (ms : ViewMembers) × SpellMembers (side_lists lists.now) nodes.now ms }
    ensures { (ms : ViewMembers)
        → SpellMembers (side_lists lists.now) nodes.now ms
        → IfOk result (λ vs. row_of_list (map abstract vs.items) ≡ element_values ms) }
{
    let mut values = Vec::with_capacity(alloc, member_count(lists, nodes))?;
    let mut at = 0;
    while at < nodes.len() {
        let (_, end) = next_of(lists, nodes, at);
        let one = value(alloc, lists, between(nodes, at, end))?;
        add(&mut values, one)?;
        at = end;
    }
    Ok(values)
}

/// How many members these nodes are, so that a list of their values takes no more memory than it needs.
fn member_count(lists: &Lists, nodes: &[Node<'_>]) -> usize
    requires { (ms : ViewMembers) × SpellMembers (side_lists lists.now) nodes.now ms }
{
    let mut count = 0;
    let mut at = 0;
    while at < nodes.len() {
        let (_, end) = next_of(lists, nodes, at);
        count += 1;
        at = end;
    }
    count
}

/// A row of `size` absent components.
fn absent(alloc: Global, size: usize) -> Result<Vec<Option<Value>>, AllocError>
    ensures { IfOk result (λ vs. AreAbsent size vs.items) }
{
    let mut values = Vec::with_capacity(alloc, size)?;
    for i in 0..size {
        add(&mut values, None)?;
    }
    Ok(values)
}

/// Puts a value at the place of the component with the number, if there is such a place and it is still empty.
fn put(values: &mut Vec<Option<Value>>, number: usize, one: Value)
    ensures { IsPut (map (option_map abstract) values.old.items)
        number
        (abstract one)
        (map (option_map abstract) values.new.items) }
{
    if number < values.len() && values[number].is_none() {
        values[number] = Some(one);
    }
}

impl<'a> Drop for View<'a> {
    fn drop(self) {
        let View { nodes: _, lists: _ } = self;
    }
}
