//! Parts of values.

/// A part of a value that holds other values, by its number from 0. It is a component in order of definition, an
/// element, or an alternative, where those of the root and then the additions are counted.
#[derive(Clone, Copy, PartialEq, Eq, Debug)]
pub enum Part {
    Component(usize),
    Element(usize),
    Alternative(usize),
}
