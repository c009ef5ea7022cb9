//! Contents of kinds that hold no others.

ghost use Rattle.asn_base.specs.Abstract.{AbstractValue};
ghost use Rattle.encodings.specs.Leaves.{plain};
ghost use Rattle.encodings.specs.declared.leaf_kind.LeafKind.{LeafKind as LeafKind'};
ghost use Rattle.codec_code.specs.declared.step.Step.{Step as Step'};
ghost use Rattle.codec_code.specs.declared.step.Step.TheVariants.{Leaf};
ghost use Rattle.encodings.specs.Contents.{Contents};
ghost use Rattle.encodings.specs.Rules.{Basic, Distinguished};
ghost use Rattle.std.specs.Prelude.{◌≡◌, ◌↔◌, ◌∷◌, IsTrue, List, Some as Some', false, length, ◌-◌};
ghost use Rattle.der_check.specs.Strict.{PrimitiveBreaksBy};

use crate::refusal::NO_VALUE;
use crate::rule::{Breach, RuleOfDer};
use codec_code::Step;
use encodings::LeafKind;
use primitive_reader::is_distinguished;

/// The kind of contents that the steps begin with.
#[inline(always)]
fn leaf_of(steps: &[Step]) -> Option<LeafKind>
    ensures { (k : LeafKind') (ss : List Step') → steps.now ≡ Leaf k ∷ ss → result ≡ Some' k }
{
    match steps.split_first() {
        Some((Step::Leaf(kind), _)) => Some(*kind),
        _ => None,
    }
}

/// Whether primitive contents of the kind that the steps begin with fulfil the distinguished rules, if they fulfil the
/// basic ones.
#[inline(always)]
pub(crate) fn is_strict_leaf(steps: &[Step], contents: &[u8]) -> bool
    ensures { (k : LeafKind') (ss : List Step') (v : AbstractValue)
        → steps.now ≡ Leaf k ∷ ss
        → Contents Basic (plain k) v false contents.now
        → IsTrue result ↔ Contents Distinguished (plain k) v false contents.now }
{
    match leaf_of(steps) {
        Some(kind) => is_distinguished(kind, contents),
        None => false,
    }
}

/// The breach of contents that end in bits which break a rule.
fn at_last(rule: RuleOfDer, contents: &[u8]) -> Breach
    ensures { result ≡ record { rule = rule; offset = length contents.now - 1 } }
{
    Breach {
        rule,
        offset: contents.len().saturating_sub(1),
    }
}

/// The rule that primitive contents of a kind break, if they fulfil the basic rules and not the distinguished ones.
fn breach_of(kind: LeafKind, contents: &[u8]) -> Breach
    ensures { (v : AbstractValue)
        → Contents Basic (plain kind) v false contents.now
        → (Contents Distinguished (plain kind) v false contents.now → ⊥)
        → PrimitiveBreaksBy (plain kind) v contents.now result }
{
    match kind {
        LeafKind::Boolean => Breach {
            rule: RuleOfDer::AllBitsOfTrue,
            offset: 0,
        },
        LeafKind::BitString => at_last(RuleOfDer::ZerosAsUnusedBits, contents),
        LeafKind::NamedBits => {
            if is_distinguished(LeafKind::BitString, contents) {
                at_last(RuleOfDer::LastNamedBit, contents)
            } else {
                at_last(RuleOfDer::ZerosAsUnusedBits, contents)
            }
        }
        LeafKind::Integer => NO_VALUE,
        LeafKind::Enumerated => NO_VALUE,
        LeafKind::OctetString => NO_VALUE,
        LeafKind::Null => NO_VALUE,
        LeafKind::ObjectIdentifier => NO_VALUE,
        LeafKind::RelativeOid => NO_VALUE,
        LeafKind::Utf8String => NO_VALUE,
        LeafKind::RestrictedString(_) => NO_VALUE,
    }
}

/// The rule that primitive contents of the kind that the steps begin with break, if they fulfil the basic rules and not
/// the distinguished ones.
pub(crate) fn leaf_breach(steps: &[Step], contents: &[u8]) -> Breach
    ensures { (k : LeafKind') (ss : List Step') (v : AbstractValue)
        → steps.now ≡ Leaf k ∷ ss
        → Contents Basic (plain k) v false contents.now
        → (Contents Distinguished (plain k) v false contents.now → ⊥)
        → PrimitiveBreaksBy (plain k) v contents.now result }
{
    match leaf_of(steps) {
        Some(kind) => breach_of(kind, contents),
        None => NO_VALUE,
    }
}
