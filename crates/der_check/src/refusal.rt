//! What a judgement needs, and why it refuses octets.

ghost use Rattle.der_check.specs.Strict.{IsMoved, IsOrder, IsSoFar, IsWithFall};
ghost use Rattle.std.specs.Prelude.{IfSome};

use crate::rule::{Breach, RuleOfDer, earlier, moved};
use crate::units::both;
use asn_base::schema::TypeId;
use codec_code::{Code, Step};
use std::alloc::Global;

/// What every step of a judgement needs: where memory is from, and the routines of the types.
#[derive(Clone, Copy)]
pub(crate) struct Judge<'c> {
    pub alloc: Global,
    pub code: &'c Code,
}

/// Where contents are judged: their type, the steps that read them, and how many levels the values in them may have.
#[derive(Clone, Copy)]
pub(crate) struct Site<'c> {
    pub judge: Judge<'c>,
    pub id: TypeId,
    pub steps: &'c [Step],
    pub levels: u8,
}

/// Why octets are refused: they break a rule, or there is not enough memory to compare a component with its DEFAULT.
#[derive(Clone, Copy)]
pub(crate) enum Refusal {
    Broken(Breach),
    Memory,
}

/// The breach of octets that encode no value of the type, of which nothing is promised.
pub(crate) const NO_VALUE: Breach = Breach {
    rule: RuleOfDer::FewestLengthOctets,
    offset: 0,
};

/// The same refusal of octets that start at some distance in others.
pub(crate) fn at_distance(refusal: Refusal, distance: usize) -> Refusal
    ensures { IsMoved distance refusal result }
{
    match refusal {
        Refusal::Broken(breach) => Refusal::Broken(moved(breach, distance)),
        Refusal::Memory => Refusal::Memory,
    }
}

/// Whether there are no other encodings among those of a SET's components, and the breach of their order, if they are
/// out of order.
pub(crate) fn order_of(climbed: Result<bool, usize>) -> (bool, Option<Breach>)
    ensures { IsOrder climbed result.0 result.1 }
{
    match climbed {
        Ok(none_else) => (none_else, None),
        Err(offset) => (
            false,
            Some(Breach {
                rule: RuleOfDer::OrderOfTags,
                offset,
            }),
        ),
    }
}

/// Whether no additions were skipped so far, and the first breach of components that are judged one after the other,
/// after one more. None if there was not enough memory to judge that one.
pub(crate) fn so_far(
    whole: bool,
    breach: Option<Breach>,
    judged: Result<bool, Refusal>,
) -> Option<(bool, Option<Breach>)>
    ensures { IfSome result (λ r. IsSoFar whole breach judged r.0 r.1) }
{
    match judged {
        Ok(part) => Some((both(whole, part), breach)),
        Err(Refusal::Broken(other)) => Some((whole, Some(earlier(breach, other)))),
        Err(Refusal::Memory) => None,
    }
}

/// The refusal of elements of which one is out of order, at an offset, after they were judged one by one.
pub(crate) fn with_fall(offset: usize, judged: Result<bool, Refusal>) -> Refusal
    ensures { IsWithFall offset judged result }
{
    let fall = Breach {
        rule: RuleOfDer::OrderOfElements,
        offset,
    };
    match judged {
        Ok(_) => Refusal::Broken(fall),
        Err(Refusal::Broken(other)) => Refusal::Broken(earlier(Some(fall), other)),
        Err(Refusal::Memory) => Refusal::Memory,
    }
}
