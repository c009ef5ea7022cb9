//! What the references of a notation lead to.

ghost use Rattle.std.specs.Prelude.{◌≡◌, ◌≤◌, ◌<◌, ◌++◌, ℕ, List, true, IfOk, IfErr, IfSome, OnOk, length};
ghost use Rattle.asn_base.specs.Abstract.{AbstractValue};
ghost use Rattle.names.specs.Modules.{OccursIn};
ghost use Rattle.type_table.specs.Seen.{kind_of};
ghost use Rattle.typed_values.specs.Chains.{HasTurn};
ghost use Rattle.typed_values.specs.Known.{AreKnown};
ghost use Rattle.typed_values.specs.proving.Reading.{CanStandFor, IsFollowFaultAt, IsLed};

use crate::chained::Reached;
use crate::followed::Unfollowed;
use crate::levels::Defaults;
use crate::named::{NamedValue, UNREAD};
use crate::outcome::Outcome;
use trees::ValueSyntax;
use value_notations::opened::Opened;
use value_notations::references::{FollowFault, Next, next_of, notation_at};
use values::constraints::Bounded;

/// What the references of a notation lead to.
pub(crate) enum Led<'a, O> {
    /// A named value that the table knows, and an outcome for any value.
    Known(NamedValue, O),
    /// This notation, which is read in this module and is no reference.
    Last(&'a str, &'a ValueSyntax),
}

/// Whether each of the values that are being read has a turn after `latest`.
fn are_later(defaults: &Defaults, opened: &Opened, latest: u32) -> bool
    ensures { result ≡ true → (x t : ℕ) → OccursIn opened.now x → HasTurn defaults.now.named.turns.items x t
        → latest < t }
{
    latest < UNREAD && opened.are_later(defaults.named.turns(), latest)
}

/// What a value assignment comes to under a type, if the table says so, its levels and nodes are left, and none of the
/// values that are being read is one to which its notation leads.
fn known(
    bounded: &Bounded<'_>,
    defaults: &Defaults,
    opened: &Opened,
    unfollowed: &Unfollowed<'_, '_>,
    reached: Reached,
) -> Option<NamedValue>
    requires there { unfollowed.now.at.ty.index < length bounded.now.program.types }
    requires known { AreKnown bounded.now.program defaults.now }
    ensures { IfSome result (CanStandFor bounded.now.program defaults.now.named.turns.items opened.now
        unfollowed.now.levels unfollowed.now.nodes unfollowed.now.at.ty.index reached.number) }
{
    let Some(entry) = defaults.entry_on_way(bounded, opened, unfollowed.at.ty, reached) else {
        return None;
    };
    if entry.levels <= unfollowed.levels
        && entry.nodes <= unfollowed.nodes
        && are_later(defaults, opened, entry.latest)
    {
        Some(entry)
    } else {
        None
    }
}

/// What the references of a notation lead to (X.680, clauses 14, 17.11, 19.10 and 20.8): a named value that the table
/// knows, if no value is built, or the first notation that is no name, or that is the name of a number or an item of
/// the type. The shape is no reference and no tag. `opened` are the values that are being read; those whose notations
/// are passed are added to it.
///
/// `NoMeaning`: a name means neither something of the type nor a value. `Circular`: a name means a value that is being
/// read already. `Memory`: there is not enough memory.
pub(crate) fn lead<'a, O: Outcome>(
    bounded: &Bounded<'a>,
    defaults: &Defaults,
    opened: &mut Opened,
    unfollowed: &Unfollowed<'_, 'a>,
) -> Result<Led<'a, O>, FollowFault<'a>>
    requires there { unfollowed.now.at.ty.index < length bounded.now.program.types }
    requires known { AreKnown bounded.now.program defaults.now }
    ensures led { IfOk result (IsLed O.shows bounded.now defaults.now.named.turns.items unfollowed.now.levels
        unfollowed.now.nodes (kind_of unfollowed.now.shape.now) opened.old unfollowed.now.at.within.now
        unfollowed.now.at.ty.index unfollowed.now.at.notation.now opened.new) }
    ensures fault { IfErr result (IsFollowFaultAt bounded.now (kind_of unfollowed.now.shape.now) opened.old
        unfollowed.now.at.within.now unfollowed.now.at.notation.now) }
    ensures grown { OnOk result ((xs : List ℕ) × (opened.new ≡ xs ++ opened.old)) }
{
    let linked = bounded.linked();
    let count = linked.values().len();
    let mut module = unfollowed.within();
    let mut at = unfollowed.at.notation;
    for step in 0..count + 1 {
        match next_of(linked, opened, unfollowed.shape, module, at) {
            Next::Itself => return Ok(Led::Last(module, at)),
            Next::Nothing => return Err(FollowFault::NoMeaning(module, at)),
            Next::Again(number) => return Err(FollowFault::Circular(number, module, at)),
            Next::Referred(number) => {
                if let Some(outcome) = O::unbuilt() {
                    let reached = Reached {
                        number,
                        is_searched: defaults.is_search_step(unfollowed.shape.shape(), step),
                    };
                    if let Some(entry) = known(bounded, defaults, opened, unfollowed, reached) {
                        return Ok(Led::Known(entry, outcome));
                    }
                }
                match opened.open(number) {
                    Ok(()) => {}
                    Err(_) => return Err(FollowFault::Memory),
                }
                let (home, target) = notation_at(linked, number);
                module = home;
                at = target;
            }
        }
    }
    Err(FollowFault::NoMeaning(module, at))
}
