//! The backend of a machine: it receives the events of a routine.

ghost use Rattle.asn_base.specs.Abstract.{abstract};
ghost use Rattle.codec_code.specs.Events.{Event, opens, closes, leaves_out, ends_member};
ghost use Rattle.codec_code.specs.declared.step.RowKind.TheVariants.{Leaf as LeafRow, Sequence as SequenceRow};
ghost use Rattle.codec_machine.specs.Frames.{AddsLeaf, AddsWhole, HasNoContents};
ghost use Rattle.codec_machine.specs.OpenRows.{Carries};
ghost use Rattle.codec_machine.specs.declared.fault.RunFault.TheVariants.{NotOfType};
ghost use Rattle.codec_machine.specs.declared.open_row.OpenRow.{OpenRow as OpenRow'};
ghost use Rattle.std.specs.Prelude.{◌≡◌, List, [], ◌∷◌, ◌++◌, IfErr, IfOk, OnOk};

use crate::fault::RunFault;
use crate::open_row::OpenRow;
use asn_base::tag::Tag;
use asn_base::value::Value;
use codec_code::Head;
use encodings::LeafKind;
use std::alloc::AllocError;

/// Takes the events of a routine, one after another. Each backend decides what its states mean, and it may keep the
/// values whose contents it received. It fails only if an allocation fails, or if a value has no contents of the kind.
pub trait Backend<'a> {
    /// The second state is the first one with these events added.
    ghost adds: { Self → List Event → Self → Type 0 };

    /// Opens a header around what follows, up to the event that closes it. `AllocError` only if an allocation fails.
    fn open(&mut self, head: Head) -> Result<(), AllocError>
        ensures { OnOk result (adds self.old (opens head.tag head.constructed head.row ∷ []) self.new) };

    /// Adds the contents of a value without other values in it. `NotOfType`: the value has no contents of this kind.
    /// `Memory`: an allocation failed.
    fn leaf(&mut self, kind: LeafKind, value: &'a Value) -> Result<(), RunFault>
        ensures ok { OnOk result (AddsLeaf adds kind (abstract value.now) self.old self.new) }
        ensures not_of_type { IfErr result (λ e. e ≡ NotOfType → HasNoContents kind (abstract value.now)) };

    /// Adds a header, the contents of a value without other values in it, and the end of the header. `NotOfType`: the
    /// value has no contents of this kind. `Memory`: an allocation failed.
    fn whole(&mut self, head: Head, kind: LeafKind, value: &'a Value) -> Result<(), RunFault>
        requires { head.row ≡ LeafRow }
        ensures ok { OnOk result (AddsWhole adds head kind (abstract value.now) self.old self.new) }
        ensures not_of_type { IfErr result (λ e. e ≡ NotOfType → HasNoContents kind (abstract value.now)) };

    /// Closes the innermost open header. `AllocError` only if an allocation fails.
    fn close(&mut self) -> Result<(), AllocError>
        ensures { OnOk result (adds self.old (closes ∷ []) self.new) };

    /// Adds that a component isn't encoded: its value is the same as its DEFAULT, or it is absent and has no DEFAULT.
    /// `AllocError` only if an allocation fails.
    fn leave_out(&mut self, with_default: bool) -> Result<(), AllocError>
        ensures { OnOk result (adds self.old (leaves_out with_default ∷ []) self.new) };

    /// Ends a member of a SET OF, whose rank is 0, or a component of a SET. `AllocError` only if an allocation fails.
    fn part(&mut self, rank: usize) -> Result<(), AllocError>
        ensures { OnOk result (adds self.old (ends_member rank ∷ []) self.new) };

    /// The second state, with this row open in it, is the first one with these events added.
    ghost opened: { Self → List Event → OpenRow' → Self → Type 0 };

    /// Opens the header of a SEQUENCE apart from the open headers. `AllocError` only if an allocation fails.
    fn open_row(&mut self, tag: Tag, constructed: bool) -> Result<OpenRow, AllocError>
        ensures { IfOk result (λ row. opened self.old (opens tag constructed SequenceRow ∷ []) row self.new) };

    /// Does what `whole` does, within the open row.
    fn whole_in_row(
        &mut self,
        row: OpenRow,
        head: Head,
        kind: LeafKind,
        value: &'a Value,
    ) -> Result<(), RunFault>
        requires { head.row ≡ LeafRow }
        ensures ok { OnOk result
            (AddsWhole (Carries opened row) head kind (abstract value.now) self.old self.new) }
        ensures not_of_type { IfErr result (λ e. e ≡ NotOfType → HasNoContents kind (abstract value.now)) };

    /// Does what `leave_out` does, within the open row.
    fn leave_out_in_row(&mut self, row: OpenRow, with_default: bool) -> Result<(), AllocError>
        ensures { OnOk result (Carries opened row self.old (leaves_out with_default ∷ []) self.new) };

    /// Closes the row. `AllocError` only if an allocation fails.
    fn close_row(&mut self, row: OpenRow) -> Result<(), AllocError>
        ensures { OnOk result ((a : Self) (es : List Event)
            → opened a es row self.old → adds a (es ++ closes ∷ []) self.new) };

    /// Makes the header of the row the innermost open header. `AllocError` only if an allocation fails.
    fn keep_row(&mut self, row: OpenRow) -> Result<(), AllocError>
        ensures { OnOk result ((a : Self) (es : List Event) → opened a es row self.old → adds a es self.new) };

    /// A state to which no events are added is the same state.
    ghost nothing: { (a : Self) → adds a [] a };

    /// Events that are added in two parts are added together.
    ghost joins: { (a b c : Self) (es fs : List Event) → adds a es b → adds b fs c → adds a (es ++ fs) c };
}
