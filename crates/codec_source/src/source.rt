//! The source from which a machine reads.

ghost use Rattle.asn_base.specs.declared.schema.TypeId.{TypeId as TypeId'};
ghost use Rattle.codec_source.specs.Events.{Alike, Event, among, begins, closes, ends, holds, more, opens, picks, skips, comes};
ghost use Rattle.codec_source.specs.Events.{Question, to_begin, to_close, to_end, to_hold, to_open, to_skip, whether_more, whether_comes, which_picked, which_comes};
ghost use Rattle.decode_faults.specs.declared.read_fault.ReadFault.{ReadFault as ReadFault'};
ghost use Rattle.codec_code.specs.Routines.{routine_at};
ghost use Rattle.codec_source.specs.Small.{TakesChoice, TakesChoiceComponent, TakesComponent, TakesElement, TakesValue};
ghost use Rattle.codec_source.specs.proving.Frames.{IfRefused, IfRefusedWith};
ghost use Rattle.codec_source.specs.proving.Wholes.{Chain, ReadsElement, ReadsInto};
ghost use Rattle.codec_code.specs.declared.step.Step.TheVariants.{Head as Head'};
ghost use Rattle.decode_faults.specs.declared.read_fault.ReadFault.TheVariants.{Memory};
ghost use Rattle.std.specs.Prelude.{◌≡◌, ◌<◌, ◌≤◌, ◌∷◌, Bool, false, IfErr, IfOk, MatchOption, OnOk, Option as Option', true, ℕ};

use asn_base::schema::TypeId;
use codec_code::{Code, Field, Head, Step};
use decode_faults::ReadFault;
use encodings::LeafKind;

/// Answers one question after the other with what comes next, and keeps what was read. A fault other than `Memory`
/// means that the question has no answer. The source is left at the question, or after some of what it looked at to
/// answer it.
pub trait Source {
    /// The second state is the first one after the answer.
    ghost takes: { Self → Event → Self → Type 0 };

    /// The question has no answer in the first state. It is refused with this fault, and leaves the source in the
    /// second state.
    ghost refuses: { Self → Question → Self → ReadFault' → Type 0 };

    /// The largest number of values that may still begin.
    ghost budget: { Self → ℕ };

    /// Begins a value of the type.
    fn begin(&mut self, id: TypeId) -> Result<(), ReadFault>
        ensures ok { OnOk result (takes self.old (begins id) self.new) }
        ensures err { IfRefused result ((b : Self) → takes self.old (begins id) b → ⊥) }
        ensures left { IfRefusedWith result (refuses self.old (to_begin id) self.new) };

    /// Ends the value that began last.
    fn end(&mut self) -> Result<(), ReadFault>
        ensures ok { OnOk result (takes self.old ends self.new) }
        ensures err { IfRefused result ((b : Self) → takes self.old ends b → ⊥) }
        ensures left { IfRefusedWith result (refuses self.old to_end self.new) };

    /// Opens the header that comes next.
    fn open(&mut self, head: Head) -> Result<(), ReadFault>
        ensures ok { OnOk result (takes self.old (opens head) self.new) }
        ensures err { IfRefused result ((b : Self) → takes self.old (opens head) b → ⊥) }
        ensures left { IfRefusedWith result (refuses self.old (to_open head) self.new) };

    /// Closes the nearest open header, whose contents were read to their end.
    fn close(&mut self) -> Result<(), ReadFault>
        ensures ok { OnOk result (takes self.old closes self.new) }
        ensures err { IfRefused result ((b : Self) → takes self.old closes b → ⊥) }
        ensures left { IfRefusedWith result (refuses self.old to_close self.new) };

    /// Reads contents octets of this kind.
    fn leaf(&mut self, kind: LeafKind) -> Result<(), ReadFault>
        ensures ok { OnOk result (takes self.old (holds kind) self.new) }
        ensures err { IfRefused result ((b : Self) → takes self.old (holds kind) b → ⊥) }
        ensures left { IfRefusedWith result (refuses self.old (to_hold kind) self.new) };

    /// Skips additions that the type lacks.
    fn skip(&mut self) -> Result<(), ReadFault>
        ensures ok { OnOk result (takes self.old skips self.new) }
        ensures err { IfRefused result ((b : Self) → takes self.old skips b → ⊥) }
        ensures left { IfRefusedWith result (refuses self.old to_skip self.new) };

    /// Whether the component of a SEQUENCE comes next.
    fn has_component(&mut self, field: Field) -> Result<bool, ReadFault>
        ensures ok { IfOk result (λ yes. takes self.old (comes field yes) self.new) }
        ensures err { IfRefused result ((yes : Bool) (b : Self) → takes self.old (comes field yes) b → ⊥) }
        ensures left { IfRefusedWith result (refuses self.old (whether_comes field) self.new) };

    /// Whether one more element of this type comes next; the elements of a SET OF are `sorted`.
    fn has_element(&mut self, id: TypeId, sorted: bool) -> Result<bool, ReadFault>
        ensures ok { IfOk result (λ yes. takes self.old (more id sorted yes) self.new) }
        ensures err { IfRefused result ((yes : Bool) (b : Self) → takes self.old (more id sorted yes) b → ⊥) }
        ensures left { IfRefusedWith result (refuses self.old (whether_more id sorted) self.new) };

    /// The type of the component of a SET that comes next, of those with which the steps start, or None if there is
    /// none.
    fn next_component(&mut self, steps: &[Step]) -> Result<Option<TypeId>, ReadFault>
        ensures ok { IfOk result (λ id. takes self.old (among steps.now id) self.new) }
        ensures err { IfRefused result ((id : Option' TypeId') (b : Self) → takes self.old (among steps.now id) b → ⊥) }
        ensures left { IfRefusedWith result (refuses self.old (which_comes steps.now) self.new) };

    /// The type of the alternative that comes next, of those that the steps call.
    fn alternative(&mut self, calls: &[Step]) -> Result<TypeId, ReadFault>
        ensures ok { IfOk result (λ id. takes self.old (picks calls.now id) self.new) }
        ensures err { IfRefused result ((id : TypeId') (b : Self) → takes self.old (picks calls.now id) b → ⊥) }
        ensures left { IfRefusedWith result (refuses self.old (which_picked calls.now) self.new) };

    /// Reads at once a value of the type, which holds no others: with this header, and contents of this kind. True: the
    /// five questions of such a value were answered. False: nothing was done, and they may be asked one by one.
    fn small_value(&mut self, id: TypeId, head: Head, kind: LeafKind) -> Result<bool, ReadFault>
        ensures taken { IfOk result (λ yes. yes ≡ true → TakesValue takes id head kind self.old self.new) }
        ensures same { IfOk result (λ yes. yes ≡ false → self.new ≡ self.old) }
        ensures err { IfErr result (λ e. e ≡ Memory) };

    /// The same of a component of a SEQUENCE, which must come next. True: the question whether it comes next was
    /// answered too.
    fn small_component(
        &mut self,
        field: Field,
        head: Head,
        kind: LeafKind,
    ) -> Result<bool, ReadFault>
        ensures taken { IfOk result (λ yes. yes ≡ true → TakesComponent takes field head kind self.old self.new) }
        ensures same { IfOk result (λ yes. yes ≡ false → self.new ≡ self.old) }
        ensures err { IfErr result (λ e. e ≡ Memory) };

    /// The same of one more element of a list, which must come next; the elements of a SET OF are `sorted`. True: the
    /// question whether it comes next was answered too.
    fn small_element(
        &mut self,
        id: TypeId,
        sorted: bool,
        head: Head,
        kind: LeafKind,
    ) -> Result<bool, ReadFault>
        ensures taken { IfOk result (λ yes. yes ≡ true → TakesElement takes id sorted head kind self.old self.new) }
        ensures same { IfOk result (λ yes. yes ≡ false → self.new ≡ self.old) }
        ensures err { IfErr result (λ e. e ≡ Memory) };

    /// Reads at once a value of the type, a CHOICE without a tag whose alternatives these calls are for, if the one
    /// that comes next holds no other values. True: the questions of both values were answered. False: nothing was
    /// done, and they may be asked one by one.
    fn small_choice(&mut self, code: &Code, id: TypeId, calls: &[Step]) -> Result<bool, ReadFault>
        ensures taken { IfOk result (λ yes. yes ≡ true
            → TakesChoice (routine_at code.now) takes id calls.now self.old self.new) }
        ensures same { IfOk result (λ yes. yes ≡ false → self.new ≡ self.old) }
        ensures err { IfErr result (λ e. e ≡ Memory) };

    /// The same of a component of a SEQUENCE, which must come next. True: the question whether it comes next was
    /// answered too.
    fn small_choice_component(
        &mut self,
        code: &Code,
        field: Field,
        calls: &[Step],
    ) -> Result<bool, ReadFault>
        ensures taken { IfOk result (λ yes. yes ≡ true
            → TakesChoiceComponent (routine_at code.now) takes field calls.now self.old self.new) }
        ensures same { IfOk result (λ yes. yes ≡ false → self.new ≡ self.old) }
        ensures err { IfErr result (λ e. e ≡ Memory) };

    /// Reads at once elements of a list that come next, by their type's routine: this header and these steps after it.
    /// The elements of a SET OF aren't read so. None: all elements that were begun were read. Otherwise the last one
    /// was read up to the steps that are returned.
    fn small_rows<'s>(
        &mut self,
        code: &Code,
        id: TypeId,
        head: Head,
        fields: &'s [Step],
    ) -> Result<Option<&'s [Step]>, ReadFault>
        requires routine { routine_at code.now id.index ≡ Head' head ∷ fields.now }
        ensures ok { IfOk result (λ o. MatchOption o
            (Chain (ReadsElement (routine_at code.now) takes id false) self.old self.new)
            (λ left. ReadsInto (routine_at code.now) takes id left.now self.old self.new)) }
        ensures err { IfErr result (λ e. e ≡ Memory) };

    ghost lemma_one_answer: { (a b c : Self) (e f : Event) → Alike e f → takes a e b → takes a f c → (e ≡ f)
        × (b ≡ c) };

    ghost spends: { (a b : Self) (t : TypeId') → takes a (begins t) b → budget b < budget a };

    ghost keeps: { (a b : Self) (e : Event) → takes a e b → budget b ≤ budget a };
}
