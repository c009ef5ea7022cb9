//! Skips additions that the type lacks.

ghost use Rattle.ber_source.specs.Seen.{IsValidState, state_of};
ghost use Rattle.codec_code.specs.declared.step.Field.{Field as Field'};
ghost use Rattle.decode_faults.specs.declared.read_fault.ReadFault.{ReadFault as ReadFault'};
ghost use Rattle.decode_faults.specs.declared.read_fault.ReadFault.TheVariants.{Memory};
ghost use Rattle.codec_source.specs.proving.Frames.{IfRefused, IfRefusedWith};
ghost use Rattle.octet_answers.specs.Found.{Passes};
ghost use Rattle.octet_answers.specs.Unanswered.{CantSkip};
ghost use Rattle.octet_answers.specs.States.{State, passing};
ghost use Rattle.octet_answers.specs.Units.{UnitAt};
ghost use Rattle.octets.specs.Forms.{is_constructed};
ghost use Rattle.std.specs.Prelude.{◌≡◌, ◌<◌, IfErr, IfNone, IfOk, IfSome, OnOk, Option as Option', length};

use crate::moves::from_header_fault;
use crate::open_contents::OpenContents;
use crate::reader_state::ReaderState;
use crate::token::StructToken;
use crate::token_sink::TokenSink;
use codec_code::{Field, Step};
use decode_faults::ReadFault;
use limits::MAX_HEADERS;
use next_tags::{Unit, find, next_unit};
use octet_answers::law::lemma_one_unit;

/// Skips additions that the type lacks, if it is extensible. Returns the component that comes after them, or None at
/// the end of the contents.
pub(crate) fn pass<'c, 'a, T: TokenSink<'a>>(
    place: &mut ReaderState<'c, 'a, T>,
    steps: &[Step],
    extensible: bool,
) -> Result<Option<Field>, ReadFault>
    requires { IsValidState T.suits place.old }
    ensures within { IsValidState T.suits place.new }
    ensures ok { IfOk result (λ f.
        Passes place.old.code.now steps.now extensible (state_of T.tokens place.old) f (state_of T.tokens place.new)) }
    ensures only { IfOk result (λ f. (g : Option' Field') (b : State)
        → Passes place.old.code.now steps.now extensible (state_of T.tokens place.old) g b
        → (g ≡ f) × (b ≡ state_of T.tokens place.new)) }
    ensures err { IfRefused result ((f : Option' Field') (b : State)
        → Passes place.old.code.now steps.now extensible (state_of T.tokens place.old) f b → ⊥) }
    ensures code { place.new.code.now ≡ place.old.code.now }
    ensures left { IfRefusedWith result
        (CantSkip place.old.code.now steps.now extensible (state_of T.tokens place.old) (state_of T.tokens place.new)) }
{
    loop {
        match pass_one(place, steps, extensible) {
            Ok(Some(found)) => return Ok(found),
            Ok(None) => {}
            Err(fault) => return Err(fault),
        }
    }
}

/// Returns the component that comes next, or None at the end of the contents. If an addition comes next, it is skipped,
/// and there is no result yet.
fn pass_one<'c, 'a, T: TokenSink<'a>>(
    place: &mut ReaderState<'c, 'a, T>,
    steps: &[Step],
    extensible: bool,
) -> Result<Option<Option<Field>>, ReadFault>
    requires { IsValidState T.suits place.old }
    ensures within { IsValidState T.suits place.new }
    ensures code { place.new.code.now ≡ place.old.code.now }
    ensures ended { IfOk result (λ r. IfSome r (λ f.
        (state_of T.tokens place.new ≡ state_of T.tokens place.old)
        × Passes place.old.code.now steps.now extensible (state_of T.tokens place.old) f
        (state_of T.tokens place.old))) }
    ensures only { IfOk result (λ r. IfSome r (λ f. (g : Option' Field') (b : State)
        → Passes place.old.code.now steps.now extensible (state_of T.tokens place.old) g b
        → (g ≡ f) × (b ≡ state_of T.tokens place.old))) }
    ensures passed { IfOk result (λ r. IfNone r ((f : Option' Field') (b : State)
        → Passes place.old.code.now steps.now extensible (state_of T.tokens place.new) f b
        → Passes place.old.code.now steps.now extensible (state_of T.tokens place.old) f b)) }
    ensures back { IfOk result (λ r. IfNone r ((f : Option' Field') (b : State)
        → Passes place.old.code.now steps.now extensible (state_of T.tokens place.old) f b
        → Passes place.old.code.now steps.now extensible (state_of T.tokens place.new) f b)) }
    ensures less { IfOk result (λ r. IfNone r
        (length place.new.here.octets.now < length place.old.here.octets.now)) }
    ensures err { IfRefused result ((f : Option' Field') (b : State)
        → Passes place.old.code.now steps.now extensible (state_of T.tokens place.old) f b → ⊥) }
    ensures left { IfRefusedWith result
        (CantSkip place.old.code.now steps.now extensible (state_of T.tokens place.old) (state_of T.tokens place.new)) }
    ensures onward { IfOk result (λ r. IfNone r ((b : State) (e : ReadFault')
        → CantSkip place.old.code.now steps.now extensible (state_of T.tokens place.new) b e
        → CantSkip place.old.code.now steps.now extensible (state_of T.tokens place.old) b e)) }
{
    lemma_one_unit();
    if place.here.octets.is_empty() {
        return Ok(Some(None));
    }
    let unit = match next_unit(place.here.octets) {
        Ok(unit) => unit,
        Err(fault) => return Err(from_header_fault(fault)),
    };
    match find(place.code, steps, unit.tag) {
        Some(field) => return Ok(Some(Some(field))),
        None => {}
    }
    if place.outer.len() >= MAX_HEADERS {
        return Err(ReadFault::TooDeep);
    }
    if !extensible {
        return Err(ReadFault::UnexpectedTag);
    }
    step_over(place, unit)?;
    Ok(None)
}

/// Moves over the encoding that comes next.
fn step_over<'c, 'a, T: TokenSink<'a>>(
    place: &mut ReaderState<'c, 'a, T>,
    unit: Unit<'a>,
) -> Result<(), ReadFault>
    requires within { IsValidState T.suits place.old }
    requires unit { UnitAt unit.tag (is_constructed unit.form) unit.count unit.contents.now unit.rest.now
        place.old.here.octets.now }
    ensures within { IsValidState T.suits place.new }
    ensures code { place.new.code.now ≡ place.old.code.now }
    ensures ok { OnOk result (state_of T.tokens place.new
        ≡ passing (state_of T.tokens place.old) unit.entry.count unit.entry.contents.now unit.entry.rest.now) }
    ensures less { OnOk result (length place.new.here.octets.now < length place.old.here.octets.now) }
    ensures err { IfErr result (λ e. e ≡ Memory) }
{
    match place.emitted.emit(StructToken::Passed) {
        Ok(()) => {}
        Err(fault) => return Err(fault),
    }
    place.here = OpenContents {
        form: place.here.form,
        octets: unit.rest,
        at: place.here.at + (unit.count + unit.contents.len()),
        from: place.here.from,
    };
    Ok(())
}
