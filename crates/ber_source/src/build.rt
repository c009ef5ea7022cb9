//! Builds a view of tokens, one by one.

ghost use Rattle.asn_base.specs.Abstract.{AbstractValue};
ghost use Rattle.ber_source.specs.PrimitiveValue.{IsValueOfToken};
ghost use Rattle.ber_source.specs.Seen.{IsBare, value_token, as_token};
ghost use Rattle.ber_source.specs.Wants.{IsBefore, Reading};
ghost use Rattle.codec_code.specs.Routines.{routine_at};
ghost use Rattle.std.specs.Prelude.{◌≡◌, ◌∷◌, ◌^◌, ◌<◌, false, List, OnOk};
ghost use Rattle.octet_answers.specs.States.{Token as Token', begun as begun', chosen, component, ended};
ghost use Rattle.views.specs.Building.{begun};
ghost use Rattle.views.specs.Seen.{HasBuilt};

use crate::leaf::push_held;
use crate::shape::{Shape, shape_at};
use crate::{PrimitiveToken, PrimitiveValue, StructToken};
use asn_base::schema::TypeId;
use codec_code::Code;
use std::alloc::{AllocError, Global};
use views::Builder;

/// A view so far. It has the number of the component that the next value is, and the flag whether the last token had
/// contents octets.
#[derive(Drop)]
pub struct Build<'a> {
    pub builder: Builder<'a>,
    pub number: u32,
    pub held: bool,
}

/// Begins a value of the type.
#[inline(always)]
fn begin<'a>(code: &Code, build: &mut Build<'a>, id: TypeId) -> Result<(), AllocError>
    ensures { (m : Reading) (w : AbstractValue) (ts : List Token')
        → IsBefore code.now m w (begun' id ∷ ts) build.old
        → OnOk result (IsBefore code.now m w ts build.new) }
{
    match shape_at(code, id) {
        Shape::Row(size) => {
            build.builder.open_fields(build.number, size)?;
            build.number = 0;
        }
        Shape::List => {
            build.builder.open_list(build.number)?;
            build.number = 0;
        }
        Shape::Bare => {}
    }
    build.held = false;
    Ok(())
}

/// Begins a value of the type, which has no node of its own.
#[inline(always)]
pub(crate) fn begin_bare(code: &Code, build: &mut Build<'_>, id: TypeId)
    requires { IsBare (routine_at code.now id.index) }
    ensures { (m : Reading) (w : AbstractValue) (ts : List Token')
        → IsBefore code.now m w (begun' id ∷ ts) build.old
        → IsBefore code.now m w ts build.new }
{
    build.held = false;
}

/// Ends the value that began last, of those that are open.
#[inline(always)]
fn end(build: &mut Build<'_>, code: &Code)
    ensures { (m : Reading) (w : AbstractValue) (ts : List Token')
        → IsBefore code.now m w (ended ∷ ts) build.old
        → IsBefore code.now m w ts build.new }
{
    if build.held {
        build.number = 0;
        build.held = false;
        return;
    }
    build.builder.close();
    build.number = 0;
    build.held = false;
}

/// Opens an alternative: the next value is that of the alternative with this number.
#[inline(always)]
fn choose(code: &Code, build: &mut Build<'_>, index: usize) -> Result<(), AllocError>
    ensures { (m : Reading) (w : AbstractValue) (ts : List Token')
        → IsBefore code.now m w (chosen index ∷ ts) build.old
        → OnOk result (IsBefore code.now m w ts build.new) }
{
    build.builder.open_alternative(build.number, index)?;
    build.number = 0;
    build.held = false;
    Ok(())
}

/// Sets the component that the next value is, by its place, which is below 2^32.
#[inline(always)]
fn name(code: &Code, build: &mut Build<'_>, place: usize)
    ensures { (m : Reading) (w : AbstractValue) (ts : List Token')
        → IsBefore code.now m w (component place ∷ ts) build.old
        → IsBefore code.now m w ts build.new }
{
    build.number = number_of(place);
    build.held = false;
}

/// The place as a number of 32 bits.
fn number_of(place: usize) -> u32
    ensures { place < 2 ^ 32 → result ≡ place }
{
    if place < 4_294_967_296 {
        place as u32
    } else {
        0
    }
}

/// Adds a value that holds no others.
#[inline(always)]
pub(crate) fn hold<'a>(
    code: &Code,
    build: &mut Build<'a>,
    held: PrimitiveToken<'a>,
    decoded: PrimitiveValue<'a>,
) -> Result<(), AllocError>
    requires { IsValueOfToken held decoded }
    ensures { (m : Reading) (w : AbstractValue) (ts : List Token')
        → IsBefore code.now m w (value_token held.entry ∷ ts) build.old
        → OnOk result (IsBefore code.now m w ts build.new) }
{
    push_held(&mut build.builder, build.number, held, decoded)?;
    build.number = 0;
    build.held = true;
    Ok(())
}

/// Takes one more token, which has no contents octets.
#[inline(always)]
pub(crate) fn take(code: &Code, build: &mut Build<'_>, mark: StructToken) -> Result<(), AllocError>
    ensures { (m : Reading) (w : AbstractValue) (ts : List Token')
        → IsBefore code.now m w (as_token mark ∷ ts) build.old
        → OnOk result (IsBefore code.now m w ts build.new) }
{
    match mark {
        StructToken::Component(place) => {
            name(code, build, place);
            Ok(())
        }
        StructToken::Chosen(index) => choose(code, build, index),
        StructToken::Begun(id) => begin(code, build, id),
        StructToken::Ended => {
            end(build, code);
            Ok(())
        }
        StructToken::Passed => Ok(()),
    }
}

/// The empty view, with room for this number of nodes if there is memory for them.
pub(crate) fn nothing<'a>(alloc: Global, room: usize) -> Build<'a>
    ensures holds { HasBuilt result.builder begun }
    ensures number { result.number ≡ 0 }
    ensures held { result.held ≡ false }
{
    Build {
        builder: Builder::with_room(alloc, room),
        number: 0,
        held: false,
    }
}
