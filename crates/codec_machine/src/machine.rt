//! The machine.

ghost use Rattle.asn_base.specs.Abstract.{abstract};
ghost use Rattle.codec_code.specs.Routines.{routine_at};
ghost use Rattle.codec_code.specs.Steps.{Steps};
ghost use Rattle.codec_machine.specs.Frames.{EmitsNothing, Ran};
ghost use Rattle.std.specs.Prelude.{IfErr, OnOk};

use crate::backend::Backend;
use crate::fault::RunFault;
use crate::frame::Frame;
use crate::push::next_of;
use crate::run_step::run_frame;
use asn_base::schema::TypeId;
use asn_base::value::Value;
use codec_code::{Code, Coding};
use std::alloc::Global;

/// Runs the routine of the type over the value, and adds its events to the backend.
///
/// `NotOfType`: the routine has no events for the value, so the value isn't one of the type. `Memory`: an allocation
/// failed.
pub fn run<'a, B: Backend<'a>>(
    alloc: Global,
    code: &'a Code,
    id: TypeId,
    value: &'a Value,
    backend: &mut B,
) -> Result<(), RunFault>
    ensures ok { OnOk result (Ran code.now id.index (abstract value.now) B.adds backend.old backend.new) }
    ensures refused { IfErr result (EmitsNothing (Steps code.now id.index (routine_at code.now id.index)
        (abstract value.now))) }
{
    let mut frames = Vec::new(alloc);
    let steps = code.steps(id, Coding::Tagged);
    let mut next = Some(Frame::Routine(id, steps, value));
    while let Some(frame) = next {
        match run_frame(code, frame, &mut frames, backend) {
            Ok(after) => next = next_of(&mut frames, after),
            Err(fault) => return Err(fault),
        }
    }
    Ok(())
}
