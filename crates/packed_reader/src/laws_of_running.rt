//! What the code computes is what routines read.

ghost use Rattle.asn_base.specs.Abstract.{AbstractValue, Row};
ghost use Rattle.asn_base.specs.Schemas.{IsSchema, components};
ghost use Rattle.asn_base.specs.Types.{Component, Resolved};
ghost use Rattle.packed_code.specs.Routines.{routine_at};
ghost use Rattle.packed_code.specs.declared.step.PackedField.{PackedField};
ghost use Rattle.packed_reader.specs.Readings.{Fault, Taken, read, refused};
ghost use Rattle.packed_reader.specs.Steps.{steps_from, value_by};
ghost use Rattle.packed_reader.specs.proving.Running.{past, run_group_inside, run_steps, run_value};
ghost use Rattle.std.specs.Prelude.{◌≡◌, ◌++◌, Bool, List, ℕ};

use crate::law::{step_laws, value_laws};

/// The steps of a type's routine, run with a state, read what they read without one.
pub(crate) fn running_laws()
    ensures { (s : List Resolved) (l t k n : ℕ) (b : List Bool)
        → run_steps s l (run_value s l) t (routine_at s t) k n b
        ≡ past k (steps_from s l (value_by s l) t (routine_at s t) n b) }
{}

/// The bits that are left, after a value or from the place of a fault on, are the last ones of those that there were.
pub(crate) fn inside_laws()
    ensures value_read { (s : List Resolved) (l t k n : ℕ) (b r : List Bool) (w : Taken AbstractValue)
        → IsSchema s
        → run_value s l t k n b ≡ read w r
        → (x : List Bool) × (b ≡ x ++ r) }
    ensures value_refused { (s : List Resolved) (l t k n : ℕ) (b r : List Bool) (e : Fault)
        → IsSchema s
        → run_value s l t k n b ≡ refused e r
        → (x : List Bool) × (b ≡ x ++ r) }
    ensures group_read { (s : List Resolved) (l k n : ℕ) (cs : List Component) (fs : List PackedField) (ws : Row)
        (b r : List Bool) (w : Taken Row)
        → IsSchema s
        → run_group_inside s l (run_value s l) cs fs ws k n b ≡ read w r
        → (x : List Bool) × (b ≡ x ++ r) }
    ensures group_refused { (s : List Resolved) (l k n : ℕ) (cs : List Component) (fs : List PackedField) (ws : Row)
        (b r : List Bool) (e : Fault)
        → IsSchema s
        → run_group_inside s l (run_value s l) cs fs ws k n b ≡ refused e r
        → (x : List Bool) × (b ≡ x ++ r) }
{
    value_laws();
    step_laws();
}
