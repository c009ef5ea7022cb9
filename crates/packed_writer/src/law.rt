//! Laws of routines and of encodings.

ghost use Rattle.asn_base.specs.Abstract.{AbstractValue};
ghost use Rattle.asn_base.specs.Same.{Same};
ghost use Rattle.asn_base.specs.Types.{Resolved};
ghost use Rattle.packed_code.specs.Routines.{routine_at};
ghost use Rattle.packed_encodings.specs.Packing.{Reads};
ghost use Rattle.packed_writer.specs.Message.{IsMessage};
ghost use Rattle.packed_writer.specs.proving.Values.{StepsFit};
ghost use Rattle.std.specs.Prelude.{List, ℕ};

use packed_encodings::writing_laws;

/// The steps of a type's routine are those of its components, elements and alternatives.
pub fn lemma_routines_fit()
    ensures { (s : List Resolved) (t : ℕ) → StepsFit s t (routine_at s t) }
{}

/// The encoding of a value is decoded as a value that is the same, without additions that the type lacks.
pub fn written_is_read()
    ensures { (s : List Resolved) (t : ℕ) (v : AbstractValue) (o : List ℕ)
        → IsMessage s t v o
        → (w : AbstractValue) × Same s t v w × Reads s t w 0 o }
{
    writing_laws();
}
