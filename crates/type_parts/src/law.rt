//! Laws on the parts of types.

ghost use Rattle.type_parts.specs.PartLaws.{PartLaws};

/// What is read as a value, a constraint or a size is one, and each of these is read.
pub fn lemma_parts_are_read()
    ensures { PartLaws }
{
    notation::law::lemma_values_are_read();
    notation::law::lemma_constraints_are_read();
    notation::law::lemma_sizes_are_read();
}
