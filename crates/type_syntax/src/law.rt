//! Laws on types.

ghost use Rattle.type_syntax.specs.TypeLaws.{TypeLaws};

/// What is read as a type is one, each type is read, and a fault is the first one.
pub fn lemma_types_are_read()
    ensures { TypeLaws }
{
    type_parts::law::lemma_parts_are_read();
}
