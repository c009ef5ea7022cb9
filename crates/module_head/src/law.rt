//! Laws on the heads of modules.

ghost use Rattle.module_head.specs.HeadLaws.{HeadLaws};

/// What is read as a module's head is one, each head is read, and a fault is the first one.
pub fn lemma_heads_are_read()
    ensures { HeadLaws }
{}
