//! What is found once for the types of linked modules, apart from the modules.

ghost use Rattle.std.specs.Prelude.{◌≡◌};
ghost use Rattle.tagging.specs.proving.Columns.{held};

/// What [`crate::tag`] finds once for the types of linked modules. It owns its memory and borrows no modules, so an
/// owner of modules can keep it beside them. [`crate::Tagged::with_table`] puts both together again.
pub struct TagTable {
    /// The first type, from each one on through references, that is no reference.
    pub(crate) fronts: Vec<usize>,
    /// Whether the members of each type are tagged automatically.
    pub(crate) automatic: Vec<bool>,
}

/// A table that is owned, or one that someone else owns.
#[derive(Drop)]
pub(crate) enum TableRef<'a> {
    Owned(TagTable),
    Lent(&'a TagTable),
}

impl<'a> TableRef<'a> {
    /// The table.
    pub(crate) fn get(&self) -> &TagTable
        ensures { result.now ≡ held self.now }
    {
        match self {
            TableRef::Owned(table) => table,
            TableRef::Lent(table) => table,
        }
    }
}

impl Drop for TagTable {
    fn drop(self) {
        let TagTable {
            fronts: _,
            automatic: _,
        } = self;
    }
}
