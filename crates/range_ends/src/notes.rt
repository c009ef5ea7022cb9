//! Where references lead in constraints on types with named numbers, as it was found for many ends at once.

ghost use Rattle.std.specs.Prelude.{ℕ, List, Option};
ghost use Rattle.resolve.specs.Program.{Program};
ghost use Rattle.range_ends.specs.proving.Noted.{AreRight, Leads};

/// In a constraint on a type, the references of a value lead to another value.
#[derive(Clone, Copy)]
pub struct Note {
    /// The number of the type. It is no reference and no tag.
    pub(crate) core: usize,
    /// The number of the value.
    pub(crate) start: usize,
    /// The number of the other value.
    pub(crate) reached: usize,
}

/// Whether a note is of an earlier type than `core`, or of the same type and of an earlier value than `start`.
fn is_earlier(note: &Note, core: usize, start: usize) -> bool {
    note.core < core || (note.core == core && note.start < start)
}

/// The type and the value of the note at a place.
pub(crate) fn key_at(notes: &[Note], place: usize) -> (usize, usize) {
    match notes.get(place) {
        None => (place, place),
        Some(note) => (note.core, note.start),
    }
}

/// The value to which the references of value `start` lead in a constraint on type `core`, by the notes, or `start`
/// itself. `order` has the places of the notes, in the order of their types and values.
pub(crate) fn known(notes: &[Note], order: &[usize], core: usize, start: usize) -> usize
    ensures { (p : Program) (os : List (Option ℕ)) → AreRight p os notes.now → Leads p os core start result }
{
    let mut low = 0;
    let mut high = order.len();
    for round in 0..64 {
        if low >= high {
            return start;
        }
        let middle = low + (high - low) / 2;
        let Some(place) = order.get(middle) else {
            return start;
        };
        let Some(note) = notes.get(*place) else {
            return start;
        };
        if note.core == core && note.start == start {
            return note.reached;
        }
        if is_earlier(note, core, start) {
            low = middle.saturating_add(1);
        } else {
            high = middle;
        }
    }
    start
}
