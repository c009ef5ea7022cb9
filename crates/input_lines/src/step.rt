//! Parts of lines.

ghost use Rattle.std.specs.Prelude.{◌≡◌, ◌≢◌, ◌≤◌, ℕ, List, ◌++◌, ◌∷◌, [], All, IfOk, OnOk, length};
ghost use Rattle.input_lines.specs.proving.Parts.{IsKept, IsStep};

use crate::lines::MAX_LINE;
use std::alloc::AllocError;

/// Adds octets to a line, unless the line is too long already.
fn keep(line: &mut Vec<u8>, octets: &[u8]) -> Result<(), AllocError>
    ensures { OnOk result ((full : List ℕ) → IsKept full line.old.items → IsKept (full ++ octets.now) line.new.items) }
{
    if line.len() <= MAX_LINE {
        line.extend_from_slice(octets)?;
    }
    Ok(())
}

/// How many octets a step takes of a part, and whether the last of them ends the line.
#[derive(Clone, Copy)]
pub(crate) struct Step {
    pub(crate) count: usize,
    pub(crate) ends: bool,
}

/// Adds the octets of a part to a line, up to the first line end.
pub(crate) fn take_line(line: &mut Vec<u8>, part: &[u8]) -> Result<Step, AllocError>
    ensures { IfOk result (λ s. IsStep line.old.items line.new.items part.now s.count s.ends) }
{
    match memchr::memchr(b'\n', part) {
        Some(end) => {
            keep(line, &part[..end])?;
            Ok(Step {
                count: end + 1,
                ends: true,
            })
        }
        None => {
            keep(line, part)?;
            Ok(Step {
                count: part.len(),
                ends: false,
            })
        }
    }
}
