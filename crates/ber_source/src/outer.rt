//! What comes after each open header.

ghost use Rattle.ber_source.specs.Seen.{outer_contents};
ghost use Rattle.decode_faults.specs.declared.read_fault.ReadFault.TheVariants.{Memory};
ghost use Rattle.std.specs.Prelude.{◌≡◌, ◌++◌, ◌∷◌, [], IfErr, MatchOption, OnErr, OnOk, length};

use crate::open_contents::OpenContents;
use decode_faults::ReadFault;
use octets::Form;
use std::alloc::Global;
use views::room::add_one;

/// The contents after each open header, the outermost first. If `is_apart`, the last of them is kept in `last`, apart
/// from the list: most headers are closed before another one opens.
#[derive(Drop)]
pub struct OuterContents<'a> {
    pub(crate) list: Vec<OpenContents<'a>>,
    pub(crate) last: OpenContents<'a>,
    pub(crate) is_apart: bool,
}

#[inline(always)]
fn push_contents<'a>(
    list: &mut Vec<OpenContents<'a>>,
    one: OpenContents<'a>,
) -> Result<(), ReadFault>
    ensures ok { OnOk result (list.new.items ≡ list.old.items ++ one.entry ∷ []) }
    ensures err { IfErr result (λ e. e ≡ Memory) }
    ensures same { OnErr result (list.new.items ≡ list.old.items) }
{
    add_one(list, one)?;
    Ok(())
}

impl<'a> OuterContents<'a> {
    /// No open header.
    pub(crate) fn new(alloc: Global) -> Self
        ensures { outer_contents result ≡ [] }
    {
        OuterContents {
            list: Vec::new(alloc),
            last: OpenContents {
                form: Form::Constructed,
                octets: &[],
                at: 0,
                from: 0,
            },
            is_apart: false,
        }
    }

    /// How many headers are open.
    #[inline(always)]
    pub(crate) fn len(&self) -> usize
        ensures { result ≡ length (outer_contents self.now) }
    {
        if self.is_apart {
            self.list.len() + 1
        } else {
            self.list.len()
        }
    }

    /// Adds the contents after one more header.
    #[inline(always)]
    pub(crate) fn push(&mut self, one: OpenContents<'a>) -> Result<(), ReadFault>
        ensures ok { OnOk result (outer_contents self.new ≡ outer_contents self.old ++ one.entry ∷ []) }
        ensures err { IfErr result (λ e. e ≡ Memory) }
        ensures same { OnErr result (outer_contents self.new ≡ outer_contents self.old) }
    {
        if self.is_apart {
            push_contents(&mut self.list, self.last)?;
        }
        self.last = one;
        self.is_apart = true;
        Ok(())
    }

    /// Removes the contents after the innermost header, if one is open.
    #[inline(always)]
    pub(crate) fn pop(&mut self) -> Option<OpenContents<'a>>
        ensures items { MatchOption result
            ((outer_contents self.old ≡ []) × (outer_contents self.new ≡ []))
            (λ w. outer_contents self.old ≡ outer_contents self.new ++ w ∷ []) }
    {
        if self.is_apart {
            self.is_apart = false;
            return Some(self.last);
        }
        self.list.pop()
    }
}
