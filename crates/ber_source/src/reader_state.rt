//! The position of a cursor in a message, with all that is open there.

ghost use Rattle.ber_source.specs.Seen.{IsValidState, state_of};
ghost use Rattle.octet_answers.specs.States.{front};
ghost use Rattle.std.specs.Prelude.{◌≡◌, ◌≤◌, [], length};

use crate::open_contents::OpenContents;
use crate::outer::OuterContents;
use crate::token_sink::TokenSink;
use asn_base::schema::TypeId;
use codec_code::Code;
use octets::Form;
use std::alloc::Global;

/// The unread contents of the nearest open header, and what comes after each open header. There are also the types of
/// the open values, and the components that were read of the open SETs. The last fields are the receiver of the tokens,
/// and how many values may still begin.
#[derive(Drop)]
pub struct ReaderState<'c, 'a, T> {
    pub alloc: Global,
    pub code: &'c Code,
    pub here: OpenContents<'a>,
    pub outer: OuterContents<'a>,
    pub values: Vec<TypeId>,
    pub marks: Vec<usize>,
    pub emitted: T,
    pub budget: usize,
}

/// The place at the start of a message, in which at most `budget` values may begin. The receiver must have got nothing
/// yet.
pub fn at_front<'c, 'a, T: TokenSink<'a>>(
    alloc: Global,
    code: &'c Code,
    octets: &'a [u8],
    budget: usize,
    emitted: T,
) -> ReaderState<'c, 'a, T>
    requires short { length octets.now ≤ 16777216 }
    requires suits { T.suits emitted code.now }
    requires nothing { T.tokens emitted ≡ [] }
    ensures is { state_of T.tokens result ≡ front code.now octets.now budget }
    ensures within { IsValidState T.suits result }
{
    ReaderState {
        alloc,
        code,
        here: OpenContents {
            form: Form::Constructed,
            octets,
            at: 0,
            from: 0,
        },
        outer: OuterContents::new(alloc),
        values: Vec::new(alloc),
        marks: Vec::new(alloc),
        emitted,
        budget,
    }
}
