//! Ways to a value that begins.

ghost use Rattle.ber_reader.specs.Paths.{begun_in, Leads, on_path};
ghost use Rattle.ber_source.specs.Seen.{token_of};
ghost use Rattle.std.specs.Prelude.{◌≡◌, ◌↔◌, ◌∷◌, [], IsTrue, map};

use crate::open::{OpenValue, entered};
use ber_source::Token;

/// The number of values that begin with the token: 0 or 1.
pub(crate) fn begun_by(token: Token<'_>) -> usize
    ensures { result ≡ begun_in (token_of token.entry ∷ []) }
{
    match token {
        Token::Begun(_) => 1,
        Token::Component(_) => 0,
        Token::Chosen(_) => 0,
        Token::Ended => 0,
        Token::PrimitiveToken {
            kind: _,
            form: _,
            octets: _,
            at: _,
        } => 0,
        Token::Passed => 0,
    }
}

/// Whether both values are of one type, and the same part of them is being read.
fn is_same(one: OpenValue, other: OpenValue) -> bool
    ensures { IsTrue result ↔ (on_path one ≡ on_path other) }
{
    one.ty == other.ty && one.part == other.part
}

/// Whether the two lists are the same, each value as the one at its place in the other list.
fn are_same(values: &[OpenValue], path: &[OpenValue]) -> bool
    ensures { IsTrue result ↔ (map on_path values.now ≡ map on_path path.now) }
{
    let Some((last, others)) = values.split_last() else {
        return path.is_empty();
    };
    let Some((end, before)) = path.split_last() else {
        return false;
    };
    if !is_same(*last, *end) {
        return false;
    }
    are_same(others, before)
}

/// Whether a value that begins in the innermost open value is the one to which the way leads.
pub(crate) fn leads(values: &[OpenValue], path: &[OpenValue]) -> bool
    ensures { IsTrue result ↔ Leads path.now values.now }
{
    if values.len() != path.len() {
        return false;
    }
    let Some((last, others)) = values.split_last() else {
        return true;
    };
    let Some((end, before)) = path.split_last() else {
        return false;
    };
    if !is_same(entered(*last), *end) {
        return false;
    }
    are_same(others, before)
}
