//! The tokens that a receiver got, for contracts alone.

ghost use Rattle.ber_source.specs.Seen.{token_of};
ghost use Rattle.ber_source.specs.Log.{logged};
ghost use Rattle.std.specs.Prelude.{◌≡◌, ◌++◌, ◌∷◌, []};

use crate::{PrimitiveToken, StructToken, Token};
use std::snapshot::Snapshot;

/// The tokens that were received, in order. They take no memory: contracts see them, and no code does.
#[derive(Drop)]
pub enum Log<'a> {
    Empty,
    More(Snapshot<Token<'a>>, Snapshot<Log<'a>>),
}

/// No tokens.
pub fn empty<'a>() -> Log<'a>
    ensures { logged result ≡ [] }
{
    Log::Empty
}

/// Appends one token.
pub fn add<'a>(log: &mut Log<'a>, token: Token<'a>)
    ensures { logged log.new ≡ logged log.old ++ token_of token.entry ∷ [] }
{
    let one = Snapshot::of(&token);
    let before = Snapshot::of(log);
    *log = Log::More(one, before);
}
