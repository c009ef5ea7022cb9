//! Reading numbers.

use notation::numbers::{negative, positive};
use parser_combinators::decode::small_number;
use parser_combinators::{Parser, Read, ReadError};
use std::alloc::Global;
use text::{Token, kind, mark};

/// A number.
#[derive(Drop)]
pub struct Number;

impl<'t> Parser<'t> for Number {
    ghost use Rattle.std.specs.Prelude.{ℕ};
    ghost use Rattle.grammar.specs.Places.{small};
    ghost use Rattle.grammar.specs.Rules.{number_at};
    ghost use Rattle.type_parts.specs.Shorts.{number_short};

    type Tree = u128;

    ghost Shape = { ℕ };

    ghost view = { λ n. n };

    ghost reader = { λ _. number_at small };

    ghost is_ready = { λ _ _. Unit {0} };

    ghost is_short = { λ _ _ _. number_short small };

    #[tactic(auto, unfolding(grammar::specs::Rules::number_at))]
    fn read(&self, _alloc: Global, text: &[u8], tokens: &'t [Token]) -> Read<'t, u128> {
        match tokens {
            [number @ kind!(Number), rest @ ..] => {
                let value = small_number(text, *number, tokens.len())?;
                Ok((value, rest))
            }
            _ => Err(ReadError::Unexpected(tokens.len())),
        }
    }
}

/// A number, after a minus or alone.
#[derive(Drop)]
pub struct Signed;

impl<'t> Parser<'t> for Signed {
    ghost use Rattle.std.specs.Prelude.{ℤ};
    ghost use Rattle.grammar.specs.Places.{small};
    ghost use Rattle.type_parts.specs.PlainReading.{signed_at};
    ghost use Rattle.type_parts.specs.Shorts.{signed_short};

    type Tree = i128;

    ghost Shape = { ℤ };

    ghost view = { λ n. n };

    ghost reader = { λ _. signed_at small };

    ghost is_ready = { λ _ _. Unit {0} };

    ghost is_short = { λ _ _ _. signed_short small };

    #[tactic(auto, unfolding(crate::specs::PlainReading::signed_at, crate::specs::PlainReading::negative_at))]
    fn read(&self, _alloc: Global, text: &[u8], tokens: &'t [Token]) -> Read<'t, i128> {
        match tokens {
            [number @ kind!(Number), rest @ ..] => {
                let value = positive(text, *number, tokens.len())?;
                Ok((value, rest))
            }
            [mark!(Minus), number @ kind!(Number), rest @ ..] => Ok((
                negative(text, *number),
                rest,
            )),
            [mark!(Minus), rest @ ..] => Err(ReadError::Unexpected(rest.len())),
            _ => Err(ReadError::Unexpected(tokens.len())),
        }
    }
}
