//! The numbers of the notation, with their signs.

ghost use Rattle.std.specs.Prelude.{◌≡◌, MatchResult, pos, neg_ℤ, true, false};
ghost use Rattle.text.specs.declared.token.TokenKind.TheVariants as kinds;
ghost use Rattle.grammar.specs.Places.{small};
ghost use Rattle.parser_combinators.specs.Reads.{number_in};
ghost use Rattle.parser_combinators.specs.Given.{IsTokenIn};

use parser_combinators::decode::{number_of, small_number};
use parser_combinators::{Limit, ReadError};
use text::Token;

/// The number that a token is, if no minus comes before it and no limit is passed. The error counts `left`, the number
/// of tokens from this one on.
pub fn positive(text: &[u8], token: Token, left: usize) -> Result<i128, ReadError>
    requires token { IsTokenIn text.now token }
    requires number { token.kind ≡ kinds.Number }
    ensures { MatchResult result
        (λ n. (n ≡ pos (number_in text.now token))
        × (small (number_in text.now token) ≡ true))
        (λ e. (e ≡ ReadError.Limit Limit.Integer left)
        × (small (number_in text.now token) ≡ false)) }
{
    match small_number(text, token, left) {
        Ok(number) => Ok(number as i128),
        Err(e) => Err(e),
    }
}

/// The number that a token is after a minus.
pub fn negative(text: &[u8], token: Token) -> i128
    requires token { IsTokenIn text.now token }
    requires number { token.kind ≡ kinds.Number }
    ensures { result ≡ neg_ℤ (pos (number_in text.now token)) }
{
    let number = number_of(text, token);
    if number == 0 {
        return 0;
    }
    -1 - ((number - 1) as i128)
}
