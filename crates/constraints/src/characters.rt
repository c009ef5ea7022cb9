//! The characters that texts and ranges of characters allow.

ghost use Rattle.std.specs.Prelude.{◌≡◌, ◌↔◌, ◌⊎◌, ◌<◌, ◌≤◌, ℕ, Some, map, IfErr, MatchOption, MatchResult};
ghost use Rattle.asn_base.specs.Names.{IsMember};
ghost use Rattle.trees.specs.Constraints.{chars_of};
ghost use Rattle.range_ends.specs.Characters.{IsCharacter, IsAmong, IsAmongAny, IsFit, AreFit};
ghost use Rattle.constraints.specs.First.{AreEndsWrong, IsCharsWrong, IsFirstChars};
ghost use Rattle.constraints.specs.proving.Characters.{AreFrom, IsCharsFault, AreCharsWrong, Adds};

use ranges::Codes;
use trees::{At, CharsSyntax};

/// Why a range of characters has no meaning, with a place in the text.
#[derive(Clone, Copy)]
pub(crate) enum CharsFault {
    /// The end at the place isn't a single character.
    NoCharacter(usize),
    /// The first character, at the place, has a greater code than the last.
    Reversed(usize),
}

/// The code of the character that a text is, or None if it isn't a single character.
fn character(text: &[u8]) -> Option<u32>
    ensures { MatchOption result ((c : ℕ) → IsCharacter text.now c → ⊥) (IsCharacter text.now) }
{
    match str::from_utf8(text) {
        Err(_) => None,
        Ok(text) => {
            let mut all = text.chars();
            match all.next() {
                None => None,
                Some(first) => match all.next() {
                    None => Some(u32::from(first)),
                    Some(_) => None,
                },
            }
        }
    }
}

/// Adds the characters of a text.
fn add_text(codes: &mut Codes, text: &[u8])
    ensures { (c : ℕ) → IsMember c codes.new ↔ (IsMember c codes.old ⊎ (IsMember c text.now × (c < 128))) }
{
    for octet in text {
        let code = u32::from(*octet);
        codes.add(code, code);
    }
}

/// The codes of the ends of a range.
fn ends(first: &At<Vec<u8>>, last: &At<Vec<u8>>) -> Result<(u32, u32), CharsFault>
    ensures found { MatchResult result
        (λ e. AreFrom first.now.it.items last.now.it.items e.0 e.1)
        (IsCharsFault (first.now.it.items, Some last.now.it.items)) }
    ensures wrong { IfErr result (AreEndsWrong first.now last.now) }
{
    match (character(&first.it), character(&last.it)) {
        (None, _) => Err(CharsFault::NoCharacter(first.at)),
        (Some(_), None) => Err(CharsFault::NoCharacter(last.at)),
        (Some(from), Some(to)) => {
            if from <= to {
                Ok((from, to))
            } else {
                Err(CharsFault::Reversed(first.at))
            }
        }
    }
}

/// Adds the characters of a text or a range.
fn add_chars(codes: &mut Codes, chars: &CharsSyntax) -> Result<(), CharsFault>
    ensures found { MatchResult result
        (λ _. Adds (chars_of chars.now) codes.old codes.new)
        (IsCharsFault (chars_of chars.now)) }
    ensures wrong { IfErr result (IsCharsWrong chars.now) }
{
    match &chars.last {
        None => {
            add_text(codes, &chars.first.it);
            Ok(())
        }
        Some(last) => match ends(&chars.first, last) {
            Ok((from, to)) => {
                codes.add(from, to);
                Ok(())
            }
            Err(fault) => Err(fault),
        },
    }
}

/// The codes, below 128, of the characters that texts and ranges allow (X.680, clauses 51.4 and 51.7), or the first
/// fault of them.
pub(crate) fn codes_at(chars: &[CharsSyntax]) -> Result<Codes, CharsFault>
    ensures found { MatchResult result
        (λ s. AreFit (map chars_of chars.now)
        × ((c : ℕ) → IsMember c s ↔ (IsAmongAny (map chars_of chars.now) c × (c < 128))))
        (AreCharsWrong (map chars_of chars.now)) }
    ensures first { IfErr result (IsFirstChars chars.now) }
{
    let mut codes = Codes::none();
    for one in chars {
        match add_chars(&mut codes, one) {
            Ok(()) => {}
            Err(fault) => return Err(fault),
        }
    }
    Ok(codes)
}
