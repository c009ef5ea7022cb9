//! Reading the head of a module: its tag default and its exports.

ghost use Rattle.std.specs.Prelude.{map, option_map, IfOk};
ghost use Rattle.grammar.specs.Reading.{listed_at};
ghost use Rattle.parser_combinators.specs.Reads.{ReadsAs, SkipsAs};
ghost use Rattle.parser_combinators.specs.Given.{AreTokens};
ghost use Rattle.trees.specs.Values.{name_at};
ghost use Rattle.module_head.specs.HeadingReading.{tag_word_at, default_words_at, semicolon_at, symbol_at, some_exports_at, exported_at};
ghost use Rattle.module_head.specs.HeadReading.{tag_default_at, export_list_at};

use parser_combinators::decode::name_at;
use parser_combinators::{CommaList, Parser, Read, ReadError};
use std::alloc::Global;
use text::{Token, kind, mark, word};
use trees::{At, TagDefault};

/// Reads the word before `TAGS`.
#[tactic(auto, unfolding(crate::specs::HeadingReading::tag_word_at))]
fn tag_word<'a>(text: &[u8], tokens: &'a [Token]) -> Read<'a, TagDefault>
    requires tokens { AreTokens text.now tokens.now }
    ensures read { ReadsAs (λ x. x) tag_word_at text.now tokens.now result }
    ensures rest { IfOk result (λ x. AreTokens text.now x.1.now) }
{
    match tokens {
        [word!(Explicit), rest @ ..] => Ok((TagDefault::Explicit, rest)),
        [word!(Implicit), rest @ ..] => Ok((TagDefault::Implicit, rest)),
        [word!(Automatic), rest @ ..] => Ok((TagDefault::Automatic, rest)),
        _ => Err(ReadError::Unexpected(tokens.len())),
    }
}

/// Reads a tag default (X.680, clause 13.2).
#[tactic(auto, unfolding(crate::specs::HeadingReading::default_words_at, grammar::specs::Single::tags_at))]
fn default_words<'a>(text: &[u8], tokens: &'a [Token]) -> Read<'a, TagDefault>
    requires tokens { AreTokens text.now tokens.now }
    ensures read { ReadsAs (λ x. x) default_words_at text.now tokens.now result }
    ensures rest { IfOk result (λ x. AreTokens text.now x.1.now) }
{
    let (tag_default, rest) = tag_word(text, tokens)?;
    match rest {
        [word!(Tags), rest @ ..] => Ok((tag_default, rest)),
        _ => Err(ReadError::Unexpected(rest.len())),
    }
}

/// Reads a module's tag default, which is explicit if none is written.
#[tactic(auto, unfolding(crate::specs::HeadReading::tag_default_at))]
pub fn tag_default<'a>(text: &[u8], tokens: &'a [Token]) -> Read<'a, TagDefault>
    requires tokens { AreTokens text.now tokens.now }
    ensures read { ReadsAs (λ x. x) tag_default_at text.now tokens.now result }
    ensures rest { IfOk result (λ x. AreTokens text.now x.1.now) }
{
    match tokens {
        [word!(Explicit | Implicit | Automatic), ..] => default_words(text, tokens),
        _ => Ok((TagDefault::Explicit, tokens)),
    }
}

/// The tokens after a semicolon.
#[tactic(auto, unfolding(crate::specs::HeadingReading::semicolon_at))]
pub fn semicolon<'a>(text: &[u8], tokens: &'a [Token]) -> Result<&'a [Token], ReadError>
    requires tokens { AreTokens text.now tokens.now }
    ensures read { SkipsAs semicolon_at text.now tokens.now result }
    ensures rest { IfOk result (λ x. AreTokens text.now x.now) }
{
    match tokens {
        [mark!(Semicolon), rest @ ..] => Ok(rest),
        _ => Err(ReadError::Unexpected(tokens.len())),
    }
}

/// A name, as a part of a list.
struct OneSymbol;

impl<'t> Parser<'t> for OneSymbol {
    ghost use Rattle.grammar.specs.Short.{Short};
    ghost use Rattle.trees.specs.Values.{Name, name_at};
    ghost use Rattle.module_head.specs.HeadingReading.{symbol_at};

    type Tree = At<String>;

    ghost Shape = { Name };

    ghost view = { name_at };

    ghost reader = { λ s. symbol_at };

    ghost is_ready = { λ s x. Short symbol_at };

    ghost is_short = { λ s x r. r };

    #[tactic(auto, unfolding(crate::specs::HeadingReading::symbol_at))]
    fn read(&self, alloc: Global, text: &[u8], tokens: &'t [Token]) -> Read<'t, At<String>> {
        match tokens {
            [name @ kind!(TypeReference | Identifier), rest @ ..] => Ok((
                name_at(alloc, text, *name)?,
                rest,
            )),
            _ => Err(ReadError::Unexpected(tokens.len())),
        }
    }
}

/// Reads names with commas between them.
#[tactic(auto, using(crate::proofs::Headings::symbol_short))]
pub fn symbols<'a>(alloc: Global, text: &[u8], tokens: &'a [Token]) -> Read<'a, Vec<At<String>>>
    requires tokens { AreTokens text.now tokens.now }
    ensures read { ReadsAs (λ x. map name_at x.items) (listed_at symbol_at) text.now tokens.now result }
    ensures rest { IfOk result (λ x. AreTokens text.now x.1.now) }
{
    CommaList { part: OneSymbol }.read(alloc, text, tokens)
}

/// Reads the names that are exported, and the semicolon.
#[tactic(auto, unfolding(crate::specs::HeadingReading::some_exports_at))]
fn some_exports<'a>(
    alloc: Global,
    text: &[u8],
    tokens: &'a [Token],
) -> Read<'a, Option<Vec<At<String>>>>
    requires tokens { AreTokens text.now tokens.now }
    ensures read { ReadsAs (option_map (λ xs. map name_at xs.items)) some_exports_at
        text.now tokens.now result }
    ensures rest { IfOk result (λ x. AreTokens text.now x.1.now) }
{
    let (names, rest) = symbols(alloc, text, tokens)?;
    Ok((Some(names), semicolon(text, rest)?))
}

/// Reads what comes after `EXPORTS`.
#[tactic(auto, unfolding(crate::specs::HeadingReading::exported_at, crate::specs::HeadingReading::all_exports_at, crate::specs::HeadingReading::no_exports_at))]
fn exported<'a>(
    alloc: Global,
    text: &[u8],
    tokens: &'a [Token],
) -> Read<'a, Option<Vec<At<String>>>>
    requires tokens { AreTokens text.now tokens.now }
    ensures read { ReadsAs (option_map (λ xs. map name_at xs.items)) exported_at text.now tokens.now result }
    ensures rest { IfOk result (λ x. AreTokens text.now x.1.now) }
{
    match tokens {
        [word!(All), rest @ ..] => Ok((None, semicolon(text, rest)?)),
        [kind!(TypeReference | Identifier), ..] => some_exports(alloc, text, tokens),
        _ => Ok((Some(Vec::new(alloc)), semicolon(text, tokens)?)),
    }
}

/// Reads the names that are exported (X.680, clause 13.7); None if there is no `EXPORTS`, or if `ALL` follows it.
#[tactic(auto, unfolding(crate::specs::HeadReading::export_list_at, crate::specs::HeadingReading::exports_at))]
pub fn export_list<'a>(
    alloc: Global,
    text: &[u8],
    tokens: &'a [Token],
) -> Read<'a, Option<Vec<At<String>>>>
    requires tokens { AreTokens text.now tokens.now }
    ensures read { ReadsAs (option_map (λ xs. map name_at xs.items)) export_list_at
        text.now tokens.now result }
    ensures rest { IfOk result (λ x. AreTokens text.now x.1.now) }
{
    match tokens {
        [word!(Exports), rest @ ..] => exported(alloc, text, rest),
        _ => Ok((None, tokens)),
    }
}
