//! Reading a module's head.

ghost use Rattle.std.specs.Prelude.{IfOk};
ghost use Rattle.grammar.specs.Places.{small};
ghost use Rattle.grammar.specs.Single.{assign_at};
ghost use Rattle.parser_combinators.specs.Reads.{ReadsAs, SkipsAs};
ghost use Rattle.parser_combinators.specs.Given.{AreTokens};
ghost use Rattle.trees.specs.Values.{name_at};
ghost use Rattle.module_head.specs.HeadReading.{begun_at, heading_at, head_at, head_tree_of};

use crate::heading::{export_list, tag_default};
use crate::importing::{import_list, module_ref};
use parser_combinators::{Read, ReadError};
use std::alloc::Global;
use text::{Token, mark, word};
use trees::{At, Import, TagDefault};

/// What comes before a module's assignments (X.680, clause 13.1).
#[derive(Drop)]
pub struct ModuleHead {
    pub name: At<String>,
    pub tag_default: TagDefault,
    /// The names that other modules may import. None if the module has no list of exports: then all that it assigns is
    /// exported.
    pub exports: Option<Vec<At<String>>>,
    pub imports: Vec<Import>,
}

/// The tokens after `::=`.
#[tactic(auto, unfolding(grammar::specs::Single::assign_at))]
pub fn assign<'a>(text: &[u8], tokens: &'a [Token]) -> Result<&'a [Token], ReadError>
    requires tokens { AreTokens text.now tokens.now }
    ensures read { SkipsAs assign_at text.now tokens.now result }
    ensures rest { IfOk result (λ x. AreTokens text.now x.now) }
{
    match tokens {
        [mark!(Assign), rest @ ..] => Ok(rest),
        _ => Err(ReadError::Unexpected(tokens.len())),
    }
}

/// Reads what comes after `DEFINITIONS`, up to and with `BEGIN`.
#[tactic(auto, unfolding(crate::specs::HeadReading::begun_at, grammar::specs::Single::begin_at))]
fn begun<'a>(text: &[u8], tokens: &'a [Token]) -> Read<'a, TagDefault>
    requires tokens { AreTokens text.now tokens.now }
    ensures read { ReadsAs (λ x. x) begun_at text.now tokens.now result }
    ensures rest { IfOk result (λ x. AreTokens text.now x.1.now) }
{
    let (tag_default, rest) = tag_default(text, tokens)?;
    let rest = assign(text, rest)?;
    match rest {
        [word!(Begin), rest @ ..] => Ok((tag_default, rest)),
        _ => Err(ReadError::Unexpected(rest.len())),
    }
}

/// Reads a module's name and its tag default, up to and with `BEGIN`.
#[tactic(auto, unfolding(crate::specs::HeadReading::heading_at, grammar::specs::Single::definitions_at))]
fn heading<'a>(
    alloc: Global,
    text: &[u8],
    tokens: &'a [Token],
) -> Read<'a, (At<String>, TagDefault)>
    requires tokens { AreTokens text.now tokens.now }
    ensures read { ReadsAs (λ x. (name_at x.0, x.1)) (heading_at small) text.now tokens.now result }
    ensures rest { IfOk result (λ x. AreTokens text.now x.1.now) }
{
    let (name, rest) = module_ref(alloc, text, tokens)?;
    match rest {
        [word!(Definitions), rest @ ..] => {
            let (tag_default, rest) = begun(text, rest)?;
            Ok(((name, tag_default), rest))
        }
        _ => Err(ReadError::Unexpected(rest.len())),
    }
}

/// Reads a module's head, up to its first assignment.
#[tactic(auto, unfolding(crate::specs::HeadReading::head_at, crate::specs::HeadReading::exporting_at))]
pub fn head<'a>(alloc: Global, text: &[u8], tokens: &'a [Token]) -> Read<'a, ModuleHead>
    requires tokens { AreTokens text.now tokens.now }
    ensures read { ReadsAs head_tree_of (head_at small) text.now tokens.now result }
    ensures rest { IfOk result (λ x. AreTokens text.now x.1.now) }
{
    let ((name, tag_default), rest) = heading(alloc, text, tokens)?;
    let (exports, rest) = export_list(alloc, text, rest)?;
    let (imports, rest) = import_list(alloc, text, rest)?;
    Ok((
        ModuleHead {
            name,
            tag_default,
            exports,
            imports,
        },
        rest,
    ))
}
