//! Reads texts as modules.

ghost use Rattle.std.specs.Prelude.{IfOk, IfErr, map};
ghost use Rattle.std.specs.List.{AllZip};
ghost use Rattle.trees.specs.Modules.{module_tree_of};
ghost use Rattle.front_end.specs.Accepted.{IsModule, octets_of};
ghost use Rattle.front_end.specs.Faults.{IsRightCompileError};
ghost use Rattle.front_end.specs.proving.Steps.{IsRefusedAt, IsUnreadAt};
ghost use Rattle.parser_combinators.specs.Given.{IsLexed};

use crate::fault::CompileError;
use notation::SyntaxFault;
use std::alloc::Global;
use syntax::{Module, parse};
use text::{LexFault, Token};

/// The tokens of a text; `number` is that of the text.
fn tokens_of(alloc: Global, text: &[u8], number: usize) -> Result<Vec<Token>, CompileError>
    ensures tokens { IfOk result (λ ts. IsLexed text.now ts.items) }
    ensures fault { IfErr result (IsUnreadAt number text.now) }
{
    match text::lex(alloc, text) {
        Ok(tokens) => Ok(tokens),
        Err(LexFault::Memory) => Err(CompileError::Memory),
        Err(fault) => Err(CompileError::Text(number, fault)),
    }
}

/// The module that a text is; `number` is that of the text.
fn module_of(alloc: Global, text: &[u8], number: usize) -> Result<Module, CompileError>
    ensures module { IfOk result (λ m. IsModule text.now (module_tree_of m)) }
    ensures fault { IfErr result (IsRefusedAt number text.now) }
{
    let tokens = match tokens_of(alloc, text, number) {
        Ok(tokens) => tokens,
        Err(fault) => return Err(fault),
    };
    match parse(alloc, text, tokens.as_slice()) {
        Ok(module) => Ok(module),
        Err(SyntaxFault::Memory) => Err(CompileError::Memory),
        Err(fault) => Err(CompileError::Tree(number, fault)),
    }
}

/// The modules that texts are, or the fault of the first text that isn't a module.
pub(crate) fn modules_of(alloc: Global, texts: &[Vec<u8>]) -> Result<Vec<Module>, CompileError>
    ensures modules { IfOk result (λ ms. AllZip IsModule (map octets_of texts.now) (map module_tree_of ms.items)) }
    ensures fault { IfErr result (IsRightCompileError (map octets_of texts.now)) }
{
    let mut modules = Vec::new(alloc);
    for number in 0..texts.len() {
        match module_of(alloc, texts[number].as_slice(), number) {
            Ok(module) => modules.push(module)?,
            Err(fault) => return Err(fault),
        }
    }
    Ok(modules)
}
