//! The file that tokens are.

ghost use Rattle.kt_tree.specs.Derives.{Derives};
ghost use Rattle.kt_parse.specs.Parsed.{Parsed, OnlyParsed};

use crate::engine::read;
use kt_build::file;
use kt_tree::ast::File;
use kt_tree::grammar::{ParseFault, Phrase};
use kt_tree::{NoMemory, Tokens};
use std::alloc::Global;

/// The file of the phrase that the tokens derive.
fn file_of_phrase(alloc: Global, tokens: &Tokens, phrase: &Phrase) -> Result<File, ParseFault>
    requires { Derives tokens.now phrase.now }
    ensures { Parsed tokens.now result }
{
    match file(alloc, tokens, phrase) {
        Ok(file) => Ok(file),
        Err(NoMemory) => Err(ParseFault::NoMemory),
    }
}

/// The file that the tokens are.
fn file_of_tokens(alloc: Global, tokens: &Tokens) -> Result<File, ParseFault>
    ensures { Parsed tokens.now result }
{
    match read(alloc, tokens) {
        Ok(phrase) => file_of_phrase(alloc, tokens, &phrase),
        Err(fault) => Err(fault),
    }
}

/// The file that the tokens are, exactly where they derive one and nothing in it is too deep: its classes and its functions, whose trees are
/// numbered from 1 in preorder, and the tokens' names. Else `Syntax` at the first token that no row and no expected terminal fits, or
/// `TooDeep` at the first one that stands right behind a tree of height 201 or would begin the 701st open part; or `NoMemory`.
pub fn parse(alloc: Global, tokens: &Tokens) -> Result<File, ParseFault>
    ensures answer { Parsed tokens.now result }
    ensures only { OnlyParsed tokens.now result }
{
    file_of_tokens(alloc, tokens)
}
