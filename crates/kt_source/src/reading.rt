//! From bytes to a file.
ghost use Rattle.std.specs.Prelude.{◌≡◌};
ghost use Rattle.kt_tree.specs.Sources.{source_text};
ghost use Rattle.kt_source.specs.SourceRules as spec;
ghost use Rattle.kt_source.specs.SourceRules.{Reads, OnlyReads};
ghost use Rattle.kt_source.specs.Stages.{IsText, IsTokens, IsFileOf};

use crate::fault::SourceFault;
use kt_lex::{LexFault, lex};
use kt_model::finding::{Finding, Rule};
use kt_parse::{ParseFault, parse};
use kt_tree::ast::File;
use kt_tree::{Source, Span, Tokens};
use std::alloc::Global;
use std::str::from_utf8;

/// The most bytes that a source has.
const SOURCE_LIMIT: usize = 1048576;

/// The finding of a rule there.
fn refused(rule: Rule, span: Span) -> SourceFault
    ensures { result ≡ SourceFault.Refused (record { rule = rule; span = span }) }
{
    SourceFault::Refused(Finding { rule, span })
}

/// The source as a text.
fn text_of(alloc: Global, bytes: &[u8]) -> Result<Source, SourceFault>
    ensures { IsText bytes.now result }
{
    if bytes.len() > SOURCE_LIMIT {
        return Err(refused(Rule::SourceTooLong, Span { start: 0, end: 0 }));
    }
    match from_utf8(bytes) {
        Ok(_) => {
            let mut text = Vec::new(alloc);
            match text.extend_from_slice(bytes) {
                Ok(()) => Ok(Source::new(text)),
                Err(_) => Err(SourceFault::NoMemory),
            }
        }
        Err(error) => {
            let at = error.valid_up_to() as u32;
            Err(refused(Rule::NotUtf8, Span { start: at, end: at }))
        }
    }
}

/// The tokens of a text.
fn tokens_of(alloc: Global, text: &Source) -> Result<Tokens, SourceFault>
    ensures { IsTokens (source_text text.now) result }
{
    match lex(alloc, text) {
        Ok(tokens) => Ok(tokens),
        Err(LexFault::Bad { span }) => Err(refused(Rule::BadToken, span)),
        Err(LexFault::NoMemory) => Err(SourceFault::NoMemory),
    }
}

/// The span of a token by its number.
fn span_of_token(tokens: &Tokens, token: u32) -> Span
    ensures { result ≡ spec.span_of_token tokens.now token }
{
    match tokens.list.get(token as usize) {
        Some(token) => token.span,
        None => Span { start: 0, end: 0 },
    }
}

/// The file of tokens.
fn file_of(alloc: Global, tokens: &Tokens) -> Result<File, SourceFault>
    ensures { IsFileOf tokens.now result }
{
    match parse(alloc, tokens) {
        Ok(file) => Ok(file),
        Err(ParseFault::Syntax { token }) => {
            Err(refused(Rule::Syntax, span_of_token(tokens, token)))
        }
        Err(ParseFault::TooDeep { token }) => {
            Err(refused(Rule::TooDeep, span_of_token(tokens, token)))
        }
        Err(ParseFault::NoMemory) => Err(SourceFault::NoMemory),
    }
}

/// The file of a source, stage by stage.
fn read(alloc: Global, source: &[u8]) -> Result<File, SourceFault>
    ensures { Reads source.now result }
{
    let text = text_of(alloc, source)?;
    let tokens = tokens_of(alloc, &text)?;
    file_of(alloc, &tokens)
}

/// The file that the source is, exactly where it is one. Else `Refused` with the one finding: SOURCE_TOO_LONG past 1,048,576 bytes, NOT_UTF8, BAD_TOKEN,
/// SYNTAX or TOO_DEEP, its span in bytes from 0; or `NoMemory`.
pub fn read_source(alloc: Global, source: &[u8]) -> Result<File, SourceFault>
    ensures answer { Reads source.now result }
    ensures only { OnlyReads source.now result }
{
    read(alloc, source)
}
