//! The scanner.
ghost use Rattle.std.specs.Prelude.{◌≡◌, ◌≤◌, ◌<◌, ◌+◌, ◌-◌, ◌⊎◌, ◌++◌, ◌∷◌, [], List, true, length, map, option_map, Err, IfOk, IfErr, OnOk, MatchResult};
ghost use Rattle.std.specs.List.{list_all};
ghost use Rattle.std.specs.Str.{chars};
ghost use Rattle.kt_tree.specs.Brackets as brackets;
ghost use Rattle.kt_tree.specs.BuiltIn.{built_in};
ghost use Rattle.kt_tree.specs.Numbering.{kind_of, with_name, AreNumbered, HasTokens};
ghost use Rattle.kt_tree.specs.Sources.{source_text};
ghost use Rattle.kt_tree.specs.Tokens.{Lexed, AreTokens, IsBadPlace};
ghost use Rattle.kt_tree.specs.declared.token.Span.{Span};
ghost use Rattle.kt_lex.specs.Faults.{IsFault, is_inner, quote_or};
ghost use Rattle.kt_lex.specs.Opened.{bracket_of, bounds};
ghost use Rattle.kt_lex.specs.Reading.{lexeme_of};

use crate::brackets::{Bracket, after, counts_lines, open_quote};
use crate::fault::LexFault;
use crate::moves::{Move, next_move};
use crate::numbering::kind_of;
use crate::words::Word;
use kt_tree::text::{after_first, without_mark};
use kt_tree::{Kind, Names, NoMemory, Source, Span, Token, Tokens};
use sqlite_items::Items;
use std::alloc::Global;

/// The tokens of the source, with the numbers of their names. `Bad` where no token can be formed, and nowhere else;
/// `NoMemory` where none is left.
pub fn lex(alloc: Global, source: &Source) -> Result<Tokens, LexFault>
    // What is given are the tokens of the text.
    ensures tokens { IfOk result (HasTokens (chars (source_text source.now))) }
    // A place is named only where no token can be formed.
    ensures bad { (span : Span) → result ≡ Err (LexFault.Bad span) → IsBadPlace (chars (source_text source.now)) span.start span.end }

    // Where the text has tokens they are given, unless memory runs out.
    ensures only_tokens { (ts : List Lexed) → AreTokens (chars (source_text source.now)) ts
        → MatchResult result (AreNumbered built_in ts) (λ e. e ≡ LexFault.NoMemory) }
    // Where it has a bad place that is named, unless memory runs out.
    ensures only_bad { (span : Span) → IsBadPlace (chars (source_text source.now)) span.start span.end
        → (result ≡ Err (LexFault.Bad span)) ⊎ (result ≡ Err LexFault.NoMemory) }
{
    scan(alloc, source.text())
}

/// The tokens of the text.
fn scan(alloc: Global, text: &str) -> Result<Tokens, LexFault>
    requires { length text.now ≤ 1048576 }
    ensures tokens { IfOk result (HasTokens (chars text.now)) }
    ensures bad { IfErr result (IsFault (chars text.now)) }
{
    let mut names = Names::with_built_in(alloc)?;
    let mut list = Items::new(alloc);
    let mut stack = Vec::new(alloc);
    let mut fresh = false;
    let mut rest = without_mark(text);
    'moves: loop {
        match next_move(alloc, &stack, rest) {
            Ok(Move::Skip(line, next)) => {
                fresh = fresh | line;
                rest = next;
                continue;
            }
            Ok(Move::Take(word, next)) => {
                let span = span_of(text, rest, next);
                let counts = fresh & counts_lines(&stack);
                after_word(&mut stack, &word, span)?;
                push(alloc, &mut list, &mut names, word, span, counts)?;
                fresh = false;
                rest = next;
                continue;
            }
            Ok(Move::Stop) => {
                if let Some(span) = open_quote(&stack) {
                    return Err(LexFault::Bad { span });
                }
                let counts = fresh & counts_lines(&stack);
                return Ok(finish(list, names, span_of(text, rest, rest), counts)?);
            }
            Ok(Move::Unclosed) => {
                let here = span_of(text, rest, after_first(rest));
                return Err(LexFault::Bad {
                    span: unclosed(&stack, here),
                });
            }
            Ok(Move::Bad) => {
                return Err(LexFault::Bad {
                    span: span_of(text, rest, after_first(rest)),
                });
            }
            Err(_) => return Err(LexFault::NoMemory),
        }
    }
}

/// The span from where `rest` begins to where `next` begins.
fn span_of(text: &str, rest: &str, next: &str) -> Span
    requires small { length text.now ≤ 1048576 }
    requires rest { length rest.now ≤ length text.now }
    requires next { length next.now ≤ length text.now }
    ensures start { result.start ≡ length text.now - length rest.now }
    ensures end { result.end ≡ length text.now - length next.now }
{
    Span {
        start: (text.len() - rest.len()) as u32,
        end: (text.len() - next.len()) as u32,
    }
}

/// Opens or closes a bracket, if the token is one.
fn after_word(stack: &mut Vec<Bracket>, word: &Word, span: Span) -> Result<(), NoMemory>
    ensures { OnOk result (map bracket_of stack.new.items
        ≡ brackets.brackets_after (lexeme_of word.now) span.start span.end (map bracket_of stack.old.items)) }
{
    match word {
        Word::Fixed(kind) => after(stack, kind, span),
        _ => Ok(()),
    }
}

/// Adds the token, with its name's number.
fn push(
    alloc: Global,
    list: &mut Items<Token>,
    names: &mut Names,
    word: Word<'_>,
    span: Span,
    fresh: bool,
) -> Result<(), NoMemory>
    requires { length names.old < 4294967295 }
    ensures list { OnOk result (list.new ≡ list.old ++ record { kind = kind_of names.old (lexeme_of word.entry); span = span; fresh = fresh } ∷ []) }
    ensures names { OnOk result (names.new ≡ with_name names.old (lexeme_of word.entry)) }
    ensures len { OnOk result (length names.new ≤ length names.old + 1) }
{
    let kind = kind_of(alloc, names, word)?;
    list.push(Token { kind, span, fresh })?;
    Ok(())
}

/// The tokens with the end of the file, which none of them is.
fn finish(list: Items<Token>, names: Names, span: Span, fresh: bool) -> Result<Tokens, NoMemory>
    requires few { length list ≤ 1048576 }
    requires inner { list_all is_inner list ≡ true }
    ensures list { IfOk result (λ t. t.list ≡ list ++ record { kind = Kind.End; span = span; fresh = fresh } ∷ []) }
    ensures names { IfOk result (λ t. t.names ≡ names) }
{
    let mut list = list;
    list.push(Token {
        kind: Kind::End,
        span,
        fresh,
    })?;
    Ok(Tokens { list, names })
}

/// The quote of the innermost string that is open, or else this.
fn unclosed(stack: &[Bracket], here: Span) -> Span
    ensures { bounds result ≡ quote_or (bounds here) (brackets.open_quote (map bracket_of stack.now)) }
{
    match open_quote(stack) {
        Some(span) => span,
        None => here,
    }
}
