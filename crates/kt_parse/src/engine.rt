//! The engine: a stack of symbols that are still to be read, and a stack of phrases that were read.
ghost use Rattle.std.specs.Prelude.{◌≡◌, ◌∷◌, ◌+◌, ◌<◌, ◌≤◌, length, true, false, OnOk};
ghost use Rattle.kt_tree.specs.Classes.{class_at};
ghost use Rattle.kt_tree.specs.Derives as spec;
ghost use Rattle.kt_parse.specs.Engine as engine;
ghost use Rattle.kt_parse.specs.Engine.{Goes, Settles, Finishes};
ghost use Rattle.kt_parse.specs.Reach.{reach};
ghost use Rattle.kt_tree.specs.declared.grammar.production.Symbol.TheVariants.{Do, Part};

use crate::pending::push_all;
use crate::release::let_go;
use crate::step::{do_step, is_silent, misfit};
use kt_grammar::{class_of, expansion};
use kt_tree::Tokens;
use kt_tree::grammar::{Class, Form, Nonterminal, ParseFault, Phrase, State, Step, Symbol, Values};
use sqlite_items::Items;
use std::alloc::Global;

/// Puts what stands in a nonterminal's place before the next token, which is of this class, onto the symbols.
fn open(
    tokens: &Tokens,
    class: Class,
    nonterminal: Nonterminal,
    pending: &mut Values<Symbol>,
    state: &State,
) -> Result<(), ParseFault>
    requires { class ≡ class_at tokens.now state.now.at }
    ensures goes { Goes tokens.now (Part nonterminal ∷ pending.old) state.now result pending.new state.now }
    ensures less { OnOk result (reach pending.new < reach (Part nonterminal ∷ pending.old)) }
{
    match expansion(nonterminal, class) {
        Some(symbols) => {
            push_all(pending, symbols)?;
            Ok(())
        }
        None => Err(misfit(state)),
    }
}

/// Does a step that takes no token.
fn silent(
    alloc: Global,
    tokens: &Tokens,
    class: Class,
    step: Step,
    pending: &Values<Symbol>,
    state: &mut State,
) -> Result<(), ParseFault>
    requires class { class ≡ class_at tokens.now state.old.at }
    requires silent { engine.is_silent step ≡ true }
    ensures goes { Goes tokens.now (Do step ∷ pending.now) state.old result pending.now state.new }
    ensures place { OnOk result (state.new.at ≡ state.old.at) }
{
    do_step(alloc, tokens, class, step, state)
}

/// Takes the token of a step that takes one.
fn taking(
    alloc: Global,
    tokens: &Tokens,
    class: Class,
    step: Step,
    pending: &Values<Symbol>,
    state: &mut State,
) -> Result<(), ParseFault>
    requires class { class ≡ class_at tokens.now state.old.at }
    requires takes { engine.is_silent step ≡ false }
    ensures goes { Goes tokens.now (Do step ∷ pending.now) state.old result pending.now state.new }
    ensures place { OnOk result ((state.new.at ≡ state.old.at + 1) × (state.old.at < length tokens.now.list)) }
{
    do_step(alloc, tokens, class, step, state)
}

/// Goes on until the next symbol takes a token, and answers it, or None where no symbol is left.
fn settle(
    alloc: Global,
    tokens: &Tokens,
    class: Class,
    pending: &mut Values<Symbol>,
    state: &mut State,
) -> Result<Option<Step>, ParseFault>
    requires { class ≡ class_at tokens.now state.old.at }
    ensures settles { Settles tokens.now pending.old state.old result pending.new state.new }
    ensures place { OnOk result (state.new.at ≡ state.old.at) }
{
    'symbols: while let Some(symbol) = pending.pop() {
        match symbol {
            Symbol::Do(step) => {
                if !is_silent(step) {
                    return Ok(Some(step));
                }
                silent(alloc, tokens, class, step, pending, state)?;
            }
            Symbol::Part(nonterminal) => open(tokens, class, nonterminal, pending, state)?,
        }
    }
    Ok(None)
}

/// Reads a whole file into a state in which nothing is read yet.
fn run(alloc: Global, tokens: &Tokens, state: &mut State) -> Result<(), ParseFault>
    requires { state.old ≡ spec.start }
    ensures { Finishes tokens.now result state.new }
{
    let mut pending = Values::new(alloc);
    pending.push(Symbol::Part(Nonterminal::File))?;
    'tokens: loop {
        let class = class_of(tokens, state.at as usize);
        match settle(alloc, tokens, class, &mut pending, state)? {
            Some(step) => taking(alloc, tokens, class, step, &pending, state)?,
            None => return Ok(()),
        }
    }
}

/// A state in which nothing is read yet.
fn start(alloc: Global) -> State
    ensures { result ≡ spec.start }
{
    State {
        at: 0,
        depth: 0,
        high: false,
        values: Values::new(alloc),
    }
}

/// The last phrase that was read.
fn last_of(alloc: Global, state: State) -> Phrase
    ensures { result ≡ spec.last_of state.values }
{
    let State { mut values, .. } = state;
    match values.pop() {
        Some(phrase) => phrase,
        None => Phrase {
            form: Form::Absent,
            first: 0,
            last: 0,
            height: 0,
            parts: Items::new(alloc),
        },
    }
}

/// The phrase that the tokens are.
fn phrase_of(alloc: Global, tokens: &Tokens) -> Result<Phrase, ParseFault>
    ensures { spec.Answers tokens.now result }
{
    let mut state = start(alloc);
    match run(alloc, tokens, &mut state) {
        Ok(()) => Ok(last_of(alloc, state)),
        Err(fault) => {
            let_go(state.values);
            Err(fault)
        }
    }
}

/// The phrase of all tokens, exactly where they derive one. Else `Syntax` at the first token that no row and no expected terminal fits, or
/// `TooDeep` at the first one that stands right after a tree of height 201 or would begin the 701st open part, exactly as the
/// definition says; or `NoMemory`.
pub fn read(alloc: Global, tokens: &Tokens) -> Result<Phrase, ParseFault>
    ensures answer { spec.Answers tokens.now result }
    ensures only { spec.Only tokens.now result }
{
    phrase_of(alloc, tokens)
}
