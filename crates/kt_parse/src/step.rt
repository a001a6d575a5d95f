//! One step of reading.
ghost use Rattle.std.specs.Prelude.{◌≡◌, ◌<◌, not, length, is_some, slice_get, IsTrue, OnOk, OnErr};
ghost use Rattle.kt_tree.specs.Derives as spec;
ghost use Rattle.kt_tree.specs.Classes.{class_at, stands_for};
ghost use Rattle.kt_parse.specs.Engine as engine;
ghost use Rattle.kt_tree.specs.declared.grammar.fault.ParseFault.TheVariants.{NoMemory};

use crate::make::{add, make, target, token};
use kt_grammar::{same_terminal, stands_for};
use kt_tree::Tokens;
use kt_tree::grammar::{Class, Form, ParseFault, State, Step, Terminal};
use std::alloc::Global;

/// How many parts that count for the depth may be open.
const MAX_DEPTH: u32 = 700;

/// The fault at the next token.
pub fn misfit(state: &State) -> ParseFault
    ensures { result ≡ spec.misfit state.now }
{
    if state.high {
        ParseFault::TooDeep { token: state.at }
    } else {
        ParseFault::Syntax { token: state.at }
    }
}

/// Whether there is a token at this place.
fn is_there(tokens: &Tokens, at: u32) -> bool
    ensures value { result ≡ is_some (slice_get tokens.now.list at) }
    ensures within { IsTrue result → at < length tokens.now.list }
{
    tokens.list.get(at as usize).is_some()
}

/// Whether the token at this place, of this class, is the expected one.
fn is_at(tokens: &Tokens, class: Class, at: u32, expected: Terminal) -> bool
    requires { class ≡ class_at tokens.now at }
    ensures value { result ≡ spec.is_at tokens.now at expected }
    ensures within { IsTrue result → at < length tokens.now.list }
{
    is_there(tokens, at) && stands_for(expected, class.terminal)
}

/// Whether a statement may end before a token of this class.
fn is_separated(class: Class) -> bool
    ensures { result ≡ engine.ends_statement class }
{
    class.fresh
        || same_terminal(class.terminal, Terminal::Semicolon)
        || same_terminal(class.terminal, Terminal::CloseBrace)
}

fn take(
    tokens: &Tokens,
    class: Class,
    expected: Terminal,
    state: &mut State,
) -> Result<(), ParseFault>
    requires { class ≡ class_at tokens.now state.old.at }
    ensures { engine.Does (spec.passed (spec.is_at tokens.now state.old.at expected) state.old (spec.moved state.old)) result state.new }
{
    if is_at(tokens, class, state.at, expected) && !state.high {
        state.at += 1;
        return Ok(());
    }
    Err(misfit(state))
}

/// Keeps the next token as a phrase. There is one.
fn keep_token(alloc: Global, state: &mut State) -> Result<(), ParseFault>
    requires { state.old.at < 1048577 }
    ensures ok { OnOk result (state.new ≡ spec.kept state.old) }
    ensures err { OnErr result (result ≡ Err NoMemory) }
{
    state.values.push(token(alloc, state.at))?;
    state.at += 1;
    Ok(())
}

fn keep(
    alloc: Global,
    tokens: &Tokens,
    class: Class,
    expected: Terminal,
    state: &mut State,
) -> Result<(), ParseFault>
    requires { class ≡ class_at tokens.now state.old.at }
    ensures { engine.Does (spec.passed (spec.is_at tokens.now state.old.at expected) state.old (spec.kept state.old)) result state.new }
{
    if is_at(tokens, class, state.at, expected) && !state.high {
        return keep_token(alloc, state);
    }
    Err(misfit(state))
}

fn keep_chosen(alloc: Global, tokens: &Tokens, state: &mut State) -> Result<(), ParseFault>
    ensures { engine.Does (spec.passed (is_some (slice_get tokens.now.list state.old.at)) state.old (spec.kept state.old)) result state.new }
{
    if is_there(tokens, state.at) && !state.high {
        return keep_token(alloc, state);
    }
    Err(misfit(state))
}

fn separated(class: Class, state: &State) -> Result<(), ParseFault>
    ensures { engine.Does (spec.passed (engine.ends_statement class) state.now state.now) result state.now }
{
    if is_separated(class) && !state.high {
        return Ok(());
    }
    Err(misfit(state))
}

fn exclude(class: Class, excluded: Terminal, state: &State) -> Result<(), ParseFault>
    ensures { engine.Does (spec.passed (not (stands_for excluded class.terminal)) state.now state.now) result state.now }
{
    if !stands_for(excluded, class.terminal) && !state.high {
        return Ok(());
    }
    Err(misfit(state))
}

fn enter(state: &mut State) -> Result<(), ParseFault>
    ensures { engine.Does (spec.enter state.old) result state.new }
{
    if state.depth < MAX_DEPTH {
        state.depth += 1;
        Ok(())
    } else {
        Err(ParseFault::TooDeep { token: state.at })
    }
}

fn make_phrase(form: Form, count: usize, state: &mut State) -> Result<(), ParseFault>
    ensures { engine.Does (Ok (spec.made form count state.old)) result state.new }
{
    make(state, form, count)?;
    Ok(())
}

fn add_part(state: &mut State) -> Result<(), ParseFault>
    ensures { engine.Does (Ok (record state.old { values = spec.added state.old.at state.old.values })) result state.new }
{
    let at = state.at;
    add(&mut state.values, at)?;
    Ok(())
}

fn make_target(state: &mut State) -> Result<(), ParseFault>
    ensures { engine.Does (Ok (spec.as_target state.old.values state.old)) result state.new }
{
    target(state)?;
    Ok(())
}

/// Does one step before the next token, which is of this class.
#[tactic(auto, unfolding(kt_tree::specs::Derives::does))]
pub fn do_step(
    alloc: Global,
    tokens: &Tokens,
    class: Class,
    step: Step,
    state: &mut State,
) -> Result<(), ParseFault>
    requires { class ≡ class_at tokens.now state.old.at }
    ensures { engine.Does (spec.does tokens.now step state.old) result state.new }
{
    match step {
        Step::Take(expected) => take(tokens, class, expected, state),
        Step::Keep(expected) => keep(alloc, tokens, class, expected, state),
        Step::KeepChosen => keep_chosen(alloc, tokens, state),
        Step::Separated => separated(class, state),
        Step::Exclude(excluded) => exclude(class, excluded, state),
        Step::Enter => enter(state),
        Step::Leave => {
            state.depth = state.depth.saturating_sub(1);
            Ok(())
        }
        Step::Make(form, count) => make_phrase(form, count, state),
        Step::Add => add_part(state),
        Step::Target => make_target(state),
    }
}

/// Whether the step takes no token.
pub fn is_silent(step: Step) -> bool
    ensures { result ≡ engine.is_silent step }
{
    !matches!(step, Step::Take(_) | Step::Keep(_) | Step::KeepChosen)
}
