//! Making phrases of those that were read.
ghost use Rattle.std.specs.Prelude.{◌≡◌, ◌<◌, ◌+◌, [], OnOk, IfOk};
ghost use Rattle.kt_tree.specs.Derives as spec;
ghost use Rattle.kt_tree.specs.declared.grammar.phrase.Form.TheVariants as form;
ghost use Rattle.kt_tree.specs.declared.grammar.phrase.Form.TheVariants as form;

use kt_grammar::is_tree;
use kt_tree::grammar::{Form, Phrase, State, Values};
use sqlite_items::Items;
use std::alloc::{AllocError, Global};

/// The greatest height of a tree.
const MAX_HEIGHT: u32 = 200;

/// Whether a phrase of this form may be assigned, and is then no tree.
fn is_place(form: Form) -> bool
    ensures { result ≡ spec.is_place form }
{
    matches!(form, Form::Name | Form::Member)
}

/// What a phrase of this form is where it is assigned.
fn target_form(form: Form) -> Form
    ensures { result ≡ spec.target_form form }
{
    match form {
        Form::Name => Form::NameTarget,
        Form::Member => Form::MemberTarget,
        _ => form,
    }
}

/// The greatest height of the phrases.
fn tallest(parts: &[Phrase]) -> u32
    ensures { result ≡ spec.tallest parts.now }
{
    let mut height = 0;
    for part in parts {
        height = height.max(part.height);
    }
    height
}

/// One more; above 200 one height is as another.
fn grown(height: u32) -> u32
    ensures { result ≡ spec.grown height }
{
    if height <= MAX_HEIGHT {
        height + 1
    } else {
        height
    }
}

/// The height of a phrase of this form with these parts.
fn height_as(form: Form, parts: &[Phrase]) -> u32
    ensures { result ≡ spec.height_as form parts.now }
{
    if is_tree(form) {
        grown(tallest(parts))
    } else {
        tallest(parts)
    }
}

/// The place of the first token of the parts.
fn begin_of(parts: &[Phrase], at: u32) -> u32
    ensures { result ≡ spec.begin_of parts.now at }
{
    match parts.first() {
        Some(part) => part.first,
        None => at,
    }
}

/// Makes one phrase of the last `count` ones.
pub fn make(state: &mut State, form: Form, count: usize) -> Result<(), AllocError>
    ensures { OnOk result (state.new ≡ spec.made form count state.old) }
{
    let parts = state.values.pop_many(count)?;
    let height = height_as(form, parts.as_slice());
    let first = begin_of(parts.as_slice(), state.at);
    state.high = height > MAX_HEIGHT || state.high;
    state.values.push(Phrase {
        form,
        first,
        last: state.at,
        height,
        parts,
    })
}

/// The list with one more part, which ends at this place.
fn with_part(at: u32, list: Phrase, part: Phrase) -> Result<Phrase, AllocError>
    ensures { IfOk result (λ p. p ≡ spec.with_part at list part) }
{
    let height = list.height.max(part.height);
    let Phrase {
        form,
        first,
        mut parts,
        ..
    } = list;
    parts.push(part)?;
    Ok(Phrase {
        form,
        first,
        last: at,
        height,
        parts,
    })
}

/// Puts the last phrase into the one before it.
pub fn add(values: &mut Values<Phrase>, at: u32) -> Result<(), AllocError>
    ensures { OnOk result (values.new ≡ spec.added at values.old) }
{
    let Some(part) = values.pop() else {
        return Ok(());
    };
    match values.pop() {
        Some(list) => values.push(with_part(at, list, part)?),
        None => values.push(part),
    }
}

/// Makes the last phrase what is assigned.
pub fn target(state: &mut State) -> Result<(), AllocError>
    ensures { OnOk result (state.new ≡ spec.as_target state.old.values state.old) }
{
    let Some(last) = state.values.pop() else {
        return Ok(());
    };
    if !is_place(last.form) {
        return state.values.push(last);
    }
    state.high = false;
    let height = tallest(last.parts.as_slice());
    state.values.push(Phrase {
        form: target_form(last.form),
        height,
        ..last
    })
}

/// The token at this place as a phrase.
pub fn token(alloc: Global, at: u32) -> Phrase
    requires { at < 4294967295 }
    ensures { result ≡ spec.phrase form.Token at (at + 1) 0 [] }
{
    Phrase {
        form: Form::Token,
        first: at,
        last: at + 1,
        height: 0,
        parts: Items::new(alloc),
    }
}
