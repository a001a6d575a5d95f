//! The trees of whole phrases, and the file that a phrase is.
ghost use Rattle.std.specs.Prelude.{◌≡◌, ◌++◌, map, OnOk};
ghost use Rattle.kt_tree.specs.Trees as trees;

use crate::build::assembled;
use kt_grammar::is_tree;
use kt_parts::Queue;
use kt_tree::Tokens;
use kt_tree::grammar::{Built, Form, Phrase};
use std::alloc::{AllocError, Global};

/// Whether a phrase of this form is a list, whose parts stand for themselves.
fn is_list(form: Form) -> bool
    ensures { result ≡ trees.is_list form }
{
    matches!(form, Form::List)
}

/// The number after this one, which stands still at the end of its type.
fn after(number: u32) -> u32
    ensures { result ≡ trees.after number }
{
    number.saturating_add(1)
}

/// The number of the first tree inside a phrase of this form.
fn inside(form: Form, number: u32) -> u32
    ensures { result ≡ trees.inside form number }
{
    if is_tree(form) { after(number) } else { number }
}

/// Puts what the phrase is made into at the end of `made`. Its trees are numbered in preorder from `next`, which is then the number after
/// them. AllocError where there is no memory for the trees.
#[cycle(build)]
pub fn build(
    alloc: Global,
    tokens: &Tokens,
    phrase: &Phrase,
    next: &mut u32,
    made: &mut Queue<Built>,
) -> Result<(), AllocError>
    ensures made { OnOk result (made.new ≡ made.old ++ (trees.built tokens.now phrase.now next.old).0) }
    ensures next { OnOk result (next.new ≡ (trees.built tokens.now phrase.now next.old).1) }
{
    let number = *next;
    *next = inside(phrase.form, number);
    if is_list(phrase.form) {
        made.push(Built::Count(phrase.parts.len()))?;
        return build_all(alloc, tokens, phrase.parts.as_slice(), next, made);
    }
    let mut parts = Queue::new(alloc);
    build_all(alloc, tokens, phrase.parts.as_slice(), next, &mut parts)?;
    let whole = assembled(alloc, tokens, phrase, number, parts)?;
    made.push(whole)
}

/// Puts what the phrases are made into at the end of `made`, one behind another.
#[cycle(build)]
fn build_all(
    alloc: Global,
    tokens: &Tokens,
    phrases: &[Phrase],
    next: &mut u32,
    made: &mut Queue<Built>,
) -> Result<(), AllocError>
    ensures made { OnOk result (made.new ≡ made.old ++ (trees.all_built (map (trees.built tokens.now) phrases.now) next.old).0) }
    ensures next { OnOk result (next.new ≡ (trees.all_built (map (trees.built tokens.now) phrases.now) next.old).1) }
{
    for phrase in phrases {
        build(alloc, tokens, phrase, next, made)?;
    }
    Ok(())
}
