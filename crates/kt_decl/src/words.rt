//! The names that stand side by side: of a file's top, of a class's members, of parameters.
ghost use Rattle.std.specs.Prelude.{◌≡◌, ◌++◌, [], IfOk, OnOk, map};
ghost use Rattle.std.specs.List.{filter_map, cons_option};
ghost use Rattle.kt_model.specs.Sites.{parameters_of, declared_in, property_word, member_word, member_words, top_words};

use kt_tree::NoMemory;
use kt_tree::ast::{ClassDecl, ClassParameter, File, Ident, Member, Parameter};
use std::alloc::Global;

/// The parameters of a class's constructor; none where it has no list.
pub fn constructor_parameters(c: &ClassDecl) -> &[ClassParameter]
    ensures { result.now ≡ parameters_of c.now }
{
    match &c.parameters {
        Some(parameters) => parameters.as_slice(),
        None => &[],
    }
}

/// What stands in a class's braces; nothing where it has none.
pub fn class_body(c: &ClassDecl) -> &[Member]
    ensures { result.now ≡ declared_in c.now }
{
    match &c.members {
        Some(members) => members.as_slice(),
        None => &[],
    }
}

pub(crate) fn parameter_words(
    alloc: Global,
    parameters: &[Parameter],
) -> Result<Vec<Ident>, NoMemory>
    ensures { IfOk result (λ words. words.items ≡ map (λ p. p.name) parameters.now) }
{
    let mut words = Vec::new(alloc);
    for p in parameters {
        words.push(p.name)?;
    }
    Ok(words)
}

pub(crate) fn class_parameter_words(
    alloc: Global,
    parameters: &[ClassParameter],
) -> Result<Vec<Ident>, NoMemory>
    ensures { IfOk result (λ words. words.items ≡ map (λ p. p.name) parameters.now) }
{
    let mut words = Vec::new(alloc);
    for p in parameters {
        words.push(p.name)?;
    }
    Ok(words)
}

fn push_some(words: &mut Vec<Ident>, word: Option<Ident>) -> Result<(), NoMemory>
    ensures { OnOk result (words.new.items ≡ words.old.items ++ cons_option word []) }
{
    if let Some(word) = word {
        words.push(word)?;
    }
    Ok(())
}

fn word_of_property(p: &ClassParameter) -> Option<Ident>
    ensures { result ≡ property_word p.now }
{
    match p.is_var {
        Some(_) => Some(p.name),
        None => None,
    }
}

fn word_of_member(m: &Member) -> Option<Ident>
    ensures { result ≡ member_word m.now }
{
    match m {
        Member::Init(_) => None,
        Member::Function(f) => Some(f.name),
        Member::Property(p) => Some(p.name),
    }
}

fn push_properties(words: &mut Vec<Ident>, parameters: &[ClassParameter]) -> Result<(), NoMemory>
    ensures { OnOk result (words.new.items ≡ words.old.items ++ filter_map property_word parameters.now) }
{
    for p in parameters {
        push_some(words, word_of_property(p))?;
    }
    Ok(())
}

fn push_members(words: &mut Vec<Ident>, members: &[Member]) -> Result<(), NoMemory>
    ensures { OnOk result (words.new.items ≡ words.old.items ++ filter_map member_word members.now) }
{
    for m in members {
        push_some(words, word_of_member(m))?;
    }
    Ok(())
}

/// The names of a class's members.
#[tactic(auto, unfolding(kt_model::specs::Sites::member_words))]
pub(crate) fn words_of_members(alloc: Global, c: &ClassDecl) -> Result<Vec<Ident>, NoMemory>
    ensures { IfOk result (λ words. words.items ≡ member_words c.now) }
{
    let mut words = Vec::new(alloc);
    push_properties(&mut words, constructor_parameters(c))?;
    push_members(&mut words, class_body(c))?;
    Ok(words)
}

/// The names of a file's classes, and then of its functions.
#[tactic(auto, unfolding(kt_model::specs::Sites::top_words))]
pub(crate) fn words_of_top(alloc: Global, file: &File) -> Result<Vec<Ident>, NoMemory>
    ensures { IfOk result (λ words. words.items ≡ top_words file.now) }
{
    let mut words = Vec::new(alloc);
    for c in file.classes.as_slice() {
        words.push(c.name)?;
    }
    for f in file.functions.as_slice() {
        words.push(f.name)?;
    }
    Ok(words)
}
