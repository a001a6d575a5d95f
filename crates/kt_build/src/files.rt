//! The file that a phrase is.
ghost use Rattle.std.specs.Prelude.{◌≡◌, ◌++◌, [], IfOk, OnOk};
ghost use Rattle.kt_tree.specs.BuiltIn.{with_texts};
ghost use Rattle.kt_tree.specs.Trees.{classes_in, functions_in};
ghost use Rattle.kt_build.specs.File.{file_of};

use crate::whole::build;
use kt_parts::Queue;
use kt_tree::ast::{ClassDecl, File, FunctionDecl};
use kt_tree::grammar::{Built, Phrase};
use kt_tree::{Names, NoMemory, Tokens};
use sqlite_items::Items;
use std::alloc::{AllocError, Global};

/// Puts each class at the end of `classes` and each function at the end of `functions`.
fn sort_out(
    mut made: Queue<Built>,
    classes: &mut Items<ClassDecl>,
    functions: &mut Items<FunctionDecl>,
) -> Result<(), AllocError>
    ensures classes { OnOk result (classes.new ≡ classes.old ++ classes_in made) }
    ensures functions { OnOk result (functions.new ≡ functions.old ++ functions_in made) }
{
    'declarations: while let Some(built) = made.pop() {
        match built {
            Built::Class(class) => classes.push(class)?,
            Built::Function(function) => functions.push(function)?,
            _other => {}
        }
    }
    Ok(())
}

/// A table of the same names.
fn copied(alloc: Global, names: &Names) -> Result<Names, NoMemory>
    ensures { IfOk result (λ copy. copy ≡ with_texts [] names.now) }
{
    let Ok(count) = u32::try_from(names.len()) else {
        return Err(NoMemory);
    };
    let mut copy = Names::new(alloc);
    for number in 0..count {
        copy.number(alloc, names.text(number))?;
    }
    Ok(copy)
}

/// The file that the phrase is: its classes and its functions, whose trees are numbered from 1 in preorder, and a copy of the tokens'
/// table of names. `NoMemory` where there is none for it.
pub fn file(alloc: Global, tokens: &Tokens, phrase: &Phrase) -> Result<File, NoMemory>
    ensures { IfOk result (λ whole. whole ≡ file_of tokens.now phrase.now) }
{
    let mut made = Queue::new(alloc);
    let mut next = 1;
    build(alloc, tokens, phrase, &mut next, &mut made)?;
    let mut classes = Items::new(alloc);
    let mut functions = Items::new(alloc);
    sort_out(made, &mut classes, &mut functions)?;
    Ok(File {
        classes,
        functions,
        names: copied(alloc, &tokens.names)?,
    })
}
