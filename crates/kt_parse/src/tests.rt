use crate::{parse, read};
use kt_tree::grammar::Form;
use kt_tree::{Kind, Names, Span, Token, Tokens};
use sqlite_items::Items;
use std::alloc::{AllocError, Global};
use std::test::Fail;

fn end_alone(alloc: Global) -> Result<Tokens, AllocError> {
    let mut list = Items::new(alloc);
    list.push(Token {
        kind: Kind::End,
        span: Span { start: 0, end: 0 },
        fresh: false,
    })?;
    Ok(Tokens {
        list,
        names: Names::new(alloc),
    })
}

#[test]
fn a_file_without_declarations(rt: HostRuntime) -> Result<(), Fail> {
    let tokens = end_alone(rt.alloc())?;
    let phrase = read(rt.alloc(), &tokens)?;
    assert_eq!(rt; phrase.form, Form::List);
    assert_eq!(rt; phrase.parts.len(), 0);
    Ok(())
}

#[test]
fn a_file_without_functions(rt: HostRuntime) -> Result<(), Fail> {
    let tokens = end_alone(rt.alloc())?;
    let file = parse(rt.alloc(), &tokens)?;
    assert_eq!(rt; file.classes.len(), 0);
    assert_eq!(rt; file.functions.len(), 0);
    Ok(())
}
