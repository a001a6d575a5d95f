use crate::place::Place;
use crate::rows::ROWS;
use crate::words::WORDS;
use crate::{class_of, expansion, is_tree, row, stands_for};
use kt_table::Table;
use kt_tree::grammar::{Class, Form, Nonterminal, Production, Row, Terminal};
use kt_tree::{Kind, Names, Span, Token, Tokens};
use sqlite_items::Items;
use std::alloc::{AllocError, Global};
use std::test::Fail;

fn class(terminal: Terminal, fresh: bool) -> Class {
    Class {
        terminal,
        fresh,
        leads: false,
    }
}

#[test]
fn rows_of_sums(rt: HostRuntime) {
    assert!(rt;
        matches!(
            row(Nonterminal::SumMore, class(Terminal::Plus, false)),
            Some(Production::Sum)
        )
    );
    assert!(rt; row(Nonterminal::SumMore, class(Terminal::Plus, true)).is_none());
    assert!(rt; row(Nonterminal::Loop, class(Terminal::While, false)).is_none());
    assert!(rt;
        matches!(
            row(Nonterminal::Primary, class(Terminal::Until, true)),
            Some(Production::Name)
        )
    );
}

#[test]
fn tables_are_checked(rt: HostRuntime) {
    assert!(rt; Table::<Place, Row, 193>::new(&ROWS).checked());
    assert!(rt; Table::<&str, Terminal, 24>::new(&WORDS).checked());
}

#[test]
fn what_stands_in_a_place(rt: HostRuntime) {
    let sum = expansion(Nonterminal::SumMore, class(Terminal::Plus, false));
    assert_eq!(rt; sum.map(|symbols| symbols.len()), Some(4));
    let after_a_line_end = expansion(Nonterminal::SumMore, class(Terminal::Plus, true));
    assert_eq!(rt; after_a_line_end.map(|symbols| symbols.len()), Some(0));
    assert!(rt; expansion(Nonterminal::Primary, class(Terminal::Comma, false)).is_none());
    assert!(rt; stands_for(Terminal::Id, Terminal::Until));
    assert!(rt; !stands_for(Terminal::Until, Terminal::Id));
    assert!(rt; is_tree(Form::Sum));
    assert!(rt; !is_tree(Form::List));
}

fn end_alone(alloc: Global) -> Result<Tokens, AllocError> {
    let mut list = Items::new(alloc);
    list.push(Token {
        kind: Kind::End,
        span: Span { start: 0, end: 0 },
        fresh: true,
    })?;
    Ok(Tokens {
        list,
        names: Names::new(alloc),
    })
}

#[test]
fn class_of_the_end(rt: HostRuntime) -> Result<(), Fail> {
    let tokens = end_alone(rt.alloc())?;
    assert!(rt; !tokens.list.is_empty());
    assert_eq!(rt; class_of(&tokens, 0), class(Terminal::End, true));
    Ok(())
}
