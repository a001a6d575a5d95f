//! Looking rows up.
ghost use Rattle.std.specs.Prelude.{◌≡◌};
ghost use Rattle.kt_tree.specs.Grammar as spec;
ghost use Rattle.kt_grammar.specs.Lookup as lookup;

use crate::classes::is_word;
use crate::place::Place;
use crate::roles::{begins_expression, is_modifier};
use crate::rows::ROWS;
use kt_table::Table;
use kt_tree::grammar::{Class, First, Need, Nonterminal, OPEN, Production, Row, Terminal};

/// The row of a nonterminal that begins so.
fn row_at(nonterminal: Nonterminal, first: First) -> Option<Row>
    ensures { result ≡ lookup.with_first (spec.rows nonterminal) first }
{
    Table::<Place, Row, 193>::new(&ROWS)
        .find(&Place { nonterminal, first })
        .copied()
}

fn allows(need: Need, class: Class) -> bool
    ensures { result ≡ spec.allows need class }
{
    match need {
        Need::Any => true,
        Need::Clear => !class.fresh,
        Need::Leading => class.leads,
    }
}

/// The production of the row of a nonterminal that begins so, where it is open and its need is met. None where the class
/// does not begin so, as `may` says.
fn row_for(may: bool, nonterminal: Nonterminal, first: First, class: Class) -> Option<Production>
    ensures { result ≡ lookup.row_for may nonterminal first class }
{
    if !may {
        return None;
    }
    match row_at(nonterminal, first) {
        Some(row) if row.opened_by <= OPEN && allows(row.need, class) => Some(row.production),
        _ => None,
    }
}

/// The open row of a nonterminal and a class: its production, `None` exactly where there is none. Takes no memory.
pub fn row(nonterminal: Nonterminal, class: Class) -> Option<Production>
    ensures { result ≡ spec.row nonterminal class }
{
    let terminal = class.terminal;
    if let Some(named) = row_for(true, nonterminal, First::Just(terminal), class) {
        return Some(named);
    }
    let modifier = is_modifier(terminal);
    if let Some(modified) = row_for(modifier, nonterminal, First::Modifier, class) {
        return Some(modified);
    }
    let begins = begins_expression(terminal);
    if let Some(begun) = row_for(begins, nonterminal, First::Expression, class) {
        return Some(begun);
    }
    row_for(
        is_word(terminal),
        nonterminal,
        First::Just(Terminal::Id),
        class,
    )
}
