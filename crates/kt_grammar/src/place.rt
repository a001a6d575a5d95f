//! Places of rows.
ghost use Rattle.std.specs.Prelude.{◌≡◌, refl};
ghost use Rattle.kt_grammar.specs.Places.{rank, by_place, place_total};
ghost use Rattle.std.specs.Cmp.{eq_by_cmp_equiv, partial_equiv_from_equiv, partial_order_from_total};
ghost use Rattle.std.specs.Ordering.{as_partial_cmp, eq_by_cmp};

use kt_tree::grammar::{First, Nonterminal};
use std::cmp::Ordering;

/// Where a row stands: its nonterminal, and what it begins with.
#[derive(Clone, Copy)]
pub struct Place {
    pub nonterminal: Nonterminal,
    pub first: First,
}

/// What a row begins with, as a number: first modifiers, then expressions, then the terminals in order.
fn number(first: First) -> u8
    ensures { result ≡ rank first }
{
    match first {
        First::Modifier => 0,
        First::Expression => 1,
        First::Just(terminal) => terminal as u8 + 2,
    }
}

impl PartialEq for Place {
    ghost eq = { eq_by_cmp by_place };

    ghost laws = { partial_equiv_from_equiv (eq_by_cmp_equiv place_total) };

    fn eq(&self, other: &Place) -> bool {
        self.cmp(other).is_eq()
    }
}

impl Eq for Place {
    ghost laws = { eq_by_cmp_equiv place_total };
}

impl Ord for Place {
    ghost cmp = { by_place };

    ghost total = { place_total };

    ghost matches_partial_cmp = { λ x y. refl };

    ghost matches_eq = { λ x y. refl };

    fn cmp(&self, other: &Place) -> Ordering {
        (self.nonterminal as u8)
            .cmp(&(other.nonterminal as u8))
            .then(number(self.first).cmp(&number(other.first)))
    }
}

impl PartialOrd for Place {
    ghost partial_cmp = { as_partial_cmp by_place };

    ghost laws = { partial_order_from_total place_total };

    fn partial_cmp(&self, other: &Place) -> Option<Ordering> {
        Some(self.cmp(other))
    }
}
