// A table of rows, each a key and a value.
ghost use Rattle.std.specs.Prelude.{◌≡◌, ◌≢◌, ◌↔◌, length, IsTrue, IsNone, Some, All};
ghost use Rattle.std.specs.Option.{option_copied};
ghost use Rattle.std.specs.Map.{keys_of};
ghost use Rattle.std.specs.List.Sorted.{IsStrictlySortedBy};
ghost use Rattle.kt_table.specs.Table.{rises, first_value};

use std::cmp::Ordering;
use std::marker::Model;

/// `N` rows, each a key and a value. Contracts see the list of the rows.
#[derive(Drop)]
pub struct Table<'t, K: Ord, V, const N: usize> {
    rows: &'t [(K, V)],
}

impl<'t, K: Ord, V, const N: usize> Model for Table<'t, K, V, N> {
    ghost use Rattle.std.specs.Prelude.{◌≡◌, List, length};

    ghost Value = { List (K × V) };

    ghost view = { λ t. t.rows.now };

    ghost invariant = { λ t. length t.rows.now ≡ N };
}

impl<'t, K: Ord, V, const N: usize> Table<'t, K, V, N> {
    /// The table of these rows, of which there are `N`.
    pub fn new(rows: &'t [(K, V)]) -> Table<'t, K, V, N>
        requires { length rows.now ≡ N }
        ensures { result ≡ rows.now }
    {
        Table { rows }
    }

    /// Whether the keys rise strictly: each is below the next, and so below all later ones.
    pub fn checked(&self) -> bool
        ensures value { result ≡ rises K.cmp self.now }
        ensures rows { length self.now ≡ N }
        ensures sorted { IsTrue result ↔ IsStrictlySortedBy K.cmp (keys_of self.now) }
    {
        self.rows
            .is_sorted_by(|row, next| row.0.cmp(&next.0).is_lt())
    }

    /// The value of the one row with the key, `None` exactly where there is none. The keys must rise strictly, as
    /// `checked` says.
    pub fn find(&self, key: &K) -> Option<&V>
        requires { IsTrue (rises K.cmp self.now) }
        ensures first { option_copied result ≡ first_value K.cmp self.now key.now }
        ensures one { All (λ row. K.cmp row.0 key.now ≡ Ordering.Equal → option_copied result ≡ Some row.1) self.now }
        ensures none { IsNone result ↔ All (λ row. K.cmp row.0 key.now ≢ Ordering.Equal) self.now }
    {
        match self.rows.binary_search_by(|row| row.0.cmp(key)) {
            Ok(place) => Some(&self.rows[place].1),
            Err(_) => None,
        }
    }
}
