ghost use Rattle.std.specs.Prelude.{◌≡◌, map, bytes_eq};
ghost use Rattle.std.specs.Map.{lookup};
ghost use Rattle.std.specs.Ordering.{nat_cmp};
ghost use Rattle.kt_table.specs.Table.{first_value};

use crate::Table;

const SQUARES: [(u32, u32); 5] = [(0, 0), (1, 1), (4, 2), (9, 3), (16, 4)];

// The root of a square in the table: that its keys rise is found at the check, and not asked when it runs.
fn root_of(square: u32) -> Option<u32>
    ensures { result ≡ first_value nat_cmp SQUARES square }
{
    Table::<u32, u32, 5>::new(&SQUARES).find(&square).copied()
}

const WORDS: [(&str, u8); 4] = [("class", 1), ("fun", 2), ("val", 3), ("var", 4)];

fn number_of(word: &str) -> Option<u8>
    ensures { result ≡ lookup (λ held. bytes_eq held word.now) (map (λ row. (row.0.now, row.1)) WORDS) }
{
    Table::<&str, u8, 4>::new(&WORDS).find(&word).copied()
}

#[test]
fn numbers(rt: HostRuntime) {
    for (square, root) in [
        (0, Some(0)),
        (9, Some(3)),
        (16, Some(4)),
        (8, None),
        (17, None),
    ] {
        assert_eq!(rt; root_of(square), root);
    }
    let empty: [(u32, u32); 0] = [];
    assert!(rt; Table::<u32, u32, 5>::new(&SQUARES).checked());
    assert!(rt; Table::<u32, u32, 0>::new(&empty).checked());
    assert!(rt; !Table::<u32, u32, 2>::new(&[(1, 0), (1, 1)]).checked());
    assert!(rt; !Table::<u32, u32, 3>::new(&[(1, 0), (3, 1), (2, 2)]).checked());
}

#[test]
fn texts(rt: HostRuntime) {
    for (word, number) in [
        ("class", Some(1)),
        ("var", Some(4)),
        ("va", None),
        ("", None),
    ] {
        assert_eq!(rt; number_of(word), number);
    }
    assert!(rt; Table::<&str, u8, 4>::new(&WORDS).checked());
}
