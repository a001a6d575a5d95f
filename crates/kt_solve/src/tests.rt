ghost use Rattle.std.specs.Prelude.{◌≡◌, ◌<◌, length, IfOk};

use crate::effect::Transfer;
use crate::lanes::meet;
use crate::once::solve_once;
use crate::order::can_solve_once;
use crate::problem::{NoMemory, Problem};
use crate::steps::Steps;
use crate::worklist::solve;
use std::alloc::Global;
use std::marker::Brand;
use std::sync::ledger::{Blank, Ledger};
use std::test::Fail;

/// Four nodes and a pair: 0 to 1, 1 to 2, 2 back to 1, 1 to 3; node 0 sets the pair, and where it is said, 1 and 2
/// clear it.
fn four_nodes(alloc: Global, clearing: bool) -> Result<Problem, NoMemory>
    ensures { IfOk result (λ p. (p.nodes ≡ 4) × (p.pairs ≡ 1)) }
{
    let mut p = Problem::new(alloc, 4, 1, 0)?;
    p.edge(0, 1)?;
    p.edge(1, 2)?;
    p.edge(2, 1)?;
    p.edge(1, 3)?;
    p.effect(0, 0, Transfer::Set)?;
    if clearing {
        p.effect(1, 0, Transfer::Clear)?;
        p.effect_range(2, 0, 1, Transfer::Clear)?;
    }
    Ok(p)
}

/// What `solve_once` says of a pair at a node, None where the order is not one for it.
fn once<L: Ledger>(
    alloc: Global,
    p: &Problem,
    order: &[u32],
    blank: Blank,
) -> Result<Option<bool>, NoMemory>
    requires name { blank.name ≡ L.name }
    requires parts { blank.parts ≡ L.parts }
    requires some { 0 < blank.parts }
    requires nodes { p.now.nodes ≡ 4 }
    requires pairs { p.now.pairs ≡ 1 }
{
    let mut steps = Steps::<L>::new(blank);
    if can_solve_once(alloc, p, order)? {
        let rows = solve_once(alloc, p, order, &mut steps)?;
        Ok(Some(rows.holds(3, 0)))
    } else {
        Ok(None)
    }
}

#[test]
fn a_pair_holds_around_a_loop(rt: HostRuntime) -> Result<(), Fail> {
    let p = four_nodes(rt.alloc(), false)?;
    let rows = solve(rt.alloc(), &p)?;
    assert!(rt; rows.reached(3) && rows.holds(3, 0));
    let answer = once::<Brand>(rt.alloc(), &p, &[0, 1, 2, 3], Blank::new(1))?;
    assert_eq!(rt; answer, Some(true));
    Ok(())
}

#[test]
fn a_pair_is_cleared_in_a_loop(rt: HostRuntime) -> Result<(), Fail> {
    let p = four_nodes(rt.alloc(), true)?;
    let rows = solve(rt.alloc(), &p)?;
    assert!(rt; rows.reached(3) && !rows.holds(3, 0));
    let answer = once::<Brand>(rt.alloc(), &p, &[0, 1, 2, 3], Blank::new(1))?;
    assert_eq!(rt; answer, Some(false));
    let wrong = once::<Brand>(rt.alloc(), &p, &[0, 3, 2, 1], Blank::new(1))?;
    assert_eq!(rt; wrong, None);
    Ok(())
}

#[test]
fn words_meet(rt: HostRuntime) -> Result<(), Fail> {
    let mut into = [1u64, 3, 5, 7, u64::MAX, 12];
    meet(&mut into, &[3, 1, 4, 8, 6, 10]);
    assert_eq!(rt; into, [1, 1, 4, 0, 6, 8]);
    Ok(())
}
