ghost use Rattle.std.specs.Prelude.{◌<◌, IfOk};
ghost use Rattle.std.specs.List.{All};
ghost use Rattle.kt_solve.specs.declared.effect.Effect.{Effect};
ghost use Rattle.kt_solve.specs.Chains.{IsChained};

use crate::effect::Effect;
use std::alloc::{AllocError, Global};

/// The effects of each node, in the order in which they were given: the number of its first one, and for each effect
/// the number of the next one of its node. Past the last one stands the number of all effects.
#[derive(Drop)]
pub(crate) struct EffectChains {
    pub(crate) first: Vec<usize>,
    pub(crate) next: Vec<usize>,
}

/// Chains the effects, from the last one to the first.
pub(crate) fn chain_effects(
    alloc: Global,
    nodes: u32,
    effects: &[Effect],
) -> Result<EffectChains, AllocError>
    requires { All (λ (e : Effect). e.node < nodes) effects.now }
    ensures { IfOk result (λ c. IsChained nodes effects.now c.first.items c.next.items) }
{
    let none = effects.len();
    let mut first = vec![in alloc; none; nodes as usize]?;
    let mut next = vec![in alloc; none; none]?;
    let mut at = none;
    while at > 0 {
        at -= 1;
        let node = effects[at].node as usize;
        next[at] = first[node];
        first[node] = at;
    }
    Ok(EffectChains { first, next })
}
