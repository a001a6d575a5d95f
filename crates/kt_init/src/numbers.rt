ghost use Rattle.std.specs.Prelude.{◌≡◌, ◌≢◌, ℕ, ◌<◌, length, slice_index_or, slice_get, IfOk, MatchOption};
ghost use Rattle.kt_model.specs.declared.graph.Variable.TheVariants.{Local};

use indexmap::IndexSet;
use kt_model::graph::Variable;
use std::alloc::{AllocFailed, Global};

/// The variables of a graph by number.
#[derive(Drop)]
pub(crate) struct Numbers {
    variables: IndexSet<Variable>,
}

/// Numbers the variables by their places.
pub(crate) fn number_variables(
    alloc: Global,
    variables: &[Variable],
) -> Result<Numbers, AllocFailed<Variable>>
    requires { (i j : ℕ) → i < length variables.now → j < length variables.now → slice_index_or variables.now i (Local 0) ≡ slice_index_or variables.now j (Local 0) → i ≡ j }
    ensures { IfOk result (λ n. n.variables.keys ≡ variables.now) }
{
    let mut set = IndexSet::new(alloc);
    for variable in variables {
        set.insert_full(*variable)?;
    }
    Ok(Numbers { variables: set })
}

impl Numbers {
    /// How many there are.
    pub(crate) fn len(&self) -> usize
        ensures { result ≡ length self.now.variables.keys }
    {
        self.variables.len()
    }

    /// The number of a variable, None where it has none.
    pub(crate) fn of(&self, variable: Variable) -> Option<usize>
        ensures { MatchOption result ((k : ℕ) → k < length self.now.variables.keys → slice_index_or self.now.variables.keys k (Local 0) ≢ variable) (λ k. slice_get self.now.variables.keys k ≡ Some variable) }
    {
        self.variables.get_index_of(&variable)
    }
}
