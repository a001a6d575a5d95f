//! What the names of a file stand for.
ghost use Rattle.std.specs.Prelude.{◌≡◌, [], true, map, IfOk, IfErr, Contains, ◌↔◌};
ghost use Rattle.std.specs.List.Sorted.{IsStrictlyIncreasing};
ghost use Rattle.kt_model.specs.declared.finding.Finding.{Finding};
ghost use Rattle.kt_model.specs.declared.uses.UseRow.{UseRow};
ghost use Rattle.kt_model.specs.TopNames.{top_names};
ghost use Rattle.kt_model.specs.Findings.{AreFindings, IsFault};
ghost use Rattle.kt_model.specs.NameEvents.{file_events};
ghost use Rattle.kt_model.specs.NameRules.{name_rules, IsNameViolated};
ghost use Rattle.kt_model.specs.Scopes.{declarations_of, looking_back, use_by, IsResolved};

use crate::declarations::{parameters, top_declarations};
use crate::events::of_functions;
use crate::resolver::{Resolver, go_over};
use kt_model::built_ins::BUILT_IN_FUNCTIONS;
use kt_model::class_table::ClassTable;
use kt_model::finding::{Finding, Findings, PhaseFault, in_order};
use kt_model::top_names::TopNames;
use kt_model::uses::{UseRow, Uses};
use kt_tree::NoMemory;
use kt_tree::ast::File;
use sqlite_items::Items;
use std::alloc::Global;

/// Whether the trees of rows rise.
fn rises(rows: &[UseRow]) -> bool
    ensures { result ≡ true → IsStrictlyIncreasing (map (λ row. row.tree) rows.now) }
{
    for i in 1..rows.len() {
        if rows[i].tree <= rows[i - 1].tree {
            return false;
        }
    }
    true
}

/// The same rows in the order of their trees. `NoMemory` where two of them have one tree.
fn in_order_of_trees(rows: Vec<UseRow>) -> Result<Vec<UseRow>, NoMemory>
    ensures rising { IfOk result (λ sorted. IsStrictlyIncreasing (map (λ row. row.tree) sorted.items)) }
    ensures same { IfOk result (λ sorted. (row : UseRow) → Contains sorted.items row ↔ Contains rows.items row) }
{
    let mut rows = rows;
    rows.sort_unstable_by_key(|row| row.tree);
    if !rises(&rows) {
        return Err(NoMemory);
    }
    Ok(rows)
}

/// Goes over all names of a file.
fn resolved(alloc: Global, tops: &TopNames, file: &File) -> Result<Resolver, NoMemory>
    requires { tops.now ≡ top_names file.now }
    ensures declared { IfOk result (λ r. r.declared.items ≡ declarations_of file.now) }
    ensures rows { IfOk result (λ r. r.rows.items ≡ looking_back (use_by (top_names file.now)) [] (file_events file.now)) }
    ensures found { IfOk result (λ r. r.found.items ≡ looking_back (name_rules (top_names file.now)) [] (file_events file.now)) }
{
    let functions = file.functions.as_slice();
    let declared = top_declarations(alloc, tops, functions)?;
    let events = of_functions(alloc, functions)?;
    let resolver = go_over(alloc, tops, declared, &events)?;
    Ok(resolver)
}

/// All that was found, in order.
fn all_found(file: &File, found: Vec<Finding>) -> Findings
    requires { found.items ≡ looking_back (name_rules (top_names file.now)) [] (file_events file.now) }
    ensures { AreFindings (IsNameViolated file.now) result }
{
    let _file = file;
    in_order(found)
}

/// The uses of a file where no rule on names in bodies is violated; else the fault has exactly what is violated, in order. Members are not looked at
/// yet, so the class table isn't. `NoMemory` also where the declarations are too many for their numbers, or two trees have one number, which no trees
/// of a text have.
pub fn resolve(alloc: Global, file: &File, _table: &ClassTable) -> Result<Uses, PhaseFault>
    ensures uses { IfOk result (IsResolved file.now) }
    ensures accepted { IfOk result (λ uses. (f : Finding) → IsNameViolated file.now f → ⊥) }
    ensures fault { IfErr result (IsFault (IsNameViolated file.now)) }
{
    let tops = TopNames::of_file(alloc, file)?;
    let resolver = resolved(alloc, &tops, file)?;
    let Resolver {
        scopes: _,
        declared,
        rows,
        found,
    } = resolver;
    let found = all_found(file, found);
    if !found.is_empty() {
        return Err(PhaseFault::Findings(found));
    }
    let rows = in_order_of_trees(rows)?;
    let functions = file.functions.as_slice();
    let parameters = parameters(alloc, BUILT_IN_FUNCTIONS + functions.len(), functions)?;
    Ok(Uses::new(Items::from_vec(declared), Items::from_vec(rows), parameters))
}
