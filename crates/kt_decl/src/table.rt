//! The class table of a file.
ghost use Rattle.std.specs.Prelude.{◌≡◌, ◌<◌, ◌≤◌, ◌+◌, ◌^◌, [], ℕ, All, Some, IfOk, OnOk, IfErr, length, slice_get, slice_set, vec_len};
ghost use Rattle.kt_model.specs.declared.class_table.ClassRow.{ClassRow};
ghost use Rattle.kt_model.specs.declared.finding.Finding.{Finding};
ghost use Rattle.kt_model.specs.Classes.{outlines, supers, supers_of, IsRanked};
ghost use Rattle.kt_model.specs.TopNames.{built_in_classes, top_names};
ghost use Rattle.kt_model.specs.Findings.{IsFault};
ghost use Rattle.kt_model.specs.DeclarationRules.{classes_of, IsViolated};
ghost use Rattle.kt_model.specs.Outlines.{outlines_of, results_of};
ghost use Rattle.kt_model.specs.Settled.{IsSettled};
ghost use Rattle.kt_decl.specs.Marks.{IsRowed, AreRowsOf, HaveAboves, AreBuiltIn, AreSettled, HasKnownSupers, CountsAll, FallsAlong};

use crate::aboves::all_above;
use crate::findings::declaration_findings;
use crate::hierarchy::{is_ranked, search_all, supers_at};
use crate::outlines::result_types;
use crate::rows::{built_in_row, class_row};
use crate::settle::settle_class;
use crate::supertypes::all_supers;
use kt_model::class_table::{ClassRow, ClassTable, Numbers, Settled};
use kt_model::finding::PhaseFault;
use kt_model::top_names::TopNames;
use kt_tree::NoMemory;
use kt_tree::ast::File;
use sqlite_items::Items;
use std::alloc::Global;

/// The rows of the built-in classes.
fn built_in_rows(alloc: Global, aboves: &[Numbers]) -> Result<Vec<ClassRow>, NoMemory>
    requires { built_in_classes ≤ length aboves.now }
    ensures rows { IfOk result (λ rows. AreRowsOf aboves.now rows.items) }
    ensures outlines { IfOk result (λ rows. AreBuiltIn built_in_classes rows.items) }
    ensures len { IfOk result (λ rows. vec_len rows ≡ built_in_classes) }
{
    let mut rows = Vec::new(alloc);
    for class in 0..13u32 {
        rows.push(built_in_row(alloc, class, supers_at(aboves, class))?)?;
    }
    Ok(rows)
}

/// The rows of all classes, with nothing settled.
fn all_rows(
    alloc: Global,
    file: &File,
    tops: &TopNames,
    aboves: &[Numbers],
) -> Result<Vec<ClassRow>, NoMemory>
    requires tops { tops.now ≡ top_names file.now }
    requires long { length aboves.now ≡ built_in_classes + length file.now.classes }
    requires few { length aboves.now < 2 ^ 32 }
    requires above { HaveAboves file.now aboves.now }
    ensures outlines { IfOk result (λ rows. outlines rows.items ≡ outlines_of file.now) }
    ensures rowed { IfOk result (λ rows. IsRowed rows.items) }
    ensures len { IfOk result (λ rows. vec_len rows ≡ length aboves.now) }
{
    let results = result_types(alloc, tops, file.functions.as_slice())?;
    let mut rows = built_in_rows(alloc, aboves)?;
    let mut class = 13;
    for c in file.classes.as_slice() {
        rows.push(class_row(alloc, file, tops, &results, supers_at(aboves, class), c)?)?;
        class += 1;
    }
    Ok(rows)
}

/// Puts what a class has into its row.
fn put(rows: &mut Vec<ClassRow>, class: usize, settled: Items<Settled>)
    requires { class < vec_len rows.old }
    ensures { (row : ClassRow) → slice_get rows.old.items class ≡ Some row → rows.new.items ≡ slice_set rows.old.items class (record row { settled = settled }) }
{
    rows[class].settled = settled;
}

/// Settles what each class has.
fn settle_all(alloc: Global, rows: &mut Vec<ClassRow>) -> Result<(), NoMemory>
    requires few { vec_len rows.old < 2 ^ 32 }
    requires rowed { IsRowed rows.old.items }
    ensures outlines { OnOk result (outlines rows.new.items ≡ outlines rows.old.items) }
    ensures rowed { OnOk result (IsRowed rows.new.items) }
    ensures settled { OnOk result (AreSettled (vec_len rows.old) rows.new.items) }
    ensures len { OnOk result (vec_len rows.new ≡ vec_len rows.old) }
{
    for i in 0..rows.len() {
        let settled = settle_class(alloc, rows, i as u32)?;
        put(rows, i, settled);
    }
    Ok(())
}

/// The rows of a table, all settled.
fn settled_rows(
    alloc: Global,
    file: &File,
    tops: &TopNames,
    classes: &[Numbers],
    counts: &[usize],
) -> Result<Items<ClassRow>, NoMemory>
    requires tops { tops.now ≡ top_names file.now }
    requires classes { classes.now ≡ classes_of file.now }
    requires few { length classes.now < 2 ^ 32 }
    requires closed { HasKnownSupers classes.now }
    requires ranked { IsRanked classes.now }
    requires falls { FallsAlong classes.now counts.now }
    requires len { length counts.now ≡ length classes.now }
    requires below { All (λ n. n ≤ length classes.now) counts.now }
    ensures outlines { IfOk result (λ rows. outlines rows ≡ outlines_of file.now) }
    ensures settled { IfOk result (λ rows. IsSettled rows) }
{
    let aboves = all_above(alloc, classes, counts)?;
    let mut rows = all_rows(alloc, file, tops, &aboves)?;
    settle_all(alloc, &mut rows)?;
    Ok(Items::from_vec(rows))
}

/// For each class its written supertypes, all known.
fn file_supers(alloc: Global, tops: &TopNames, file: &File) -> Result<Vec<Numbers>, NoMemory>
    requires { tops.now ≡ top_names file.now }
    ensures classes { IfOk result (λ supers. supers.items ≡ classes_of file.now) }
    ensures closed { IfOk result (λ supers. HasKnownSupers supers.items) }
    ensures len { IfOk result (λ supers. length supers.items ≡ built_in_classes + length file.now.classes) }
    ensures few { IfOk result (λ supers. length supers.items < 2 ^ 32) }
{
    tops.is_few();
    let supers = all_supers(alloc, tops, file)?;
    Ok(supers)
}

/// The class table of a file, where no rule on declarations is violated that needs no members: what is declared twice, unknown types, supertypes,
/// cycles of classes, and `main`. Else the fault has exactly what is violated, in order; or there is no memory for it, or the classes, names or
/// members are too many for their numbers.
pub fn classes(alloc: Global, file: &File) -> Result<ClassTable, PhaseFault>
    ensures table { IfOk result (λ t. outlines t ≡ outlines_of file.now) }
    ensures accepted { IfOk result (λ t. (f : Finding) → IsViolated file.now f → ⊥) }
    ensures fault { IfErr result (IsFault (IsViolated file.now)) }
{
    let tops = TopNames::of_file(alloc, file)?;
    let supers = file_supers(alloc, &tops, file)?;
    let hierarchy = search_all(alloc, &supers)?;
    let found = declaration_findings(alloc, &tops, &hierarchy.cycles, file)?;
    if !found.is_empty() {
        return Err(PhaseFault::Findings(found));
    }
    is_ranked(&supers, &hierarchy.counts);
    let rows = settled_rows(alloc, file, &tops, &supers, &hierarchy.counts)?;
    Ok(ClassTable::new(rows))
}
