//! What is above each class, by a search that goes up breadth first.
ghost use Rattle.std.specs.Prelude.{◌^◌, ◌≡◌, ◌<◌, ◌≤◌, ◌+◌, ◌⊎◌, All, ◌↔◌, ◌++◌, ◌∷◌, [], ℕ, IfOk, OnOk, OnErr, Contains, length, vec_len, count_by, not, replicate, false, slice_index};
ghost use Rattle.kt_model.specs.Classes.{supers_of, IsProperlyAbove, IsRanked};
ghost use Rattle.kt_decl.specs.Marks.{MarksMembers, AddsNumbers, CountsAbove, CountsAll, HasKnownSupers, MarksCycles, FallsAlong};

use kt_model::class_table::Numbers;
use kt_tree::NoMemory;
use std::alloc::Global;

/// The classes that a search has found, and a mark for each.
#[derive(Drop)]
pub(crate) struct Search {
    pub found: Vec<u32>,
    pub marks: Vec<bool>,
}

/// Finds a class.
fn find(search: &mut Search, class: u32) -> Result<(), NoMemory>
    requires known { class < vec_len search.old.marks }
    requires marked { MarksMembers search.old.marks.items search.old.found.items }
    ensures marked { OnOk result (MarksMembers search.new.marks.items search.new.found.items) }
    ensures len { OnOk result (vec_len search.new.marks ≡ vec_len search.old.marks) }
    ensures added { OnOk result (AddsNumbers (class ∷ []) search.old.found.items search.new.found.items) }
    ensures left { OnOk result (count_by not search.new.marks.items + vec_len search.new.found ≡ count_by not search.old.marks.items + vec_len search.old.found) }
{
    if !search.marks[class as usize] {
        search.found.push(class)?;
        search.marks[class as usize] = true;
    }
    Ok(())
}

/// Finds each of the classes.
fn find_all(search: &mut Search, classes: &[u32]) -> Result<(), NoMemory>
    requires known { All (λ c. c < vec_len search.old.marks) classes.now }
    requires marked { MarksMembers search.old.marks.items search.old.found.items }
    ensures marked { OnOk result (MarksMembers search.new.marks.items search.new.found.items) }
    ensures len { OnOk result (vec_len search.new.marks ≡ vec_len search.old.marks) }
    ensures added { OnOk result (AddsNumbers classes.now search.old.found.items search.new.found.items) }
    ensures left { OnOk result (count_by not search.new.marks.items + vec_len search.new.found ≡ count_by not search.old.marks.items + vec_len search.old.found) }
{
    for c in classes {
        find(search, *c)?;
    }
    Ok(())
}

/// The written supertypes of a class.
pub(crate) fn supers_at(classes: &[Numbers], class: u32) -> &[u32]
    requires { class < length classes.now }
    ensures { result.now ≡ supers_of classes.now class }
{
    classes[class as usize].as_slice()
}

/// Marks, all unset.
pub(crate) fn no_marks(alloc: Global, len: usize) -> Result<Vec<bool>, NoMemory>
    ensures none { IfOk result (λ marks. marks.items ≡ replicate len false) }
    ensures len { IfOk result (λ marks. vec_len marks ≡ len) }
    ensures left { IfOk result (λ marks. count_by not marks.items ≡ len) }
{
    Ok(vec![in alloc; false; len]?)
}

/// The classes that are properly above one.
fn classes_above(alloc: Global, classes: &[Numbers], class: u32) -> Result<Vec<u32>, NoMemory>
    requires known { class < length classes.now }
    requires closed { HasKnownSupers classes.now }
    ensures members { IfOk result (λ above. (d : ℕ) → Contains above.items d ↔ IsProperlyAbove classes.now class d) }
    ensures count { IfOk result (λ above. CountsAbove classes.now class (vec_len above)) }
{
    let mut search = Search {
        found: Vec::new(alloc),
        marks: no_marks(alloc, classes.len())?,
    };
    find_all(&mut search, supers_at(classes, class))?;
    let mut at = 0;
    while at < search.found.len() {
        let next = search.found[at];
        find_all(&mut search, supers_at(classes, next))?;
        at += 1;
    }
    let Search { found, marks } = search;
    drop(marks);
    Ok(found)
}

/// For each class how many are above it, and whether it is above itself.
#[derive(Drop)]
pub(crate) struct Hierarchy {
    pub counts: Vec<usize>,
    pub cycles: Vec<bool>,
}

/// Searches from each class.
pub(crate) fn search_all(alloc: Global, classes: &[Numbers]) -> Result<Hierarchy, NoMemory>
    requires few { length classes.now < 2 ^ 32 }
    requires closed { HasKnownSupers classes.now }
    ensures counts { IfOk result (λ h. CountsAll classes.now h.counts.items) }
    ensures len { IfOk result (λ h. vec_len h.counts ≡ length classes.now) }
    ensures cycles { IfOk result (λ h. MarksCycles classes.now h.cycles.items) }
    ensures marks { IfOk result (λ h. vec_len h.cycles ≡ length classes.now) }
{
    let mut counts = Vec::new(alloc);
    let mut cycles = Vec::new(alloc);
    for i in 0..classes.len() {
        let class = i as u32;
        let above = classes_above(alloc, classes, class)?;
        counts.push(above.len())?;
        cycles.push(above.contains(&class))?;
    }
    Ok(Hierarchy { counts, cycles })
}

/// The counts rank the classes, where none is above itself.
pub(crate) fn is_ranked(classes: &[Numbers], counts: &[usize])
    requires some { 0 < length classes.now }
    requires closed { HasKnownSupers classes.now }
    requires len { length counts.now ≡ length classes.now }
    requires counts { CountsAll classes.now counts.now }
    requires free { (c : ℕ) → IsProperlyAbove classes.now c c → ⊥ }
    ensures ranked { IsRanked classes.now }
    ensures falls { FallsAlong classes.now counts.now }
    ensures below { All (λ n. n ≤ length classes.now) counts.now }
{}
