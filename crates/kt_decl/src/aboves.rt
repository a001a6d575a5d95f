//! The classes above each class, in order.
ghost use Rattle.std.specs.Prelude.{◌≡◌, ◌<◌, ◌^◌, ◌+◌, ◌∷◌, [], ℕ, All, Contains, IfOk, OnOk, length, vec_len, slice_index, slice_set, max};
ghost use Rattle.std.specs.List.{flat_map};
ghost use Rattle.kt_model.specs.Classes.{any, supers_of, supers, listed, IsRanked};
ghost use Rattle.kt_decl.specs.Marks.{MarksMembers, HasKnownSupers, IsFilled, IsFilledTo, add_once, FallsAlong};

use crate::hierarchy::{Search, no_marks, supers_at};
use kt_model::class_table::Numbers;
use kt_tree::NoMemory;
use sqlite_items::Items;
use std::alloc::Global;

/// Puts in a class that is neither `Any` nor in.
fn add(search: &mut Search, class: u32) -> Result<(), NoMemory>
    requires known { class < vec_len search.old.marks }
    requires marked { MarksMembers search.old.marks.items (any ∷ search.old.found.items) }
    ensures marked { OnOk result (MarksMembers search.new.marks.items (any ∷ search.new.found.items)) }
    ensures len { OnOk result (vec_len search.new.marks ≡ vec_len search.old.marks) }
    ensures found { OnOk result (search.new.found.items ≡ add_once search.old.found.items class) }
{
    if !search.marks[class as usize] {
        search.found.push(class)?;
        search.marks[class as usize] = true;
    }
    Ok(())
}

fn only_any(alloc: Global, len: usize) -> Result<Search, NoMemory>
    requires { 0 < len }
    ensures marked { IfOk result (λ search. MarksMembers search.marks.items (any ∷ [])) }
    ensures len { IfOk result (λ search. vec_len search.marks ≡ len) }
    ensures found { IfOk result (λ search. search.found.items ≡ []) }
{
    let mut marks = no_marks(alloc, len)?;
    marks[0] = true;
    Ok(Search {
        found: Vec::new(alloc),
        marks,
    })
}

/// Each class once, where it stands first, `Any` last. `len` is the number of classes.
fn each_class_once(alloc: Global, len: usize, climb: &[u32]) -> Result<Numbers, NoMemory>
    requires some { 0 < len }
    requires known { All (λ c. c < len) climb.now }
    ensures { IfOk result (λ classes. classes ≡ listed climb.now) }
{
    let mut search = only_any(alloc, len)?;
    for c in climb {
        add(&mut search, *c)?;
    }
    let Search { mut found, marks } = search;
    drop(marks);
    found.push(0)?;
    Ok(Items::from_vec(found))
}

/// The class, and then what is above each of its supertypes.
fn climb_from(
    alloc: Global,
    aboves: &[Numbers],
    supers: &[u32],
    class: u32,
) -> Result<Vec<u32>, NoMemory>
    requires { All (λ s. s < length aboves.now) supers.now }
    ensures { IfOk result (λ climb. climb.items ≡ class ∷ flat_map (supers_of aboves.now) supers.now) }
{
    let mut climb = vec![in alloc; class]?;
    for s in supers {
        climb.extend_from_slice(supers_at(aboves, *s))?;
    }
    Ok(climb)
}

fn nothing_above(alloc: Global, len: usize) -> Result<Vec<Numbers>, NoMemory>
    ensures { IfOk result (λ aboves. vec_len aboves ≡ len) }
{
    let mut aboves = Vec::new(alloc);
    for _ in 0..len {
        aboves.push(Items::new(alloc))?;
    }
    Ok(aboves)
}

/// What is above one class, those above its supertypes given.
fn above_class(
    alloc: Global,
    classes: &[Numbers],
    aboves: &[Numbers],
    class: u32,
) -> Result<Numbers, NoMemory>
    requires known { class < length classes.now }
    requires closed { HasKnownSupers classes.now }
    requires ranked { IsRanked classes.now }
    requires len { length aboves.now ≡ length classes.now }
    requires filled { (s : ℕ) → Contains (supers_of classes.now class) s → supers_of aboves.now s ≡ supers classes.now s }
    ensures { IfOk result (λ above. above ≡ supers classes.now class) }
{
    let climb = climb_from(alloc, aboves, supers_at(classes, class), class)?;
    each_class_once(alloc, classes.len(), &climb)
}

/// Fills in what is above one class.
fn fill_class(
    alloc: Global,
    classes: &[Numbers],
    aboves: &mut Vec<Numbers>,
    class: u32,
) -> Result<(), NoMemory>
    requires known { class < length classes.now }
    requires closed { HasKnownSupers classes.now }
    requires ranked { IsRanked classes.now }
    requires len { vec_len aboves.old ≡ length classes.now }
    requires filled { (s : ℕ) → Contains (supers_of classes.now class) s → supers_of aboves.old.items s ≡ supers classes.now s }
    ensures { OnOk result (aboves.new.items ≡ slice_set aboves.old.items class (supers classes.now class)) }
{
    let above = above_class(alloc, classes, aboves, class)?;
    aboves[class as usize] = above;
    Ok(())
}

/// Fills in what is above the classes with this count of classes above them.
fn fill_count(
    alloc: Global,
    classes: &[Numbers],
    counts: &[usize],
    count: usize,
    aboves: &mut Vec<Numbers>,
) -> Result<(), NoMemory>
    requires few { length classes.now < 2 ^ 32 }
    requires closed { HasKnownSupers classes.now }
    requires ranked { IsRanked classes.now }
    requires falls { FallsAlong classes.now counts.now }
    requires counts { length counts.now ≡ length classes.now }
    requires len { vec_len aboves.old ≡ length classes.now }
    requires filled { IsFilled classes.now counts.now count aboves.old.items }
    ensures len { OnOk result (vec_len aboves.new ≡ length classes.now) }
    ensures filled { OnOk result (IsFilled classes.now counts.now (count + 1) aboves.new.items) }
{
    for i in 0..classes.len() {
        if counts[i] == count {
            fill_class(alloc, classes, aboves, i as u32)?;
        }
    }
    Ok(())
}

fn greater(a: usize, b: usize) -> usize
    ensures { result ≡ max a b }
{
    if a < b { b } else { a }
}

/// A number above all counts.
fn past_all(counts: &[usize]) -> usize
    requires { All (λ n. n < 2 ^ 32) counts.now }
    ensures { All (λ n. n < result) counts.now }
{
    let mut past = 0;
    for n in counts {
        past = greater(past, *n + 1);
    }
    past
}

/// What is above each class, by rising counts of the classes above.
pub(crate) fn all_above(
    alloc: Global,
    classes: &[Numbers],
    counts: &[usize],
) -> Result<Vec<Numbers>, NoMemory>
    requires few { length classes.now < 2 ^ 32 }
    requires closed { HasKnownSupers classes.now }
    requires ranked { IsRanked classes.now }
    requires falls { FallsAlong classes.now counts.now }
    requires counts { length counts.now ≡ length classes.now }
    requires below { All (λ n. n < 2 ^ 32) counts.now }
    ensures len { IfOk result (λ aboves. vec_len aboves ≡ length classes.now) }
    ensures above { IfOk result (λ aboves. (c : ℕ) → c < length classes.now → supers_of aboves.items c ≡ supers classes.now c) }
{
    let mut aboves = nothing_above(alloc, classes.len())?;
    for count in 0..past_all(counts) {
        fill_count(alloc, classes, counts, count, &mut aboves)?;
    }
    Ok(aboves)
}
