//! What the rules on members read of a class table.
ghost use Rattle.std.specs.Prelude.{◌≡◌, ◌<◌, ◌==◌, IfOk, find, length, option_copied};
ghost use Rattle.kt_model.specs.Classes.{outlines};
ghost use Rattle.kt_model.specs.Members as spec;
ghost use Rattle.kt_decl.specs.Marks.{IsRowed};

use crate::meeting;
use crate::settle::candidates_in;
use kt_model::class_table::{ClassTable, Member, MemberRow};
use kt_tree::NoMemory;
use std::alloc::Global;

/// The rows of a table have the classes above theirs, and few members.
fn is_rowed(t: &ClassTable)
    ensures { IsRowed t.now }
{
    t.is_settled();
}

/// The members that a class inherits under a name, unless they are hidden, in the order of the classes above it. `NoMemory` where none is left for them.
pub fn candidates(alloc: Global, t: &ClassTable, c: u32, name: u32) -> Result<Vec<Member>, NoMemory>
    requires { c < length t.now }
    ensures { IfOk result (λ members. members.items ≡ spec.candidates (outlines t.now) c name) }
{
    is_rowed(t);
    let members = candidates_in(alloc, t.rows(), c, name)?;
    Ok(members)
}

/// Of several candidates the one that fits, the first in their order. `None` exactly where they do not go together or none fits.
pub fn fitting(t: &ClassTable, members: &[Member]) -> Option<Member>
    ensures { result ≡ spec.fitting (outlines t.now) members.now }
{
    is_rowed(t);
    meeting::fitting(t.rows(), members)
}

/// Whether a class itself declares a member of that name.
pub fn declares(t: &ClassTable, c: u32, name: u32) -> bool
    ensures { result ≡ spec.declares (outlines t.now) name c }
{
    is_rowed(t);
    meeting::own(t.rows(), c, name).is_some()
}

/// The row of the member of that name that a class itself declares. `None` exactly where it declares none.
pub fn own_row(t: &ClassTable, c: u32, name: u32) -> Option<&MemberRow>
    ensures { option_copied result ≡ find (λ m. m.name == name) (spec.members_of (outlines t.now) c) }
{
    row_named(meeting::members_at(t.rows(), c), name)
}

fn row_named(members: &[MemberRow], name: u32) -> Option<&MemberRow>
    ensures { option_copied result ≡ find (λ m. m.name == name) members.now }
{
    members.iter().find(|m| m.name == name)
}

/// The row of a member. `None` exactly where the table has no such member.
pub fn member_row(t: &ClassTable, m: Member) -> Option<&MemberRow>
    ensures { option_copied result ≡ spec.row_of (outlines t.now) m }
{
    meeting::row_at(t.rows(), m)
}

/// Whether the first member's result is a subtype of the other's; one without a type passes.
pub fn result_fits(t: &ClassTable, a: &MemberRow, b: &MemberRow) -> bool
    ensures { result ≡ spec.result_fits (outlines t.now) a.now.result b.now.result }
{
    is_rowed(t);
    meeting::result_fits(t.rows(), &a.result, &b.result)
}

/// Whether the two members' results have one type; one without a type passes.
pub fn result_same(a: &MemberRow, b: &MemberRow) -> bool
    ensures { result ≡ spec.result_same a.now.result b.now.result }
{
    meeting::result_same(&a.result, &b.result)
}
