//! The verdict on a source.
ghost use Rattle.std.specs.Prelude.{List, ℕ, IfOk};
ghost use Rattle.kt_source.specs.SourceRules.{HasFile};
ghost use Rattle.kt_check.specs.Phases.{Stops};
ghost use Rattle.kt_check.specs.Verdicts.{IsVerdict};

use crate::file_phases::{clear_file, main_place};
use crate::verdict::{AcceptedFile, Verdict};
use kt_model::finding::PhaseFault;
use kt_source::laws::files_are_determined;
use kt_source::{SourceFault, read_source};
use kt_tree::NoMemory;
use kt_tree::ast::File;
use std::alloc::Global;

/// The refusal of a source whose file stops so.
fn refused(file: &File, fault: PhaseFault) -> Result<Verdict, NoMemory>
    requires { Stops file.now fault }
    ensures { (source : List ℕ) → HasFile source file.now → IfOk result (IsVerdict source) }
{
    let _file = file;
    files_are_determined();
    match fault {
        PhaseFault::Findings(found) => match found.as_slice() {
            [first, ..] => Ok(Verdict::Refused(*first)),
            [] => unreachable!(),
        },
        PhaseFault::NoMemory => Err(NoMemory),
    }
}

/// The verdict on a source that is this file.
fn judge(alloc: Global, file: File) -> Result<Verdict, NoMemory>
    ensures { (source : List ℕ) → HasFile source file → IfOk result (IsVerdict source) }
{
    files_are_determined();
    match clear_file(alloc, &file) {
        Ok(uses) => {
            let main = main_place(alloc, &file)?;
            Ok(Verdict::Accepted(AcceptedFile { file, uses, main }))
        }
        Err(fault) => refused(&file, fault),
    }
}

/// The verdict of the written rules on a source: its file, with what its names stand for and the place of `main`, where it violates no rule, and else the first
/// finding, by its span and its code, of the first phase that has any. The phases are the bytes, the tokens, the syntax, the declarations, their
/// members, the names in bodies, left sides, the limits of bodies, and the types and paths of bodies. Spans are in bytes, from 0. `Err` where
/// there is no memory.
pub fn check(alloc: Global, source: &[u8]) -> Result<Verdict, NoMemory>
    ensures { IfOk result (IsVerdict source.now) }
{
    files_are_determined();
    match read_source(alloc, source) {
        Ok(file) => judge(alloc, file),
        Err(SourceFault::Refused(finding)) => Ok(Verdict::Refused(finding)),
        Err(SourceFault::NoMemory) => Err(NoMemory),
    }
}
