//! All that is violated in the declarations of a file.
ghost use Rattle.std.specs.Prelude.{◌≡◌, ◌+◌, IfOk, length};
ghost use Rattle.kt_model.specs.TopNames.{built_in_classes, top_names};
ghost use Rattle.kt_model.specs.Findings.{AreFindings};
ghost use Rattle.kt_model.specs.DeclarationRules.{classes_of, IsViolated};
ghost use Rattle.kt_decl.specs.Marks.{MarksCycles};

use crate::sites::at_file;
use crate::supertypes::{add_class_findings, class_kinds};
use kt_model::finding::{Findings, in_order};
use kt_model::top_names::TopNames;
use kt_tree::NoMemory;
use kt_tree::ast::File;
use std::alloc::Global;

/// Exactly what is violated in the declarations, in order, none twice.
pub(crate) fn declaration_findings(
    alloc: Global,
    tops: &TopNames,
    cycles: &[bool],
    file: &File,
) -> Result<Findings, NoMemory>
    requires tops { tops.now ≡ top_names file.now }
    requires marked { MarksCycles (classes_of file.now) cycles.now }
    requires long { length cycles.now ≡ built_in_classes + length file.now.classes }
    ensures { IfOk result (AreFindings (IsViolated file.now)) }
{
    let mut out = Vec::new(alloc);
    at_file(alloc, tops, file, &mut out)?;
    let kinds = class_kinds(alloc, file)?;
    add_class_findings(alloc, tops, &kinds, cycles, file, &mut out)?;
    Ok(in_order(out))
}
