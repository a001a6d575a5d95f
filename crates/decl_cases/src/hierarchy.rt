//! A hierarchy that is accepted, and questions on it.
ghost use Rattle.std.specs.Prelude.{◌<◌, IfSome, length};
ghost use Rattle.kt_model.specs.Classes.{outlines, written};
ghost use Rattle.kt_model.specs.Subtypes.{NamesClass};

use crate::reader::text_of;
use crate::show::{write_class, write_member, write_row, write_type};
use kt_decl::{candidates, classes, implementation, is_sub, member, own_row};
use kt_model::class_table::{ClassTable, Member};
use kt_model::finding::PhaseFault;
use kt_model::kinds::KtType;
use kt_model::top_names::TopNames;
use kt_rules::members;
use kt_tree::ast::File;
use kt_tree::{Names, NoMemory};
use kt_types::{subtype, upper};
use std::alloc::Global;

/// The class table of a file, where no rule of the two phases on declarations is violated.
pub fn accepted_table(alloc: Global, file: &File) -> Result<ClassTable, PhaseFault> {
    let table = classes(alloc, file)?;
    members(alloc, file, &table)?;
    Ok(table)
}

/// The number of a name. `None` where the file has no such name.
fn number_of(names: &Names, text: &str) -> Option<u32> {
    let len = u32::try_from(names.len()).ok()?;
    for number in 0..len {
        if text_of(names, number)? == text {
            return Some(number);
        }
    }
    None
}

fn yes_or_no(is_so: bool) -> &'static str {
    if is_so { " yes" } else { " no" }
}

/// What came of a question.
#[derive(Clone, Copy, Debug, PartialEq, Eq)]
pub enum Answer {
    Given,
    /// It is no question, or names a class, a type or a member that the file does not know.
    Unknown,
}

/// A file that violates no rule on declarations, the names of its top, and its class table.
#[derive(Drop)]
pub struct Hierarchy {
    file: File,
    tops: TopNames,
    table: ClassTable,
}

impl Hierarchy {
    /// The hierarchy of a file, or what its first phase with findings finds.
    pub fn of_file(alloc: Global, file: File) -> Result<Hierarchy, PhaseFault> {
        let table = accepted_table(alloc, &file)?;
        let tops = TopNames::of_file(alloc, &file)?;
        Ok(Hierarchy { file, tops, table })
    }

    /// The class that a word names.
    fn class(&self, word: &str) -> Option<u32>
        ensures { IfSome result (λ c. c < length self.now.table) }
    {
        let class = self.tops.class_named(self.name(word)?)?;
        if (class as usize) < self.table.rows().len() {
            Some(class)
        } else {
            None
        }
    }

    /// The number of a word as a name.
    fn name(&self, word: &str) -> Option<u32> {
        number_of(&self.file.names, word)
    }

    /// The type that a word names, with its `?`.
    fn type_named(&self, word: &str) -> Option<KtType>
        ensures { IfSome result (λ t. NamesClass (written (outlines self.now.table)) t) }
    {
        let name = word.strip_suffix('?').unwrap_or(word);
        let head = self.tops.head_named(self.name(name)?)?;
        let is_known = match head.class() {
            Some(class) => (class as usize) < self.table.rows().len(),
            None => true,
        };
        if is_known {
            Some(KtType {
                head,
                nullable: word.ends_with('?'),
            })
        } else {
            None
        }
    }

    /// Writes the class and those above it, in order.
    fn answer_supers(&self, out: &mut String, c: &str) -> Result<Answer, NoMemory> {
        let Some(class) = self.class(c) else {
            return Ok(Answer::Unknown);
        };
        for above in self.table.above(class) {
            out.push_str(" ")?;
            write_class(out, &self.file.names, self.table.rows(), *above)?;
        }
        Ok(Answer::Given)
    }

    /// Writes whether the one class is under the other.
    fn answer_sub(&self, out: &mut String, c: &str, d: &str) -> Result<Answer, NoMemory> {
        match (self.class(c), self.class(d)) {
            (Some(c), Some(d)) => {
                out.push_str(yes_or_no(is_sub(&self.table, c, d)))?;
                Ok(Answer::Given)
            }
            _ => Ok(Answer::Unknown),
        }
    }

    fn write_optional(&self, out: &mut String, m: Option<Member>) -> Result<(), NoMemory> {
        out.push_str(" ")?;
        match m {
            Some(m) => write_member(out, &self.file.names, self.table.rows(), m)?,
            None => out.push_str("none")?,
        }
        Ok(())
    }

    /// Writes the member that a class has under a name.
    fn answer_member(&self, out: &mut String, c: &str, m: &str) -> Result<Answer, NoMemory> {
        match (self.class(c), self.name(m)) {
            (Some(class), Some(name)) => {
                self.write_optional(out, member(&self.table, class, name))?;
                Ok(Answer::Given)
            }
            _ => Ok(Answer::Unknown),
        }
    }

    /// Writes that member where it is not abstract.
    fn answer_implementation(
        &self,
        out: &mut String,
        c: &str,
        m: &str,
    ) -> Result<Answer, NoMemory> {
        match (self.class(c), self.name(m)) {
            (Some(class), Some(name)) => {
                self.write_optional(out, implementation(&self.table, class, name))?;
                Ok(Answer::Given)
            }
            _ => Ok(Answer::Unknown),
        }
    }

    fn write_all(&self, out: &mut String, members: &[Member]) -> Result<(), NoMemory> {
        if members.is_empty() {
            out.push_str(" none")?;
        }
        for m in members {
            self.write_optional(out, Some(*m))?;
        }
        Ok(())
    }

    /// Writes the members that a class inherits under a name.
    fn answer_candidates(
        &self,
        alloc: Global,
        out: &mut String,
        c: &str,
        m: &str,
    ) -> Result<Answer, NoMemory> {
        match (self.class(c), self.name(m)) {
            (Some(class), Some(name)) => {
                let members = candidates(alloc, &self.table, class, name)?;
                self.write_all(out, &members)?;
                Ok(Answer::Given)
            }
            _ => Ok(Answer::Unknown),
        }
    }

    fn write_own(&self, out: &mut String, class: u32, name: u32) -> Result<(), NoMemory> {
        out.push_str(" ")?;
        match own_row(&self.table, class, name) {
            Some(row) => write_row(out, &self.file.names, self.table.rows(), row)?,
            None => out.push_str("none")?,
        }
        Ok(())
    }

    /// Writes the row of the member that a class itself declares.
    fn answer_own(&self, out: &mut String, c: &str, m: &str) -> Result<Answer, NoMemory> {
        match (self.class(c), self.name(m)) {
            (Some(class), Some(name)) => {
                self.write_own(out, class, name)?;
                Ok(Answer::Given)
            }
            _ => Ok(Answer::Unknown),
        }
    }

    /// Writes whether the one type is a subtype of the other.
    fn answer_subtype(&self, out: &mut String, a: &str, b: &str) -> Result<Answer, NoMemory> {
        match (self.type_named(a), self.type_named(b)) {
            (Some(a), Some(b)) => {
                out.push_str(yes_or_no(subtype(&self.table, &a, &b)))?;
                Ok(Answer::Given)
            }
            _ => Ok(Answer::Unknown),
        }
    }

    /// Writes the upper bound of two types.
    fn answer_upper(&self, out: &mut String, a: &str, b: &str) -> Result<Answer, NoMemory> {
        match (self.type_named(a), self.type_named(b)) {
            (Some(a), Some(b)) => {
                out.push_str(" ")?;
                let bound = upper(&self.table, &a, &b);
                write_type(out, &self.file.names, self.table.rows(), &bound)?;
                Ok(Answer::Given)
            }
            _ => Ok(Answer::Unknown),
        }
    }

    /// Writes the answer of a question, given as its words.
    pub fn answer(
        &self,
        alloc: Global,
        out: &mut String,
        words: &[&str],
    ) -> Result<Answer, NoMemory> {
        match *words {
            ["supers", c] => self.answer_supers(out, c),
            ["sub", c, d] => self.answer_sub(out, c, d),
            ["member", c, m] => self.answer_member(out, c, m),
            ["implementation", c, m] => self.answer_implementation(out, c, m),
            ["candidates", c, m] => self.answer_candidates(alloc, out, c, m),
            ["own", c, m] => self.answer_own(out, c, m),
            ["subtype", a, b] => self.answer_subtype(out, a, b),
            ["upper", a, b] => self.answer_upper(out, a, b),
            _ => Ok(Answer::Unknown),
        }
    }
}
