//! What was found of a body so far, and trees that are opened.
ghost use Rattle.std.specs.Prelude.{◌≡◌, ◌++◌, ◌∷◌, [], map, nat_eq, true, OnOk};
ghost use Rattle.std.specs.Map.{lookup};
ghost use Rattle.kt_typing.specs.Typing as spec;
ghost use Rattle.kt_infer.specs.Noting.{Adds, Exchanges, Keeps};
ghost use Rattle.kt_infer.specs.Opening.{own_rows, rows_of};

use crate::choices::type_in;
use indexmap::IndexMap;
use kt_model::finding::Finding;
use kt_model::kinds::KtType;
use kt_tree::{NoMemory, Span};
use kt_typing::{Claim, Outcome, TypeRow};
use sqlite_items::{Boxed, Items};
use std::alloc::Global;
use std::mem;

/// The types of the locals that were declared, those of the trees that were typed, and the findings.
#[derive(Drop)]
pub struct Notes {
    pub alloc: Global,
    pub locals: IndexMap<u32, Option<KtType>>,
    pub rows: Items<TypeRow>,
    pub findings: Vec<Finding>,
}

/// Rows and findings that are set aside.
#[derive(Drop)]
pub struct Between {
    pub rows: Items<TypeRow>,
    pub findings: Vec<Finding>,
}

/// An opened tree by its number and span. `parens` are the numbers of the parentheses around it, from the inner ones out: they have its type.
#[derive(Drop)]
pub struct Stem {
    pub number: u32,
    pub span: Span,
    pub parens: Items<u32>,
    /// Whether each part that is typed already has a type.
    pub complete: bool,
}

/// A tree whose parts are typed, before its way is known.
#[derive(Drop)]
pub enum Opened {
    /// A tree that is the same in each way, until it is checked.
    Alone(Stem, Claim),
    /// An `if` whose value is taken: what its two branches end in is typed in its way too. Between is what was noted behind the end of the first.
    Joined(Stem, Boxed<Opened>, Between, Boxed<Opened>),
    /// An empty block, whose value is `Unit`, by its span with the braces.
    EmptyBlock(Span),
    /// A tree that is ended already, with its type: the end of a block that never ends.
    Ended(Option<KtType>),
    /// The end of a branch that is not there.
    Absent,
}

/// Nothing set aside.
pub fn nothing_between(alloc: Global) -> Between
    ensures rows { result.rows ≡ [] }
    ensures findings { result.findings.items ≡ [] }
{
    Between {
        rows: Items::new(alloc),
        findings: Vec::new(alloc),
    }
}

impl Notes {
    /// The type of a local, `None` where it was not declared.
    pub fn look_up(&self, local: u32) -> Option<Option<KtType>>
        ensures { result ≡ spec.look_up self.now.locals.entries local }
    {
        match self.locals.get(&local) {
            Some(t) => Some(*t),
            None => None,
        }
    }

    /// A local has a type, or none, from here on, unless it was declared before.
    pub fn bind(&mut self, local: u32, t: Option<KtType>) -> Result<(), NoMemory>
        ensures { OnOk result (Keeps self.old self.new (spec.bound self.old.locals.entries local t)) }
    {
        match self.look_up(local) {
            Some(_) => Ok(()),
            None => {
                self.locals.insert(local, t)?;
                Ok(())
            }
        }
    }

    /// Declares a local without an initialiser.
    pub fn declare(&mut self, local: u32, written: Option<KtType>) -> Result<(), NoMemory>
        ensures { OnOk result (Keeps self.old self.new (spec.declared self.old.locals.entries local written)) }
    {
        match written {
            Some(t) => {
                self.bind(local, Some(t))?;
                Ok(())
            }
            None => Ok(()),
        }
    }

    /// Declares a local with an initialiser.
    pub fn initialise(
        &mut self,
        local: u32,
        written: Option<KtType>,
        found: Option<KtType>,
    ) -> Result<(), NoMemory>
        ensures { OnOk result (Keeps self.old self.new (spec.initialised self.old.locals.entries local written found)) }
    {
        match written {
            Some(t) => {
                self.bind(local, Some(t))?;
                Ok(())
            }
            None => {
                self.bind(local, found)?;
                Ok(())
            }
        }
    }

    /// Adds the finding of a refused tree.
    pub fn refuse(&mut self, outcome: Outcome) -> Result<(), NoMemory>
        ensures findings { OnOk result (self.new.findings.items ≡ self.old.findings.items ++ spec.finding_in outcome) }
        ensures rows { OnOk result (self.new.rows ≡ self.old.rows) }
        ensures locals { OnOk result (self.new.locals.entries ≡ self.old.locals.entries) }
    {
        match outcome {
            Outcome::Refused(rule, span) => {
                self.findings.push(Finding { rule, span })?;
                Ok(())
            }
            _ => Ok(()),
        }
    }

    /// Adds the rows of trees of one type.
    fn enclose(&mut self, trees: &[u32], found: Option<KtType>) -> Result<(), NoMemory>
        ensures rows { OnOk result (self.new.rows ≡ self.old.rows ++ rows_of trees.now found) }
        ensures findings { OnOk result (self.new.findings.items ≡ self.old.findings.items) }
        ensures locals { OnOk result (self.new.locals.entries ≡ self.old.locals.entries) }
    {
        for tree in trees {
            self.rows.push(TypeRow { tree: *tree, found })?;
        }
        Ok(())
    }

    /// Adds the rows of a tree and of the parentheses around it, and its finding.
    pub fn note(&mut self, stem: &Stem, outcome: Outcome) -> Result<(), NoMemory>
        ensures { OnOk result (Adds self.old self.new (own_rows stem.now (spec.type_in outcome)) (spec.finding_in outcome)) }
    {
        let found = type_in(outcome);
        self.rows.push(TypeRow {
            tree: stem.number,
            found,
        })?;
        self.enclose(stem.parens.as_slice(), found)?;
        self.refuse(outcome)?;
        Ok(())
    }

    /// Adds rows.
    fn add_rows(&mut self, rows: &[TypeRow]) -> Result<(), NoMemory>
        ensures rows { OnOk result (self.new.rows ≡ self.old.rows ++ rows.now) }
        ensures findings { OnOk result (self.new.findings.items ≡ self.old.findings.items) }
        ensures locals { OnOk result (self.new.locals.entries ≡ self.old.locals.entries) }
    {
        for row in rows {
            self.rows.push(*row)?;
        }
        Ok(())
    }

    /// Adds findings.
    fn add_findings(&mut self, findings: &[Finding]) -> Result<(), NoMemory>
        ensures findings { OnOk result (self.new.findings.items ≡ self.old.findings.items ++ findings.now) }
        ensures rows { OnOk result (self.new.rows ≡ self.old.rows) }
        ensures locals { OnOk result (self.new.locals.entries ≡ self.old.locals.entries) }
    {
        for finding in findings {
            self.findings.push(*finding)?;
        }
        Ok(())
    }

    /// Adds what was set aside.
    pub fn bring_back(&mut self, between: &Between) -> Result<(), NoMemory>
        ensures { OnOk result (Adds self.old self.new between.now.rows between.now.findings.items) }
    {
        self.add_rows(between.rows.as_slice())?;
        self.add_findings(between.findings.as_slice())?;
        Ok(())
    }

    /// Sets aside the rows and the findings, with others in their place.
    pub fn exchange(&mut self, other: Between) -> Between
        ensures { Exchanges self.old self.new other result }
    {
        let Between { rows, findings } = other;
        Between {
            rows: mem::replace(&mut self.rows, rows),
            findings: mem::replace(&mut self.findings, findings),
        }
    }
}
