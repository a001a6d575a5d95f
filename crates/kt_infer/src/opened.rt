//! Opened trees: what they are in a way, and how they are ended in it.
ghost use Rattle.std.specs.Prelude.{◌≡◌, ◌&&◌, ◌∷◌, ◌++◌, [], Some, true, IfOk, OnOk};
ghost use Rattle.kt_model.specs.Classes.{outlines, written};
ghost use Rattle.kt_typing.specs.Typing as spec;
ghost use Rattle.kt_infer.specs.Noting.{Adds, Closes};
ghost use Rattle.kt_infer.specs.Opening.{IsOpened, enclosed_by, end_of, findings_behind, joined_of, joined_outcome, last_type, outcome_of, rows_behind, stem_in, typed_before};

use crate::choices::{
    UNIT, branch_way, claimed, is_text, joined_claim, joined_complete, outcome, sum_operator,
    type_in,
};
use crate::notes::{Between, Notes, Opened, Stem};
use kt_model::class_table::ClassTable;
use kt_model::finding::Rule;
use kt_model::kinds::KtType;
use kt_tree::{NoMemory, Span};
use kt_typing::{Claim, Operator, Outcome, Way};
use sqlite_items::{Boxed, Items};
use std::alloc::Global;

/// A tree that is the same in each way.
pub fn opened_tree(alloc: Global, number: u32, span: Span, complete: bool, claim: Claim) -> Opened
    ensures { IsOpened result number span complete claim }
{
    let stem = Stem {
        number,
        span,
        parens: Items::new(alloc),
        complete,
    };
    Opened::Alone(stem, claim)
}

/// A tree of a form that is not open.
pub fn shut(alloc: Global, number: u32, span: Span) -> Opened
    ensures { IsOpened result number span true (Claim.Breaks Rule.Syntax span) }
{
    opened_tree(alloc, number, span, true, Claim::Breaks(Rule::Syntax, span))
}

/// An `if` whose value is taken, with what its branches end in.
pub fn joined_tree(
    alloc: Global,
    number: u32,
    span: Span,
    complete: bool,
    first: Opened,
    between: Between,
    second: Opened,
) -> Result<Opened, NoMemory>
    ensures { IfOk result (λ o. o ≡ joined_of number span complete first between second) }
{
    let stem = Stem {
        number,
        span,
        parens: Items::new(alloc),
        complete,
    };
    let first = Boxed::new(alloc, first)?;
    let second = Boxed::new(alloc, second)?;
    Ok(Opened::Joined(stem, first, between, second))
}

/// What an `if` is, by the types of what its branches end in.
fn joined(
    table: &ClassTable,
    way: Way,
    stem: &Stem,
    first: Option<Option<KtType>>,
    second: Option<Option<KtType>>,
) -> Outcome
    ensures { result ≡ joined_outcome (written (outlines table.now)) way stem.now (last_type first) (last_type second) }
{
    let claim = joined_claim(table, way, stem.span, first, second);
    let complete = joined_complete(stem.complete, first, second);
    outcome(table, Way::Plain, stem.span, complete, claim)
}

/// What has a type already, or none.
fn typed_before(found: Option<KtType>) -> Outcome
    ensures { result ≡ typed_before found }
{
    match found {
        Some(t) => Outcome::Stands(t),
        None => Outcome::Untyped,
    }
}

impl Stem {
    /// With one more pair of parentheses around it.
    fn enclosed(self, number: u32) -> Result<Stem, NoMemory>
        ensures { IfOk result (λ s. s ≡ stem_in number self) }
    {
        let Stem {
            number: own,
            span,
            mut parens,
            complete,
        } = self;
        parens.push(number)?;
        Ok(Stem {
            number: own,
            span,
            parens,
            complete,
        })
    }
}

impl Opened {
    /// With one more pair of parentheses around it.
    pub fn enclosed(self, number: u32) -> Result<Opened, NoMemory>
        ensures { IfOk result (λ o. o ≡ enclosed_by number self) }
    {
        match self {
            Opened::Alone(stem, claim) => {
                let stem = stem.enclosed(number)?;
                Ok(Opened::Alone(stem, claim))
            }
            Opened::Joined(stem, first, between, second) => {
                let stem = stem.enclosed(number)?;
                Ok(Opened::Joined(stem, first, between, second))
            }
            Opened::EmptyBlock(span) => Ok(Opened::EmptyBlock(span)),
            Opened::Ended(found) => Ok(Opened::Ended(found)),
            Opened::Absent => Ok(Opened::Absent),
        }
    }

    /// The type of an end, if there is one, by what it is in its way.
    fn end(&self, outcome: Outcome) -> Option<Option<KtType>>
        ensures { last_type result ≡ end_of self.now outcome }
    {
        match self {
            Opened::Alone(_, _) => Some(type_in(outcome)),
            Opened::Joined(_, _, _, _) => Some(type_in(outcome)),
            Opened::EmptyBlock(_) => Some(type_in(outcome)),
            Opened::Ended(_) => Some(type_in(outcome)),
            Opened::Absent => None,
        }
    }

    /// What the tree is in a way.
    fn stands(&self, table: &ClassTable, way: Way) -> Outcome
        ensures { result ≡ outcome_of (written (outlines table.now)) way self.now }
    {
        match self {
            Opened::Alone(stem, claim) => outcome(table, way, stem.span, stem.complete, *claim),
            Opened::Joined(stem, first, _, second) => {
                let inner = branch_way(way);
                let a = first.get().stands(table, inner);
                let b = second.get().stands(table, inner);
                joined(table, way, stem, first.get().end(a), second.get().end(b))
            }
            Opened::EmptyBlock(span) => claimed(table, way, *span, Claim::Gives(UNIT)),
            Opened::Ended(found) => typed_before(*found),
            Opened::Absent => Outcome::Untyped,
        }
    }

    /// What `+` asks and gives where the tree is its left operand.
    pub fn sum_operator(&self, table: &ClassTable) -> Option<Operator>
        ensures { result ≡ Some (spec.sum_operator (spec.is_text (spec.type_in (outcome_of (written (outlines table.now)) Way.Inferred self.now)))) }
    {
        let found = type_in(self.stands(table, Way::Inferred));
        Some(sum_operator(is_text(found)))
    }
}

impl Notes {
    /// Ends a tree in its way, and gives what it is.
    fn settle(&mut self, table: &ClassTable, way: Way, opened: &Opened) -> Result<Outcome, NoMemory>
        ensures outcome { IfOk result (λ r. r ≡ outcome_of (written (outlines table.now)) way opened.now) }
        ensures notes { OnOk result (Adds self.old self.new (rows_behind (written (outlines table.now)) way opened.now) (findings_behind (written (outlines table.now)) way opened.now)) }
    {
        match opened {
            Opened::Alone(stem, claim) => {
                let outcome = outcome(table, way, stem.span, stem.complete, *claim);
                self.note(stem, outcome)?;
                Ok(outcome)
            }
            Opened::Joined(stem, first, between, second) => {
                let inner = branch_way(way);
                let a = self.settle(table, inner, first.get())?;
                self.bring_back(between)?;
                let b = self.settle(table, inner, second.get())?;
                let outcome = joined(table, way, stem, first.get().end(a), second.get().end(b));
                self.note(stem, outcome)?;
                Ok(outcome)
            }
            Opened::EmptyBlock(span) => {
                let outcome = claimed(table, way, *span, Claim::Gives(UNIT));
                self.refuse(outcome)?;
                Ok(outcome)
            }
            Opened::Ended(found) => Ok(typed_before(*found)),
            Opened::Absent => Ok(Outcome::Untyped),
        }
    }

    /// Ends a tree in its way, and gives its type.
    pub fn close(
        &mut self,
        table: &ClassTable,
        way: Way,
        opened: &Opened,
    ) -> Result<Option<KtType>, NoMemory>
        ensures { IfOk result (Closes (written (outlines table.now)) way self.old self.new opened.now) }
    {
        let outcome = self.settle(table, way, opened)?;
        Ok(type_in(outcome))
    }
}
