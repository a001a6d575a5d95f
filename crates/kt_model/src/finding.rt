//! Violated rules, and the findings of a phase in their order.
ghost use Rattle.std.specs.Prelude.{◌≡◌, Contains};
ghost use Rattle.std.specs.Ordering.{as_partial_cmp};
ghost use Rattle.std.specs.Cmp.{partial_order_from_own_ties};
ghost use Rattle.std.specs.Cmp.Rules.{comparing};
ghost use Rattle.std.proofs.Common.{rules};
ghost use Rattle.kt_model.specs.Codes.{code_of, text_of};
ghost use Rattle.kt_model.specs.Order.{by_place, same_finding};
ghost use Rattle.kt_model.specs.Findings.{AreFindings};

use kt_tree::{NoMemory, Span};
use sqlite_items::Items;
use std::cmp::Ordering;

/// A rule, by its code.
#[derive(Clone, Copy, Debug, PartialEq, Eq)]
pub enum Rule {
    /// The source has more than 1,048,576 bytes.
    SourceTooLong,
    /// A token fits no choice of the grammar and is none that is expected, or none begins there.
    Syntax,
    /// A name has no declaration before it.
    UnknownName,
    /// A second local of one block has this name.
    DuplicateLocal,
    /// A variable is read where it may hold nothing.
    Unassigned,
    /// A `val` is assigned where it may hold a value.
    ValTwice,
    /// A second top-level name, member of one class or parameter of one list has this name.
    Duplicate,
    /// A written type or supertype names no class.
    UnknownType,
    /// A written supertype is none that the class may have there.
    Supertype,
    /// A class is properly above itself.
    SupertypeCycle,
    /// No top-level `main` has no parameters and the result `Unit`.
    NoMain,
    /// A modifier does not fit its declaration, or stands there a second time.
    Modifier,
    /// A declaration has a body that it may not have, or lacks one.
    Body,
    /// A declaration has no written type and none can be read off.
    NoType,
    /// A member has a name that no class may declare.
    ReservedMember,
    /// A member does not fit what it overrides, or overrides nothing.
    Override,
    /// The members that a class inherits under one name do not fit.
    Conflict,
    /// A class that is not abstract has a member without an implementation.
    AbstractMember,
    /// The source is not UTF-8.
    NotUtf8,
    /// No token begins at a place of the source.
    BadToken,
    /// Phrases or trees are nested too deep.
    TooDeep,
    /// A name that is read or assigned is that of no variable, but of a function or class.
    NotAValue,
    /// A name that is called is only a variable's.
    NotAFunction,
    /// A left side is neither a name nor a member behind `.`.
    AssignTarget,
    /// A tree has not the type that is needed there.
    Mismatch,
    /// A call has another number of arguments than what it calls.
    ArgumentCount,
    /// Two values that can never be equal are asked to be.
    Equality,
    /// A body has more variables than are allowed.
    TooManyLocals,
    /// The graph of a body is larger than is allowed.
    FlowTooLarge,
    /// An `if` whose value is taken has no `else`.
    NoElse,
    /// A branch without braces whose value is taken is an assignment or a loop.
    ValueExpected,
    /// The end of a body that must give a value is reached.
    NoReturn,
}

impl Rule {
    /// The code that a report prints.
    pub fn code(self) -> &'static str
        ensures { result.now ≡ code_of self }
    {
        match self {
            Rule::SourceTooLong => "SOURCE_TOO_LONG",
            Rule::Syntax => "SYNTAX",
            Rule::UnknownName => "UNKNOWN_NAME",
            Rule::DuplicateLocal => "DUPLICATE_LOCAL",
            Rule::Unassigned => "UNASSIGNED",
            Rule::ValTwice => "VAL_TWICE",
            Rule::Duplicate => "DUPLICATE",
            Rule::UnknownType => "UNKNOWN_TYPE",
            Rule::Supertype => "SUPERTYPE",
            Rule::SupertypeCycle => "SUPERTYPE_CYCLE",
            Rule::NoMain => "NO_MAIN",
            Rule::Modifier => "MODIFIER",
            Rule::Body => "BODY",
            Rule::NoType => "NO_TYPE",
            Rule::ReservedMember => "RESERVED_MEMBER",
            Rule::Override => "OVERRIDE",
            Rule::Conflict => "CONFLICT",
            Rule::AbstractMember => "ABSTRACT_MEMBER",
            Rule::NotUtf8 => "NOT_UTF8",
            Rule::BadToken => "BAD_TOKEN",
            Rule::TooDeep => "TOO_DEEP",
            Rule::NotAValue => "NOT_A_VALUE",
            Rule::NotAFunction => "NOT_A_FUNCTION",
            Rule::AssignTarget => "ASSIGN_TARGET",
            Rule::Mismatch => "MISMATCH",
            Rule::ArgumentCount => "ARGUMENT_COUNT",
            Rule::Equality => "EQUALITY",
            Rule::TooManyLocals => "TOO_MANY_LOCALS",
            Rule::FlowTooLarge => "FLOW_TOO_LARGE",
            Rule::NoElse => "NO_ELSE",
            Rule::ValueExpected => "VALUE_EXPECTED",
            Rule::NoReturn => "NO_RETURN",
        }
    }

    /// The text that a report prints behind the code.
    pub fn text(self) -> &'static str
        ensures { result.now ≡ text_of self }
    {
        match self {
            Rule::SourceTooLong => "source is too long",
            Rule::Syntax => "unexpected token",
            Rule::UnknownName => "unknown name",
            Rule::DuplicateLocal => "name is declared already",
            Rule::Unassigned => "variable may be unassigned",
            Rule::ValTwice => "val may be assigned twice",
            Rule::Duplicate => "name is declared already",
            Rule::UnknownType => "unknown type",
            Rule::Supertype => "supertype does not fit",
            Rule::SupertypeCycle => "class is its own supertype",
            Rule::NoMain => "no function main without parameters",
            Rule::Modifier => "modifier does not fit",
            Rule::Body => "body does not fit",
            Rule::NoType => "type must be written",
            Rule::ReservedMember => "member name is reserved",
            Rule::Override => "override does not fit",
            Rule::Conflict => "inherited members conflict",
            Rule::AbstractMember => "abstract member is not implemented",
            Rule::NotUtf8 => "source is not UTF-8",
            Rule::BadToken => "no token begins here",
            Rule::TooDeep => "nesting is too deep",
            Rule::NotAValue => "name is not a value",
            Rule::NotAFunction => "name is not a function",
            Rule::AssignTarget => "cannot be assigned",
            Rule::Mismatch => "type does not fit",
            Rule::ArgumentCount => "wrong number of arguments",
            Rule::Equality => "values cannot be equal",
            Rule::TooManyLocals => "too many variables",
            Rule::FlowTooLarge => "body is too large",
            Rule::NoElse => "else is missing",
            Rule::ValueExpected => "value expected",
            Rule::NoReturn => "end is reached without a value",
        }
    }
}

/// A violated rule, and the span that names it. Findings are ordered by start, by end, and then by the bytes of the code.
#[derive(Clone, Copy, Debug)]
pub struct Finding {
    pub rule: Rule,
    pub span: Span,
}

impl PartialEq for Finding {
    ghost eq = { same_finding };

    ghost laws = { Prim.search (comparing, rules) depth 9 };

    fn eq(&self, other: &Finding) -> bool {
        self.span.start == other.span.start
            && self.span.end == other.span.end
            && self.rule.code() == other.rule.code()
    }
}

impl Eq for Finding {
    ghost laws = { Prim.search (comparing, rules) depth 9 };
}

impl Ord for Finding {
    ghost cmp = { by_place };

    ghost total = { Prim.search (comparing, rules) depth 9 };

    ghost matches_partial_cmp = { Prim.search (comparing, rules) depth 9 };

    ghost matches_eq = { Prim.search (comparing, rules) depth 9 };

    fn cmp(&self, other: &Finding) -> Ordering {
        let start = self.span.start.cmp(&other.span.start);
        let end = self.span.end.cmp(&other.span.end);
        start.then(end.then(self.rule.code().cmp(other.rule.code())))
    }
}

impl PartialOrd for Finding {
    ghost partial_cmp = { as_partial_cmp by_place };

    ghost laws = { partial_order_from_own_ties (Prim.search (comparing, rules) depth 9) (Prim.search (comparing, rules) depth 9) };

    fn partial_cmp(&self, other: &Finding) -> Option<Ordering> {
        Some(self.cmp(other))
    }
}

/// Findings. Clauses see their list.
pub type Findings = Items<Finding>;

/// The findings sorted by start, end and code, none twice. It takes no memory.
pub fn in_order(found: Vec<Finding>) -> Findings
    ensures { AreFindings (Contains found.items) result }
{
    let mut found = found;
    found.sort_unstable();
    found.dedup();
    Items::from_vec(found)
}

/// Why a phase gives no result: rules are violated, or there is no memory.
#[derive(Drop)]
pub enum PhaseFault {
    /// All violated rules of the phase, in order. There is at least one.
    Findings(Findings),
    NoMemory,
}

impl From<NoMemory> for PhaseFault {
    ghost use Rattle.kt_model.specs.declared.finding.PhaseFault.TheVariants as fault;

    ghost from_gives = { λ _ e. e ≡ fault.NoMemory };

    fn from(_error: NoMemory) -> PhaseFault {
        PhaseFault::NoMemory
    }
}
