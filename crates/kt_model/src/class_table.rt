//! The class table.
ghost use Rattle.std.specs.Prelude.{◌≡◌, ◌<◌, ◌↔◌, ◌∷◌, ◌==◌, ℕ, Contains, find, length, option_and_then};
ghost use Rattle.std.specs.List.{flat_map};
ghost use Rattle.kt_model.specs.Settled.{IsSettled};
ghost use Rattle.kt_model.specs.Members.{implementation_of, member_of};
ghost use Rattle.kt_model.specs.Classes.{Sub, listed, outlines, supers, supers_of, written};

use crate::kinds::{KtType, Types};
use sqlite_items::Items;
use std::marker::Model;

/// Numbers of classes or names. Clauses see their list.
pub type Numbers = Items<u32>;

/// A member, by the number of the class that declares it and its place in that class's list, from 0.
#[derive(Clone, Copy, Debug, PartialEq, Eq)]
pub struct Member {
    pub class: u32,
    pub place: u32,
}

/// What a class is; an interface counts as one.
#[derive(Clone, Copy, Debug, PartialEq, Eq)]
pub enum ClassKind {
    Final,
    Open,
    Abstract,
    Interface,
}

/// What a member is. A field is a property without getter that is not abstract.
#[derive(Clone, Copy, Debug, PartialEq, Eq)]
pub enum MemberKind {
    Function,
    AbstractFunction,
    Field,
    Getter,
    AbstractProperty,
}

/// The type of a parameter: a value's, or a function's parameter types and result.
#[derive(Drop)]
pub enum ParamType {
    Value(KtType),
    Lambda(Types, KtType),
}

/// A member as it is declared. `may_override` says whether a class below may override it. `result` is `None` where no type is
/// written and none can be read off.
#[derive(Drop)]
pub struct MemberRow {
    pub name: u32,
    pub kind: MemberKind,
    pub is_var: bool,
    pub is_private: bool,
    pub may_override: bool,
    pub params: Items<ParamType>,
    pub result: Option<KtType>,
}

/// What a class has under a name.
#[derive(Clone, Copy, Debug, PartialEq, Eq)]
pub struct Settled {
    pub name: u32,
    pub member: Option<Member>,
    pub implementation: Option<Member>,
}

/// A class: its name, what is written of it, and what it has.
#[derive(Drop)]
pub struct ClassRow {
    pub name: u32,
    pub kind: ClassKind,
    /// The numbers of the written supertypes, in order.
    pub supers: Numbers,
    /// The class itself and all that are above it, in order, `Any` last.
    pub above: Numbers,
    /// The constructor's properties, then the others in the order of the text.
    pub members: Items<MemberRow>,
    /// What it has under each name that it or a class above it declares, each once.
    pub settled: Items<Settled>,
}

/// The classes of a file: those that are built in, then the file's, in the order of the text.
#[derive(Drop)]
pub struct ClassTable {
    pub classes: Items<ClassRow>,
}

impl Model for ClassTable {
    ghost use Rattle.std.specs.Prelude.{List};
    ghost use Rattle.kt_model.specs.declared.class_table.ClassRow.{ClassRow};
    ghost use Rattle.kt_model.specs.Settled.{IsSettled};

    ghost Value = { List ClassRow };

    ghost view = { λ t. t.classes };

    ghost invariant = { λ t. IsSettled t.classes };
}

fn named(settled: &[Settled], name: u32) -> Option<Settled>
    ensures { result ≡ find (λ s. s.name == name) settled.now }
{
    settled.iter().copied().find(|s| s.name == name)
}

impl ClassTable {
    /// The table of these rows. Its caller knows that they are settled.
    pub fn new(classes: Items<ClassRow>) -> ClassTable
        requires { IsSettled classes }
        ensures { result ≡ classes }
    {
        ClassTable { classes }
    }

    /// The rows, by the classes' numbers.
    pub fn rows(&self) -> &[ClassRow]
        ensures { result.now ≡ self.now }
    {
        self.classes.as_slice()
    }

    /// A class and all that are above it, in order, `Any` last.
    pub fn above(&self, class: u32) -> &[u32]
        requires { class < length self.now }
        ensures { result.now ≡ supers (written (outlines self.now)) class }
    {
        let row = &self.classes.as_slice()[class as usize];
        row.above.as_slice()
    }

    /// What the class has under the name. `None` where neither it nor a class above it declares the name; then it has nothing.
    pub fn settled(&self, class: u32, name: u32) -> Option<Settled>
        requires { class < length self.now }
        ensures member { member_of (outlines self.now) class name ≡ option_and_then (λ s. s.member) result }
        ensures implementation { implementation_of (outlines self.now) class name ≡ option_and_then (λ s. s.implementation) result }
    {
        let row = &self.classes.as_slice()[class as usize];
        named(row.settled.as_slice(), name)
    }

    /// What stands in `supers` is exactly what a class is under.
    pub fn is_complete(&self)
        ensures { (c d : ℕ) → Contains (supers (written (outlines self.now)) c) d ↔ Sub (written (outlines self.now)) c d }
    {
        let _classes = &self.classes;
    }

    /// `supers` lists a class, then the `supers` of each written supertype.
    pub fn is_recursive(&self)
        ensures { (c : ℕ) → supers (written (outlines self.now)) c ≡ listed (c ∷ flat_map (supers (written (outlines self.now))) (supers_of (written (outlines self.now)) c)) }
    {
        let _classes = &self.classes;
    }

    /// No class is above itself, and each row has all that are above it.
    pub fn is_settled(&self)
        ensures { IsSettled self.now }
    {
        let _classes = &self.classes;
    }
}
