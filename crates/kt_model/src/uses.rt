//! What the names of a file stand for.
ghost use Rattle.std.specs.Prelude.{◌≡◌, ◌==◌, map, find, slice_get, option_and_then};
ghost use Rattle.std.specs.List.Sorted.{IsStrictlyIncreasing};
ghost use Rattle.kt_model.specs.NameUses.{named_at, named_if, parameters_at, declaration_type, function_place};

use crate::built_ins::BUILT_IN_FUNCTIONS;
use crate::class_table::{ClassTable, Member, Numbers};
use crate::kinds::KtType;
use kt_tree::Span;
use kt_tree::ast::File;
use sqlite_items::Items;
use std::marker::Model;

/// What is declared. A member has its class and its place there, a function its place among the file's functions, a class its number.
#[derive(Clone, Copy, Debug, PartialEq, Eq)]
pub enum DeclarationKind {
    Local,
    Parameter,
    Member(Member),
    Function(u32),
    Class(u32),
    BuiltIn,
}

/// A declaration. The span is that of its name, from 0 to 0 for what is built in.
#[derive(Clone, Copy, Debug, PartialEq, Eq)]
pub struct Declaration {
    pub kind: DeclarationKind,
    pub name: u32,
    pub span: Span,
    /// Whether it may be assigned more than once: it is declared by `var`.
    pub is_var: bool,
    /// Whether it is a function whose written result is `Nothing`.
    pub is_nothing: bool,
    /// The type that is written: of a local or a parameter its own, of a function its result. A function with a block in braces has the result `Unit` where
    /// none is written.
    pub written: Option<KtType>,
}

/// What the name in a tree stands for, by the declaration's place. There is a row for each name that stands alone, each call of a name, each assignment of
/// a name, and each declaration of a local, which is a use of its own tree.
#[derive(Clone, Copy, Debug, PartialEq, Eq)]
pub struct UseRow {
    pub tree: u32,
    pub declaration: u32,
}

/// What a name stands for in a body, as far as its graph looks at it.
#[derive(Clone, Copy, Debug, PartialEq, Eq)]
pub enum Named {
    /// A local or a parameter: its declaration, and whether it is assigned only once.
    Variable(u32, bool),
    /// A function of the file: its place, and whether its calls return.
    Function(u32, bool),
    /// A built-in function: its name's number, and whether its calls return.
    BuiltIn(u32, bool),
    /// Anything else, or nothing.
    Other,
}

/// The declarations of a file, and what each name stands for. The rows rise by tree.
#[derive(Drop)]
pub struct Uses {
    declarations: Items<Declaration>,
    uses: Items<UseRow>,
    /// The declarations of each function's parameters.
    parameters: Items<Numbers>,
}

impl Model for Uses {
    ghost use Rattle.std.specs.Prelude.{map};
    ghost use Rattle.std.specs.List.Sorted.{IsStrictlyIncreasing};
    ghost use Rattle.kt_model.specs.NameUses.{Resolved};

    ghost Value = { Resolved };

    ghost view = { λ u. record { declared = u.declarations; rows = u.uses; parameters = u.parameters } };

    ghost invariant = { λ u. IsStrictlyIncreasing (map (λ row. row.tree) u.uses) };
}

/// The row of a tree, by halving the rows.
fn row_of(rows: &[UseRow], tree: u32) -> Option<UseRow>
    requires { IsStrictlyIncreasing (map (λ row. row.tree) rows.now) }
    ensures { result ≡ find (λ row. row.tree == tree) rows.now }
{
    match rows.binary_search_by_key(&tree, |row| row.tree) {
        Ok(place) => Some(rows[place]),
        Err(_) => None,
    }
}

/// What a declaration at a place is to a name.
fn named_by(declarations: &[Declaration], place: u32) -> Named
    ensures { result ≡ named_if place (slice_get declarations.now place) }
{
    match declarations.get(place as usize) {
        Some(declared) => match declared.kind {
            DeclarationKind::Local | DeclarationKind::Parameter => {
                Named::Variable(place, !declared.is_var)
            }
            DeclarationKind::Function(f) => Named::Function(f, !declared.is_nothing),
            DeclarationKind::BuiltIn => Named::BuiltIn(declared.name, !declared.is_nothing),
            DeclarationKind::Member(_) | DeclarationKind::Class(_) => Named::Other,
        },
        None => Named::Other,
    }
}

impl Uses {
    /// What the names of a file stand for, by these declarations, rows that rise by tree, and the declarations of each function's parameters.
    pub fn new(
        declarations: Items<Declaration>,
        uses: Items<UseRow>,
        parameters: Items<Numbers>,
    ) -> Uses
        requires { IsStrictlyIncreasing (map (λ row. row.tree) uses) }
        ensures { result ≡ record { declared = declarations; rows = uses; parameters = parameters } }
    {
        Uses {
            declarations,
            uses,
            parameters,
        }
    }

    /// The declarations of the file; a declaration's number is its place here.
    pub fn declarations(&self) -> &[Declaration]
        ensures { result.now ≡ self.now.declared }
    {
        self.declarations.as_slice()
    }

    /// What each name stands for, by the trees' numbers, which rise.
    pub fn rows(&self) -> &[UseRow]
        ensures { result.now ≡ self.now.rows }
    {
        self.uses.as_slice()
    }

    /// What the name in the tree with this number stands for.
    #[tactic(auto, unfolding(crate::specs::NameUses::named_at))]
    pub fn named(&self, tree: u32) -> Named
        ensures { result ≡ named_at self.now tree }
    {
        match row_of(self.uses.as_slice(), tree) {
            Some(row) => named_by(self.declarations.as_slice(), row.declaration),
            None => Named::Other,
        }
    }

    /// The type that is written at a declaration, by its place; `None` where none is written, or there is no such declaration.
    pub fn written(&self, declaration: usize) -> Option<KtType>
        ensures { result ≡ option_and_then (λ d. d.written) (slice_get self.now.declared declaration) }
    {
        match self.declarations.as_slice().get(declaration) {
            Some(declared) => declared.written,
            None => None,
        }
    }

    /// The written type of a function's result, by its place among the file's functions; that of a block without one is `Unit`. `None` where none is
    /// written, or there is no such function.
    pub fn function_result(&self, function: u32) -> Option<KtType>
        ensures { result ≡ declaration_type self.now (function_place function) }
    {
        self.written(BUILT_IN_FUNCTIONS + function as usize)
    }

    /// The declarations of a function's parameters, by its place among the file's functions; none where there is no such function.
    pub fn parameters(&self, function: u32) -> &[u32]
        ensures { result.now ≡ parameters_at self.now function }
    {
        match self.parameters.as_slice().get(function as usize) {
            Some(numbers) => numbers.as_slice(),
            None => &[],
        }
    }
}

/// Whose body a body is: a function's by its place among the file's functions, a member's or a getter's by its place among all members, a class's by its number.
#[derive(Clone, Copy, Debug, PartialEq, Eq)]
pub enum Owner {
    Function(u32),
    Member(u32),
    Getter(u32),
    Class(u32),
}

/// A body of a file, with what its names stand for.
#[derive(Clone, Copy)]
pub struct Body<'a> {
    pub file: &'a File,
    pub table: &'a ClassTable,
    pub uses: &'a Uses,
    pub owner: Owner,
}
