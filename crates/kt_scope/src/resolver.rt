//! One pass over what happens to names: each event gives its declaration, its use and its findings.
ghost use Rattle.std.specs.Prelude.{◌≡◌, ◌+◌, ◌<◌, ◌^◌, ◌∷◌, ◌++◌, ◌&&◌, ◌||◌, [], not, ℕ, OnOk, IfOk, length, reverse, option_map, is_some, Some, List};
ghost use Rattle.kt_tree.specs.declared.ast.part.Ident.{Ident};
ghost use Rattle.kt_model.specs.declared.uses.Declaration.{Declaration};
ghost use Rattle.kt_model.specs.declared.finding.Rule.TheVariants.{UnknownName, NotAValue, NotAFunction, DuplicateLocal};
ghost use Rattle.kt_model.specs.NameEvents.{Events};
ghost use Rattle.kt_model.specs.TopNames.{Tops};
ghost use Rattle.kt_model.specs.Outlines.{written_type};
ghost use Rattle.kt_model.specs.declared.name_events.NameEvent.TheVariants as event;
ghost use Rattle.kt_model.specs.Scopes.{first_function, first_variable, top_named, use_of, function_of, declaration_by};
ghost use Rattle.kt_model.specs.DeclarationRules.{where_};
ghost use Rattle.kt_scope.specs.declared.scopes.Open.TheVariants.{Scope, Variable};
ghost use Rattle.kt_scope.specs.Stack.{variable_in, is_declared_in, top_of, value_findings, call_findings, Reaches};

use crate::scopes::{Open, close, is_declared, variable};
use kt_model::built_ins::BUILT_IN_FUNCTIONS;
use kt_model::finding::{Finding, Rule};
use kt_model::kinds::{Head, KtType};
use kt_model::name_events::NameEvent;
use kt_model::top_names::TopNames;
use kt_model::uses::{Declaration, DeclarationKind, UseRow};
use kt_tree::ast::{Ident, TypeRef};
use kt_tree::{NoMemory, Span};
use std::alloc::Global;

/// What has a name outside of functions.
#[derive(Clone, Copy, Debug, PartialEq, Eq)]
pub(crate) enum TopName {
    /// A function, by its place among those of the file.
    Function(usize),
    /// A built-in function, by its place among those that are open.
    BuiltIn(u32),
    Class,
    Unnamed,
}

/// What has that name outside of functions.
#[tactic(auto, unfolding(kt_model::specs::Scopes::top_named))]
pub(crate) fn top_name(tops: &TopNames, name: u32) -> TopName
    ensures { top_of result ≡ top_named tops.now name }
{
    if let Some(place) = tops.function_named(name) {
        return TopName::Function(place);
    }
    if tops.class_named(name).is_some() {
        return TopName::Class;
    }
    match name {
        20 => TopName::BuiltIn(0),
        21 => TopName::BuiltIn(1),
        23 => TopName::BuiltIn(2),
        24 => TopName::BuiltIn(3),
        25 => TopName::BuiltIn(4),
        _ => TopName::Unnamed,
    }
}

/// Puts in the finding of a rule at a span, where its condition holds.
fn push_where(
    found: &mut Vec<Finding>,
    condition: bool,
    rule: Rule,
    span: Span,
) -> Result<(), NoMemory>
    ensures { OnOk result (found.new.items ≡ found.old.items ++ where_ condition rule span) }
{
    if condition {
        found.push(Finding { rule, span })?;
    }
    Ok(())
}

/// Puts in the use of a tree.
fn push_use(rows: &mut Vec<UseRow>, tree: u32, declaration: u32) -> Result<(), NoMemory>
    ensures { OnOk result (rows.new.items ≡ rows.old.items ++ use_of tree (Some declaration)) }
{
    rows.push(UseRow { tree, declaration })?;
    Ok(())
}

/// The declaration of the function of the file at a place. `NoMemory` where its number would be too large.
fn function_declaration(place: usize) -> Result<u32, NoMemory>
    ensures { IfOk result (λ declaration. declaration ≡ first_function + place) }
{
    if place > 4294967290 {
        return Err(NoMemory);
    }
    Ok((BUILT_IN_FUNCTIONS + place) as u32)
}

/// The type that a word names, or `Any` where it names none.
pub(crate) fn type_of(tops: &TopNames, w: TypeRef) -> KtType
    ensures { result ≡ written_type tops.now w }
{
    KtType {
        head: tops.head_named(w.name.name).unwrap_or(Head::Any),
        nullable: w.nullable,
    }
}

/// The type that a word names where one is written.
fn type_if(tops: &TopNames, written: Option<TypeRef>) -> Option<KtType>
    ensures { result ≡ option_map (written_type tops.now) written }
{
    match written {
        Some(w) => Some(type_of(tops, w)),
        None => None,
    }
}

/// Where the pass stands: the open scopes, and what was declared, used and found so far.
#[derive(Drop)]
pub(crate) struct Resolver {
    pub scopes: Vec<Open>,
    pub declared: Vec<Declaration>,
    pub rows: Vec<UseRow>,
    pub found: Vec<Finding>,
}

impl Resolver {
    /// Declares a variable, and gives its declaration. `NoMemory` also where its number would be too large.
    fn declare(&mut self, declaration: Declaration) -> Result<u32, NoMemory>
        ensures number { IfOk result (λ n. n ≡ length self.old.declared.items) }
        ensures scopes { OnOk result (self.new.scopes.items ≡ self.old.scopes.items ++ Variable declaration.name (length self.old.declared.items) ∷ []) }
        ensures declared { OnOk result (self.new.declared.items ≡ self.old.declared.items ++ declaration ∷ []) }
        ensures rows { self.new.rows.items ≡ self.old.rows.items }
        ensures found { self.new.found.items ≡ self.old.found.items }
    {
        let len = self.declared.len();
        if len > 4294967295 {
            return Err(NoMemory);
        }
        let number = len as u32;
        self.scopes.push(Open::Variable {
            name: declaration.name,
            declaration: number,
        })?;
        self.declared.push(declaration)?;
        Ok(number)
    }

    /// A name of a value: the use of the innermost variable of that name, or what is violated.
    fn value(&mut self, tops: &TopNames, tree: u32, name: Ident) -> Result<(), NoMemory>
        ensures rows { OnOk result (self.new.rows.items ≡ self.old.rows.items ++ use_of tree (variable_in name.name (reverse self.old.scopes.items))) }
        ensures found { OnOk result (self.new.found.items ≡ self.old.found.items ++ value_findings (variable_in name.name (reverse self.old.scopes.items)) (top_named tops.now name.name) name.span) }
        ensures scopes { self.new.scopes.items ≡ self.old.scopes.items }
        ensures declared { self.new.declared.items ≡ self.old.declared.items }
    {
        match variable(&self.scopes, name.name) {
            Some(declaration) => push_use(&mut self.rows, tree, declaration),
            None => match top_name(tops, name.name) {
                TopName::Unnamed => {
                    push_where(&mut self.found, true, Rule::UnknownName, name.span)
                }
                _ => push_where(&mut self.found, true, Rule::NotAValue, name.span),
            },
        }
    }

    /// The name of a call: the use of the function of that name, or what is violated.
    fn call(&mut self, tops: &TopNames, tree: u32, name: Ident) -> Result<(), NoMemory>
        ensures rows { OnOk result (self.new.rows.items ≡ self.old.rows.items ++ use_of tree (function_of (top_named tops.now name.name))) }
        ensures found { OnOk result (self.new.found.items ≡ self.old.found.items ++ call_findings (variable_in name.name (reverse self.old.scopes.items)) (top_named tops.now name.name) name.span) }
        ensures scopes { self.new.scopes.items ≡ self.old.scopes.items }
        ensures declared { self.new.declared.items ≡ self.old.declared.items }
    {
        match top_name(tops, name.name) {
            TopName::Function(place) => {
                let declaration = function_declaration(place)?;
                push_use(&mut self.rows, tree, declaration)
            }
            TopName::BuiltIn(place) => push_use(&mut self.rows, tree, place),
            TopName::Class => push_where(&mut self.found, true, Rule::UnknownName, name.span),
            TopName::Unnamed => match variable(&self.scopes, name.name) {
                Some(_) => push_where(&mut self.found, true, Rule::NotAFunction, name.span),
                None => push_where(&mut self.found, true, Rule::UnknownName, name.span),
            },
        }
    }

    /// A local: its declaration, its use of itself, and whether its scope declares the name already.
    fn local(
        &mut self,
        tops: &TopNames,
        tree: u32,
        name: Ident,
        is_var: bool,
        written: Option<TypeRef>,
    ) -> Result<(), NoMemory>
        ensures scopes { OnOk result (self.new.scopes.items ≡ self.old.scopes.items ++ Variable name.name (length self.old.declared.items) ∷ []) }
        ensures declared { OnOk result (self.new.declared.items ≡ self.old.declared.items ++ declaration_by tops.now (event.Local tree name is_var written)) }
        ensures rows { OnOk result (self.new.rows.items ≡ self.old.rows.items ++ use_of tree (Some (length self.old.declared.items))) }
        ensures found { OnOk result (self.new.found.items ≡ self.old.found.items ++ where_ (is_declared_in name.name (reverse self.old.scopes.items)) DuplicateLocal name.span) }
    {
        let is_second = is_declared(&self.scopes, name.name);
        push_where(&mut self.found, is_second, Rule::DuplicateLocal, name.span)?;
        let number = self.declare(Declaration {
            kind: DeclarationKind::Local,
            name: name.name,
            span: name.span,
            is_var,
            is_nothing: false,
            written: type_if(tops, written),
        })?;
        push_use(&mut self.rows, tree, number)
    }

    /// A parameter: its declaration.
    fn parameter(&mut self, tops: &TopNames, name: Ident, written: TypeRef) -> Result<(), NoMemory>
        ensures scopes { OnOk result (self.new.scopes.items ≡ self.old.scopes.items ++ Variable name.name (length self.old.declared.items) ∷ []) }
        ensures declared { OnOk result (self.new.declared.items ≡ self.old.declared.items ++ declaration_by tops.now (event.Parameter name written)) }
        ensures rows { self.new.rows.items ≡ self.old.rows.items }
        ensures found { self.new.found.items ≡ self.old.found.items }
    {
        self.declare(Declaration {
            kind: DeclarationKind::Parameter,
            name: name.name,
            span: name.span,
            is_var: false,
            is_nothing: false,
            written: Some(type_of(tops, written)),
        })?;
        Ok(())
    }

    /// A scope begins.
    fn open(&mut self) -> Result<(), NoMemory>
        ensures scopes { OnOk result (self.new.scopes.items ≡ self.old.scopes.items ++ Scope ∷ []) }
        ensures declared { self.new.declared.items ≡ self.old.declared.items }
        ensures rows { self.new.rows.items ≡ self.old.rows.items }
        ensures found { self.new.found.items ≡ self.old.found.items }
    {
        self.scopes.push(Open::Scope)?;
        Ok(())
    }

    /// Goes over one event.
    fn event(&mut self, tops: &TopNames, event: NameEvent) -> Result<(), NoMemory>
        ensures { (tops_declared : List Declaration) (before : Events) → Reaches tops.now tops_declared before self.old → OnOk result (Reaches tops.now tops_declared (event ∷ before) self.new) }
    {
        match event {
            NameEvent::Opens => self.open(),
            NameEvent::Closes => {
                close(&mut self.scopes);
                Ok(())
            }
            NameEvent::Parameter { name, written } => self.parameter(tops, name, written),
            NameEvent::Local {
                tree,
                name,
                is_var,
                written,
            } => self.local(tops, tree, name, is_var, written),
            NameEvent::Reads { tree, name } => self.value(tops, tree, name),
            NameEvent::Calls { tree, name } => self.call(tops, tree, name),
            NameEvent::Assigns { tree, name } => self.value(tops, tree, name),
        }
    }
}

/// Goes over all events of a file, behind the declarations of what has a name outside of functions.
pub(crate) fn go_over(
    alloc: Global,
    tops: &TopNames,
    declared: Vec<Declaration>,
    events: &[NameEvent],
) -> Result<Resolver, NoMemory>
    requires { length declared.items ≡ first_variable tops.now }
    ensures { IfOk result (Reaches tops.now declared.items (reverse events.now)) }
{
    let mut resolver = Resolver {
        scopes: Vec::new(alloc),
        declared,
        rows: Vec::new(alloc),
        found: Vec::new(alloc),
    };
    for event in events {
        resolver.event(tops, *event)?;
    }
    Ok(resolver)
}
