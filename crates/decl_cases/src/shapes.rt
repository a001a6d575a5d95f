//! Made hierarchies of growing size.
use crate::fault::Fault;
use kt_tree::ast::{
    Block, ClassDecl, ClassKeyword, Expr, ExprKind, File, FunctionBody, FunctionDecl, Ident,
    Member, Modifier, ModifierKind, Supertype, TypeRef,
};
use kt_tree::{Names, NoMemory, Span};
use sqlite_items::Items;
use std::alloc::Global;

/// The form of a made hierarchy.
#[derive(Clone, Copy, Debug, PartialEq, Eq)]
pub enum Shape {
    /// Classes without supertypes and without members.
    Classes,
    /// A chain, each class under the one before, with one member in the first.
    Chain,
    /// A chain in which each class overrides that member.
    Overrides,
    /// A chain in which each class has a member of its own name.
    Growing,
    /// Interfaces, each rung one under two that are both under the rung before, with one member in the first.
    Ladder,
}

/// The shape that a word names.
pub fn shape_named(word: &str) -> Option<Shape> {
    match word {
        "classes" => Some(Shape::Classes),
        "chain" => Some(Shape::Chain),
        "overrides" => Some(Shape::Overrides),
        "growing" => Some(Shape::Growing),
        "ladder" => Some(Shape::Ladder),
        _ => None,
    }
}

const NOWHERE: Span = Span { start: 0, end: 0 };

/// The place of `Int` among the built-in names.
const INT: u32 = 3;

fn ident(name: u32) -> Ident {
    Ident {
        name,
        span: NOWHERE,
    }
}

fn int_type() -> TypeRef {
    TypeRef {
        name: ident(INT),
        nullable: false,
        span: NOWHERE,
    }
}

fn one() -> FunctionBody {
    FunctionBody::Expr(Expr {
        number: 0,
        span: NOWHERE,
        kind: ExprKind::Int(1),
    })
}

/// The list of one item.
fn only<T: Drop>(alloc: Global, item: T) -> Result<Items<T>, NoMemory> {
    let mut items = Items::new(alloc);
    items.push(item)?;
    Ok(items)
}

fn modifiers(alloc: Global, kind: ModifierKind) -> Result<Items<Modifier>, NoMemory> {
    only(
        alloc,
        Modifier {
            kind,
            span: NOWHERE,
        },
    )
}

/// A member function that gives 1, or has no body.
fn function(
    alloc: Global,
    modifiers: Items<Modifier>,
    name: u32,
    body: Option<FunctionBody>,
) -> Result<Option<Items<Member>>, NoMemory> {
    let f = FunctionDecl {
        span: NOWHERE,
        modifiers,
        name: ident(name),
        parameters: Items::new(alloc),
        result: Some(int_type()),
        body,
    };
    Ok(Some(only(alloc, Member::Function(f))?))
}

/// A class or an interface without constructor parameters.
fn class(
    keyword: ClassKeyword,
    modifiers: Items<Modifier>,
    name: u32,
    supertypes: Items<Supertype>,
    members: Option<Items<Member>>,
) -> ClassDecl {
    ClassDecl {
        span: NOWHERE,
        modifiers,
        keyword,
        name: ident(name),
        parameters: None,
        supertypes,
        members,
    }
}

fn main_function(alloc: Global, name: u32) -> FunctionDecl {
    FunctionDecl {
        span: NOWHERE,
        modifiers: Items::new(alloc),
        name: ident(name),
        parameters: Items::new(alloc),
        result: None,
        body: Some(FunctionBody::Block {
            contract: None,
            block: Block {
                span: NOWHERE,
                statements: Items::new(alloc),
            },
        }),
    }
}

/// The names and the classes that are made.
#[derive(Drop)]
struct Maker {
    alloc: Global,
    names: Names,
    classes: Items<ClassDecl>,
}

impl Maker {
    /// The number of a name; `NoMemory` too where there are too many names.
    fn name(&mut self, text: &str) -> Result<u32, NoMemory> {
        if self.names.len() >= 4294967295 {
            return Err(NoMemory);
        }
        self.names.number(self.alloc, text)
    }

    /// The name of a letter and a number.
    fn numbered(&mut self, letter: &str, number: u32) -> Result<u32, NoMemory> {
        let text = format!(in self.alloc; "{letter}{number}")?;
        self.name(text.as_str())
    }

    /// The class before, as a supertype, where there is one.
    fn class_before(&mut self, number: u32) -> Result<Items<Supertype>, NoMemory> {
        let Some(before) = number.checked_sub(1) else {
            return Ok(Items::new(self.alloc));
        };
        let name = self.numbered("C", before)?;
        let s = Supertype {
            span: NOWHERE,
            name: ident(name),
            arguments: Some(Items::new(self.alloc)),
        };
        only(self.alloc, s)
    }

    /// The interface of a letter and a number, as a supertype.
    fn interface_named(&mut self, letter: &str, number: u32) -> Result<Supertype, NoMemory> {
        let name = self.numbered(letter, number)?;
        Ok(Supertype {
            span: NOWHERE,
            name: ident(name),
            arguments: None,
        })
    }

    /// What the class with this number of a chain declares.
    fn chain_members(
        &mut self,
        shape: Shape,
        number: u32,
    ) -> Result<Option<Items<Member>>, NoMemory> {
        let kind = match (shape, number) {
            (Shape::Growing, _) | (Shape::Chain, 0) | (Shape::Overrides, 0) => ModifierKind::Open,
            (Shape::Overrides, _) => ModifierKind::Override,
            _ => return Ok(None),
        };
        let name = match shape {
            Shape::Growing => self.numbered("f", number)?,
            _ => self.name("f")?,
        };
        let words = modifiers(self.alloc, kind)?;
        function(self.alloc, words, name, Some(one()))
    }

    fn push_alone(&mut self, number: u32) -> Result<(), Fault> {
        let alloc = self.alloc;
        let name = self.numbered("C", number)?;
        let none = Items::new(alloc);
        let c = class(ClassKeyword::Class, none, name, Items::new(alloc), None);
        self.classes.push(c)?;
        Ok(())
    }

    fn push_chained(&mut self, shape: Shape, number: u32) -> Result<(), Fault> {
        let name = self.numbered("C", number)?;
        let supertypes = self.class_before(number)?;
        let members = self.chain_members(shape, number)?;
        let open = modifiers(self.alloc, ModifierKind::Open)?;
        let c = class(ClassKeyword::Class, open, name, supertypes, members);
        self.classes.push(c)?;
        Ok(())
    }

    fn push_interface(
        &mut self,
        letter: &str,
        number: u32,
        supertypes: Items<Supertype>,
        members: Option<Items<Member>>,
    ) -> Result<(), Fault> {
        let name = self.numbered(letter, number)?;
        let none = Items::new(self.alloc);
        let c = class(ClassKeyword::Interface, none, name, supertypes, members);
        self.classes.push(c)?;
        Ok(())
    }

    /// The foot of the ladder.
    fn push_foot(&mut self) -> Result<(), Fault> {
        let alloc = self.alloc;
        let name = self.name("f")?;
        let members = function(alloc, Items::new(alloc), name, None)?;
        self.push_interface("A", 0, Items::new(alloc), members)
    }

    /// A rung, one above the one with this number.
    fn push_rung(&mut self, number: u32) -> Result<(), Fault> {
        let below = number.saturating_add(1);
        let left = self.interface_named("A", number)?;
        let left = only(self.alloc, left)?;
        self.push_interface("L", below, left, None)?;
        let right = self.interface_named("A", number)?;
        let right = only(self.alloc, right)?;
        self.push_interface("R", below, right, None)?;
        let mut both = Items::new(self.alloc);
        both.push(self.interface_named("L", below)?)?;
        both.push(self.interface_named("R", below)?)?;
        self.push_interface("A", below, both, None)
    }

    fn push(&mut self, shape: Shape, number: u32) -> Result<(), Fault> {
        match shape {
            Shape::Classes => self.push_alone(number),
            Shape::Chain | Shape::Overrides | Shape::Growing => self.push_chained(shape, number),
            Shape::Ladder => self.push_rung(number),
        }
    }
}

/// The file of a shape with so many classes, or so many rungs, and a `main`.
pub fn made(alloc: Global, shape: Shape, count: u32) -> Result<File, Fault> {
    let mut maker = Maker {
        alloc,
        names: Names::with_built_in(alloc)?,
        classes: Items::new(alloc),
    };
    let main = maker.name("main")?;
    if shape == Shape::Ladder {
        maker.push_foot()?;
    }
    for number in 0..count {
        maker.push(shape, number)?;
    }
    let Maker { names, classes, .. } = maker;
    let functions = only(alloc, main_function(alloc, main))?;
    Ok(File {
        classes,
        functions,
        names,
    })
}
