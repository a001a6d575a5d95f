//! What stands in a nonterminal's place.
ghost use Rattle.std.specs.Prelude.{◌≡◌, map};
ghost use Rattle.std.specs.Option.{option_map};
ghost use Rattle.kt_tree.specs.Grammar as spec;

use crate::lookup::row;
use crate::productions::symbols;
use kt_tree::grammar::Step::{Enter, Exclude, Keep, Leave, Make, Take};
use kt_tree::grammar::Symbol::{Do, Part};
use kt_tree::grammar::{Class, Form as F, Nonterminal as N, Symbol, Terminal as T};

/// The nonterminals in order, and what stands in the place of each where no row fits: its only alternative, or what an
/// option or a repetition leaves that is passed over. `None` is a choice that must be made.
#[rattlefmt::skip]
static OTHERWISE: [(N, Option<&'static [Symbol]>); 113] = [
    (N::File, Some(&[Part(N::Semicolons), Part(N::Imports), Do(Make(F::List, 0)), Part(N::Declarations),
        Do(Take(T::End))])),
    (N::Semicolons, Some(&[])),
    (N::Imports, Some(&[])),
    (N::Imported, None),
    (N::Declarations, Some(&[])),
    (N::MoreDeclarations, Some(&[])),
    (N::Declaration, Some(&[Part(N::Annotations), Part(N::Modifiers), Part(N::Declared)])),
    (N::Declared, None),
    (N::Annotations, Some(&[])),
    (N::AnnotationName, None),
    (N::Modifiers, Some(&[Do(Make(F::List, 0)), Part(N::ModifierList)])),
    (N::ModifierList, Some(&[])),
    (N::Class, Some(&[Do(Keep(T::Class)), Do(Keep(T::Id)), Part(N::ClassParameters), Part(N::Supertypes),
        Part(N::ClassBody), Do(Make(F::Class, 6))])),
    (N::ClassParameters, Some(&[Do(Make(F::Absent, 0))])),
    (N::ClassParameterList, Some(&[])),
    (N::ClassParametersMore, Some(&[])),
    (N::ClassParameter, Some(&[Part(N::Modifiers), Part(N::PropertyKeyword), Do(Keep(T::Id)), Do(Take(T::Colon)),
        Part(N::WrittenType), Do(Make(F::ClassParameter, 4))])),
    (N::PropertyKeyword, Some(&[Do(Make(F::Absent, 0))])),
    (N::Interface, Some(&[Do(Keep(T::Interface)), Do(Keep(T::Id)), Part(N::Supertypes), Part(N::ClassBody),
        Do(Make(F::Interface, 5))])),
    (N::Supertypes, Some(&[Do(Make(F::List, 0))])),
    (N::SupertypesMore, Some(&[])),
    (N::Supertype, Some(&[Do(Keep(T::Id)), Part(N::SupertypeArguments), Do(Make(F::Supertype, 2))])),
    (N::SupertypeArguments, Some(&[Do(Make(F::Absent, 0))])),
    (N::ClassBody, Some(&[Do(Make(F::Absent, 0))])),
    (N::Body, Some(&[Do(Enter), Do(Take(T::OpenBrace)), Part(N::Semicolons), Do(Make(F::List, 0)), Part(N::Members),
        Do(Take(T::CloseBrace)), Do(Leave)])),
    (N::Members, Some(&[])),
    (N::Member, None),
    (N::MemberDeclared, None),
    (N::Property, Some(&[Part(N::LocalKeyword), Do(Keep(T::Id)), Part(N::LocalType), Part(N::LocalValue),
        Part(N::Getter), Do(Make(F::Property, 6))])),
    (N::Getter, Some(&[Do(Make(F::Absent, 0))])),
    (N::GetterBody, None),
    (N::Function, Some(&[Do(Keep(T::Fun)), Do(Keep(T::Id)), Do(Take(T::OpenRound)), Do(Make(F::List, 0)),
        Part(N::Parameters), Do(Take(T::CloseRound)), Part(N::Result), Part(N::FunctionBody),
        Do(Make(F::Function, 6))])),
    (N::Parameters, Some(&[])),
    (N::ParametersMore, Some(&[])),
    (N::Parameter, Some(&[Do(Keep(T::Id)), Do(Take(T::Colon)), Part(N::ParameterType), Do(Make(F::Parameter, 2))])),
    (N::ParameterType, None),
    (N::Types, Some(&[])),
    (N::TypesMore, Some(&[])),
    (N::WrittenType, Some(&[Do(Keep(T::Id)), Do(Exclude(T::Less)), Part(N::Nullable), Do(Make(F::WrittenType, 2))])),
    (N::Nullable, Some(&[Do(Make(F::Absent, 0))])),
    (N::Result, Some(&[Do(Make(F::Absent, 0))])),
    (N::FunctionBody, Some(&[Do(Make(F::Absent, 0))])),
    (N::FunctionBlock, Some(&[Do(Keep(T::OpenBrace)), Part(N::Semicolons), Part(N::ContractPart),
        Do(Make(F::List, 0)), Part(N::Statements), Do(Keep(T::CloseBrace)), Do(Make(F::FunctionBlock, 4))])),
    (N::ContractPart, Some(&[Do(Make(F::Absent, 0))])),
    (N::Contract, Some(&[Do(Keep(T::Contract)), Do(Take(T::OpenBrace)), Do(Make(F::List, 0)), Part(N::Effects),
        Do(Take(T::CloseBrace)), Do(Make(F::Contract, 2))])),
    (N::Effects, Some(&[])),
    (N::Effect, None),
    (N::ReturnedLiteral, Some(&[Do(Make(F::Absent, 0))])),
    (N::InvocationKind, Some(&[Do(Make(F::Absent, 0))])),
    (N::InvocationKindName, None),
    (N::Implies, None),
    (N::Implied, None),
    (N::Block, Some(&[Do(Enter), Do(Keep(T::OpenBrace)), Do(Make(F::List, 0)), Part(N::Statements),
        Do(Keep(T::CloseBrace)), Do(Make(F::Block, 3)), Do(Leave)])),
    (N::Statements, Some(&[])),
    (N::Statement, None),
    (N::Local, Some(&[Part(N::LocalKeyword), Do(Keep(T::Id)), Part(N::LocalType), Part(N::LocalValue),
        Do(Make(F::Local, 4))])),
    (N::LocalKeyword, None),
    (N::LocalType, Some(&[Do(Make(F::Absent, 0))])),
    (N::LocalValue, Some(&[Do(Make(F::Absent, 0))])),
    (N::Loop, None),
    (N::Progression, None),
    (N::Action, Some(&[Part(N::Expression), Part(N::Assignment)])),
    (N::Assignment, Some(&[])),
    (N::Inner, Some(&[Do(Enter), Part(N::InnerPart), Do(Leave)])),
    (N::InnerPart, None),
    (N::Expression, Some(&[Do(Enter), Part(N::Conjunction), Part(N::OrMore), Do(Leave)])),
    (N::OrMore, Some(&[])),
    (N::Conjunction, Some(&[Part(N::Equality), Part(N::AndMore)])),
    (N::AndMore, Some(&[])),
    (N::Equality, Some(&[Part(N::Comparison), Part(N::EqualMore)])),
    (N::EqualMore, Some(&[])),
    (N::Comparison, Some(&[Part(N::Test), Part(N::CompareMore)])),
    (N::CompareMore, Some(&[])),
    (N::Test, Some(&[Part(N::Alternative), Part(N::TestMore)])),
    (N::TestMore, Some(&[])),
    (N::Alternative, Some(&[Part(N::Sum), Part(N::ElvisMore)])),
    (N::ElvisMore, Some(&[])),
    (N::Sum, Some(&[Part(N::Product), Part(N::SumMore)])),
    (N::SumMore, Some(&[])),
    (N::Product, Some(&[Part(N::Cast), Part(N::ProductMore)])),
    (N::ProductMore, Some(&[])),
    (N::Cast, Some(&[Part(N::Prefix), Part(N::CastMore)])),
    (N::CastMore, Some(&[])),
    (N::Prefix, Some(&[Part(N::Postfix)])),
    (N::Postfix, Some(&[Part(N::Primary), Part(N::PostfixMore)])),
    (N::PostfixMore, Some(&[])),
    (N::MemberArguments, Some(&[Do(Make(F::Member, 2))])),
    (N::SafeMemberArguments, Some(&[Do(Make(F::SafeMember, 2))])),
    (N::Arguments, Some(&[])),
    (N::ArgumentsMore, Some(&[])),
    (N::Primary, None),
    (N::Operand, Some(&[Do(Make(F::Absent, 0))])),
    (N::NameMore, Some(&[Do(Make(F::Name, 1))])),
    (N::CallLambda, Some(&[Do(Make(F::Absent, 0))])),
    (N::Pieces, Some(&[])),
    (N::Lambda, Some(&[Do(Keep(T::OpenBrace)), Part(N::LambdaParameters), Do(Make(F::List, 0)), Part(N::Statements),
        Do(Keep(T::CloseBrace)), Do(Make(F::Lambda, 4))])),
    (N::LambdaParameters, Some(&[Do(Make(F::List, 0))])),
    (N::LambdaParametersMore, Some(&[])),
    (N::LambdaParameter, Some(&[Do(Keep(T::Id)), Part(N::LocalType), Do(Make(F::LambdaParameter, 2))])),
    (N::If, Some(&[Do(Keep(T::If)), Do(Take(T::OpenRound)), Part(N::Expression), Do(Take(T::CloseRound)),
        Part(N::Inner), Part(N::ElsePart), Do(Make(F::If, 4))])),
    (N::ElsePart, Some(&[Do(Make(F::Absent, 0))])),
    (N::When, Some(&[Do(Keep(T::When)), Part(N::Subject), Do(Take(T::OpenBrace)), Part(N::Semicolons),
        Do(Make(F::List, 0)), Part(N::WhenBranches), Do(Take(T::CloseBrace)), Do(Make(F::When, 3))])),
    (N::Subject, Some(&[Do(Make(F::Absent, 0))])),
    (N::SubjectName, Some(&[Do(Make(F::Absent, 0))])),
    (N::WhenBranches, Some(&[])),
    (N::WhenBranch, None),
    (N::ConditionsMore, Some(&[])),
    (N::Condition, None),
    (N::Try, Some(&[Do(Keep(T::Try)), Part(N::Block), Part(N::TryMore), Do(Make(F::Try, 4))])),
    (N::TryMore, None),
    (N::Catches, Some(&[])),
    (N::FinallyPart, Some(&[Do(Make(F::Absent, 0))])),
    (N::Catch, Some(&[Do(Keep(T::Catch)), Do(Take(T::OpenRound)), Do(Keep(T::Id)), Do(Take(T::Colon)),
        Part(N::WrittenType), Do(Take(T::CloseRound)), Part(N::Block), Do(Make(F::Catch, 4))])),
];

/// The table, which lies in no function's frame.
fn all_otherwise() -> &'static [(N, Option<&'static [Symbol]>); 113]
    ensures { map (λ row. option_map (λ s. s.now) row.1) result.now ≡ map (λ row. option_map (λ s. s.now) row.1) OTHERWISE }
{
    &OTHERWISE
}

/// What stands in a nonterminal's place where no row fits. `None` is a choice that must be made.
fn otherwise(nonterminal: N) -> Option<&'static [Symbol]>
    ensures { option_map (λ s. s.now) result ≡ spec.otherwise nonterminal }
{
    all_otherwise()[nonterminal as usize].1
}

/// What stands in a nonterminal's place before a token of this class. `None` where a choice must be made and no open row fits.
#[tactic(auto, unfolding(kt_tree::specs::Grammar::expansion))]
pub fn expansion(nonterminal: N, class: Class) -> Option<&'static [Symbol]>
    ensures { option_map (λ s. s.now) result ≡ spec.expansion nonterminal class }
{
    match row(nonterminal, class) {
        Some(production) => Some(symbols(production)),
        None => otherwise(nonterminal),
    }
}
