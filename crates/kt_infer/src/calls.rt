//! What calls ask for.
ghost use Rattle.std.specs.Prelude.{◌≡◌, ◌+◌, length, option_map, option_and_then, slice_get};
ghost use Rattle.kt_tree.specs.declared.token.Span.{Span};
ghost use Rattle.kt_model.specs.BodyTrees as body;
ghost use Rattle.kt_model.specs.BuiltIns as model;
ghost use Rattle.kt_model.specs.NameUses.{Resolved, declaration_type, parameters_at};
ghost use Rattle.kt_typing.specs.Typing as spec;
ghost use Rattle.kt_infer.specs.Demands.{as_demand, as_signature, as_ways, ways_from};

use crate::choices::value_way;
use kt_model::built_ins::built_in_named;
use kt_model::finding::Rule;
use kt_model::kinds::KtType;
use kt_model::uses::{Owner, Uses};
use kt_tree::Span;
use kt_typing::{Claim, Way};

/// The ways of arguments: one for all, or for each that of its parameter in a function of the file.
#[derive(Clone, Copy, Debug, PartialEq, Eq)]
pub enum Ways {
    Each(Way),
    Parameters(u32),
}

/// What a call needs: the least and the most number of arguments, their ways, and what it gives.
#[derive(Clone, Copy, Debug, PartialEq, Eq)]
pub struct Signature {
    pub least: usize,
    pub most: usize,
    pub ways: Ways,
    pub result: KtType,
}

/// The ways of the arguments, and what the call is where they have types.
#[derive(Clone, Copy, Debug, PartialEq, Eq)]
pub struct Demand {
    pub ways: Ways,
    pub claim: Claim,
}

/// The written type of the parameter at a place, from 0; `None` behind the last.
fn parameter_type(uses: &Uses, parameters: &[u32], place: usize) -> Option<KtType>
    ensures { result ≡ option_and_then (declaration_type uses.now) (slice_get parameters.now place) }
{
    match parameters.get(place) {
        Some(x) => uses.written(*x as usize),
        None => None,
    }
}

impl Ways {
    /// The way of the argument at a place, from 0. Behind the last parameter an argument is checked against nothing.
    pub fn at(self, uses: &Uses, place: usize) -> Way
        ensures { result ≡ spec.first_way (ways_from place (as_ways uses.now self)) }
    {
        match self {
            Ways::Each(way) => way,
            Ways::Parameters(f) => value_way(parameter_type(uses, uses.parameters(f), place)),
        }
    }
}

/// What a call of a built-in function needs, where it is open.
pub fn built_in_signature(name: u32) -> Option<Signature>
    ensures { (resolved : Resolved) → option_map spec.built_in_signature (model.built_in_named name) ≡ option_map (as_signature resolved) result }
{
    match built_in_named(name) {
        Some(function) => Some(Signature {
            least: function.least as usize,
            most: function.most as usize,
            ways: Ways::Each(Way::Checked(function.parameter)),
            result: function.result,
        }),
        None => None,
    }
}

/// The written type of the result of the function whose body it is.
pub fn owner_result(uses: &Uses, owner: Owner) -> Option<KtType>
    ensures { result ≡ spec.owner_result uses.now owner }
{
    match owner {
        Owner::Function(f) => uses.function_result(f),
        _ => None,
    }
}

/// What a call of a function of the file with this result needs: as many arguments as it has parameters.
fn counted_signature(uses: &Uses, function: u32, gives: KtType) -> Signature
    ensures { spec.function_signature (declaration_type uses.now) (parameters_at uses.now function) gives ≡ as_signature uses.now result }
{
    let count = uses.parameters(function).len();
    Signature {
        least: count,
        most: count,
        ways: Ways::Parameters(function),
        result: gives,
    }
}

/// What a call of a function of the file needs, where its result is written.
#[tactic(auto, unfolding(kt_typing::specs::Typing::signature_of))]
pub fn function_signature(uses: &Uses, function: u32) -> Option<Signature>
    ensures { spec.signature_of uses.now function ≡ option_map (as_signature uses.now) result }
{
    match uses.function_result(function) {
        Some(gives) => Some(counted_signature(uses, function, gives)),
        None => None,
    }
}

/// What a call with so many arguments asks of them.
pub fn demanded(signature: Option<Signature>, span: Span, word: Span, count: usize) -> Demand
    ensures { (resolved : Resolved) (n : body.Mark) → n.span ≡ span → n.word ≡ word → spec.call_demand (option_map (as_signature resolved) signature) n count ≡ as_demand resolved result }
{
    match signature {
        None => Demand {
            ways: Ways::Each(Way::Inferred),
            claim: Claim::Breaks(Rule::Syntax, span),
        },
        Some(s) => {
            if s.least <= count && count <= s.most {
                Demand {
                    ways: s.ways,
                    claim: Claim::Gives(s.result),
                }
            } else {
                Demand {
                    ways: Ways::Each(Way::Inferred),
                    claim: Claim::Breaks(Rule::ArgumentCount, word),
                }
            }
        }
    }
}
