//! Soundness: what the written rules accept is never wrong. Below are the written rules and the written meaning; the interpreter above rests on
//! these laws, which are statements about definitions and take no memory.
#![tactic(auto)]

ghost use Rattle.kt_sound.specs.BodySoundness.{BodiesNeverWrong};

mod files;

pub use files::{files_have_programs, files_never_wrong, one_program_of_a_file};

/// For every program whose bodies violate no typing rule and no rule along paths, every input and every number of steps the run does not end by a wrong
/// use: no local that holds nothing is read, no `val` or parameter that holds a value is assigned, no dead tree is entered, each operand is of the
/// kind that its operator needs, each condition is a truth value, each argument, assigned or returned value lies in the written type, and no block of a function
/// whose result isn't `Unit` runs to its end. An exception of the language is no wrong use. Of the forms that are open: numbers, truth values, strings, sums, joined
/// texts, differences, products, quotients, what a division leaves, signs, comparisons, equality, `!`, `&&`, `||`, names, parentheses, declarations, assignments,
/// `if`, `return`, and calls of the built-in functions that are open and of the functions that have a result. Typing refuses the others.
pub fn bodies_never_wrong()
    ensures { BodiesNeverWrong }
{}
