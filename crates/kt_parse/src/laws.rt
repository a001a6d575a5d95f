//! What holds of every list of tokens. Each law is the contract of a function that does nothing.
ghost use Rattle.std.specs.Prelude.{◌≡◌};
ghost use Rattle.kt_tree.specs.declared.tokens.Tokens.{Tokens};
ghost use Rattle.kt_tree.specs.declared.ast.declaration.File.{File};
ghost use Rattle.kt_tree.specs.declared.grammar.fault.ParseFault.{ParseFault};
ghost use Rattle.kt_tree.specs.Derives.{FaultAt};
ghost use Rattle.kt_parse.specs.Parsed.{DerivesFile};

/// A list of tokens derives at most one file, has at most one fault, and not both.
pub fn files_are_determined()
    ensures one_file { (ts : Tokens) (a b : File) → DerivesFile ts a → DerivesFile ts b → a ≡ b }
    ensures one_fault { (ts : Tokens) (f g : ParseFault) → FaultAt ts f → FaultAt ts g → f ≡ g }
    ensures not_both { (ts : Tokens) (file : File) (f : ParseFault) → DerivesFile ts file → FaultAt ts f → ⊥ }
{}
