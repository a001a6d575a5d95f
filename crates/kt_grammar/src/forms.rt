//! Which phrases are trees.
ghost use Rattle.std.specs.Prelude.{◌≡◌};
ghost use Rattle.kt_tree.specs.Derives as spec;

use kt_tree::grammar::Form;

/// Whether phrases of this form are trees, which have a number and count for the height.
pub fn is_tree(form: Form) -> bool
    ensures { result ≡ spec.is_tree form }
{
    match form {
        Form::Int
        | Form::Bool
        | Form::Null
        | Form::This
        | Form::Name
        | Form::Template
        | Form::Paren
        | Form::Call
        | Form::Lambda
        | Form::Member
        | Form::SafeMember
        | Form::MemberCall
        | Form::SafeMemberCall
        | Form::NotNull
        | Form::Prefixed
        | Form::Cast
        | Form::Sum
        | Form::Product
        | Form::Compare
        | Form::Equal
        | Form::And
        | Form::Or
        | Form::Elvis
        | Form::IsType
        | Form::If
        | Form::When
        | Form::Try
        | Form::Return
        | Form::Throw
        | Form::Jump
        | Form::NamePiece
        | Form::ThisPiece
        | Form::Local
        | Form::Assignment
        | Form::While
        | Form::DoWhile
        | Form::For => true,
        _ => false,
    }
}
