//! The stack of open scopes.
ghost use Rattle.std.specs.Prelude.{◌≡◌, ◌≤◌, length, reverse, take, vec_len};
ghost use Rattle.kt_scope.specs.Stack.{closed, variable_in, is_declared_in};

/// What stands in the stack: the begin of a scope, or a variable with its declaration.
#[derive(Clone, Copy, Debug, PartialEq, Eq)]
pub(crate) enum Open {
    Scope,
    Variable { name: u32, declaration: u32 },
}

/// Where the innermost scope begins.
fn innermost(stack: &[Open]) -> usize
    ensures within { result ≤ length stack.now }
    ensures start { reverse (take result stack.now) ≡ closed (reverse stack.now) }
{
    let mut i = stack.len();
    while i > 0 {
        i -= 1;
        if let Open::Scope = stack[i] {
            return i;
        }
    }
    0
}

/// Ends the innermost scope.
pub(crate) fn close(stack: &mut Vec<Open>)
    ensures { reverse stack.new.items ≡ closed (reverse stack.old.items) }
{
    let start = innermost(stack);
    stack.truncate(start);
}

/// The declaration of the innermost variable with that name; `None` exactly where none has it.
pub(crate) fn variable(stack: &[Open], name: u32) -> Option<u32>
    ensures { result ≡ variable_in name (reverse stack.now) }
{
    let mut i = stack.len();
    while i > 0 {
        i -= 1;
        match stack[i] {
            Open::Scope => {}
            Open::Variable {
                name: other,
                declaration,
            } => {
                if other == name {
                    return Some(declaration);
                }
            }
        }
    }
    None
}

/// Whether the innermost scope has a variable with that name.
pub(crate) fn is_declared(stack: &[Open], name: u32) -> bool
    ensures { result ≡ is_declared_in name (reverse stack.now) }
{
    let mut i = stack.len();
    while i > 0 {
        i -= 1;
        match stack[i] {
            Open::Scope => return false,
            Open::Variable { name: other, .. } => {
                if other == name {
                    return true;
                }
            }
        }
    }
    false
}
