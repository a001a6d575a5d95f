//! Look-ups in the class table. They take no memory.
ghost use Rattle.std.specs.Prelude.{◌≡◌, ◌<◌, ◌↔◌, IsTrue, length};
ghost use Rattle.kt_model.specs.Classes.{Sub, outlines, written};
ghost use Rattle.kt_model.specs.Members.{implementation_of, member_of};

use kt_model::class_table::{ClassTable, Member};

/// Whether a class is under another: Kotlin's inheritance as a reflexive and transitive relation, with `Any` above all.
pub fn is_sub(t: &ClassTable, c: u32, d: u32) -> bool
    requires { c < length t.now }
    ensures { IsTrue result ↔ Sub (written (outlines t.now)) c d }
{
    t.is_complete();
    t.above(c).contains(&d)
}

/// The member that a class has under a name: its own, else the one that it inherits, else the one that fits. `None` exactly where
/// there is none.
pub fn member(t: &ClassTable, c: u32, name: u32) -> Option<Member>
    requires { c < length t.now }
    ensures { result ≡ member_of (outlines t.now) c name }
{
    t.settled(c, name)?.member
}

/// That member where it is not abstract. `None` exactly where there is none.
pub fn implementation(t: &ClassTable, c: u32, name: u32) -> Option<Member>
    requires { c < length t.now }
    ensures { result ≡ implementation_of (outlines t.now) c name }
{
    t.settled(c, name)?.implementation
}
