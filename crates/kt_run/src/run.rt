//! Runs a file.
ghost use Rattle.std.specs.Prelude.{◌≡◌, ℕ, Bool, List};
ghost use Rattle.kt_mean.specs.Programs.{program_of};
ghost use Rattle.kt_run.specs.Scene.{scene, Right, Runs};
ghost use Rattle.kt_run.specs.Running.{part, tree_seen, IsNeverWrong, NeverWrong, RunsOn, end_told};

use crate::evaluator::{Evaluator, Node, ResolvedFile};
use crate::frame::Frame;
use crate::state::{Halt, State};
use kt_mean::{Exception, Limit, Value, Way};
use kt_model::uses::Uses;
use kt_outside::Output;
use kt_tree::ast::File;
use sqlite_items::Items;
use std::alloc::Global;

/// How a run ends.
#[derive(Drop)]
pub enum End {
    /// `main` ended.
    Done,
    /// No step was left.
    Steps,
    /// One more call was made than may be under way at once.
    Calls,
    /// An object would have taken more cells than there may be.
    Store,
    /// A text would have had more bytes than the texts of a run may have.
    Text,
    /// An exception left `main`.
    Uncaught(Exception),
    /// A put failed, and nothing was put after it.
    WriteFault,
    /// There was no memory.
    NoMemory,
}

/// Runs the function at the place `main` of a file with so many steps, and puts its text on `out`.
///
/// `Done`, `Steps`, `Calls`, `Store`, `Text` and `Uncaught` come exactly where the written meaning ends so; `WriteFault` only where a put failed. The input is not asked
/// yet, so the answer is that for every input. Which trees are dead is not looked at: the answer is that with any trees dead that no input leads to.
pub fn run_file<O: Output>(
    alloc: Global,
    file: &File,
    uses: &Uses,
    main: u32,
    steps: u64,
    out: &mut O,
) -> End
    requires right { IsNeverWrong file.now uses.now main steps }
    ensures { (dead : ℕ → Bool) → NeverWrong (program_of file.now uses.now dead main) steps → (input : List ℕ)
        → RunsOn (program_of file.now uses.now dead main) steps input (O.state out.old) (O.state out.new) result }
{
    let resolved = ResolvedFile { alloc, file, uses };
    let mut state = State {
        frame: Frame::new(alloc),
        calls: 0,
        steps,
        cells: 0,
        text: 0,
    };
    let evaluator = Evaluator {
        depth: steps,
        resolved: &resolved,
        evaluate: evaluate::<O>,
    };
    end_of(evaluator.apply(&mut state, out, main, Items::new(alloc)))
}

fn end_of(answer: Result<Value, Halt>) -> End
    ensures { result ≡ end_told answer }
{
    match answer {
        Ok(_) => End::Done,
        Err(Halt::Way(Way::Return(_))) => End::Done,
        Err(Halt::Way(Way::Throw(exception))) => End::Uncaught(exception),
        Err(Halt::Over(Limit::Steps)) => End::Steps,
        Err(Halt::Over(Limit::Calls)) => End::Calls,
        Err(Halt::Over(Limit::Store)) => End::Store,
        Err(Halt::Over(Limit::Text)) => End::Text,
        Err(Halt::OutputFault) => End::WriteFault,
        Err(Halt::NoMemory) => End::NoMemory,
    }
}

/// A tree, where trees may be entered so deep in one another.
fn evaluate<O: Output>(
    depth: u64,
    resolved: &ResolvedFile<'_>,
    state: &mut State,
    out: &mut O,
    node: Node<'_>,
) -> Result<Value, Halt>
    requires right { Right (part resolved.now depth (tree_seen resolved.now node)) state.old }
    ensures { Runs (part resolved.now depth (tree_seen resolved.now node.entry)) (scene state.old (O.state out.old)) result (scene state.new (O.state out.new)) }
{
    if depth == 0 {
        return Err(Halt::Over(Limit::Steps));
    }
    let parts = Evaluator {
        depth: depth - 1,
        resolved: &*resolved,
        evaluate: evaluate::<O>,
    };
    parts.enter(state, out, node)
}
