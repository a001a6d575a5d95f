//! The locals of a call.
ghost use Rattle.std.specs.Prelude.{◌≡◌, ◌<◌, length, IfOk, OnOk};
ghost use Rattle.kt_mean.specs.Frames.{no_locals, with_local};
ghost use Rattle.kt_mean.specs.Evaluation.{new_locals};
ghost use Rattle.kt_run.specs.Slots.{held};

use kt_mean::Value;
use sqlite_items::Items;
use std::alloc::{AllocError, Global};
use std::marker::Model;

/// What each local holds, by its declaration: a value or nothing. Clauses see the list of slots.
#[derive(Drop)]
pub(crate) struct Frame {
    slots: Items<Option<Value>>,
}

impl Model for Frame {
    ghost use Rattle.std.specs.Prelude.{List, Option};
    ghost use Rattle.kt_mean.specs.declared.states.Value.{Value as Datum};

    ghost Value = { List (Option Datum) };

    ghost view = { λ f. f.slots };
}

impl Frame {
    /// No local holds a value.
    pub(crate) fn new(alloc: Global) -> Frame
        ensures { held result ≡ no_locals }
    {
        Frame {
            slots: Items::new(alloc),
        }
    }

    /// As a call begins: each parameter holds its value.
    pub(crate) fn of_call(
        alloc: Global,
        parameters: &[u32],
        mut values: Items<Value>,
    ) -> Result<Frame, AllocError>
        requires { length parameters.now ≡ length values }
        ensures { IfOk result (λ f. held f ≡ new_locals parameters.now values) }
    {
        let mut frame = Frame::new(alloc);
        while let Some(value) = values.pop() {
            frame.set(parameters[values.len()], Some(value))?;
        }
        Ok(frame)
    }

    /// A copy of what the local holds; an error where there is no memory for a text.
    pub(crate) fn get(&self, alloc: Global, local: u32) -> Result<Option<Value>, AllocError>
        ensures { IfOk result (λ o. o ≡ held self.now local) }
    {
        match self.slots.get(local as usize) {
            Some(slot) => copied(alloc, slot),
            None => Ok(None),
        }
    }

    /// Makes the local hold a value, or nothing.
    #[tactic(auto, using(crate::proofs::FrameLemmas::held_set))]
    pub(crate) fn set(&mut self, local: u32, value: Option<Value>) -> Result<(), AllocError>
        ensures { OnOk result (held self.new ≡ with_local (held self.old) local value) }
    {
        grow(&mut self.slots, local)?;
        self.slots.set(local as usize, value);
        Ok(())
    }
}

// A copy of what a slot holds.
fn copied(alloc: Global, slot: &Option<Value>) -> Result<Option<Value>, AllocError>
    ensures { IfOk result (λ o. o ≡ slot.now) }
{
    match slot {
        Some(value) => {
            let copy = value.copied(alloc)?;
            Ok(Some(copy))
        }
        None => Ok(None),
    }
}

// Makes room for the local.
#[tactic(auto, using(crate::proofs::FrameLemmas::held_push))]
fn grow(slots: &mut Items<Option<Value>>, local: u32) -> Result<(), AllocError>
    ensures same { OnOk result (held slots.new ≡ held slots.old) }
    ensures within { OnOk result (local < length slots.new) }
{
    while slots.len() <= local as usize {
        slots.push(None)?;
    }
    Ok(())
}
