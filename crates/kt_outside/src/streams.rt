// The input and the output in memory.
ghost use Rattle.std.specs.Prelude.{◌≡◌, ◌+◌, ◌-◌, ◌≤◌, [], length, take, drop, IfOk};
ghost use Rattle.kt_outside.specs.Memory.{script_of};

use crate::copy::{append, give, rest_of};
use crate::script::CallScript;
use crate::{Input, NoMemory, Output, Put, Take};
use std::alloc::Global;
use std::marker::Model;

/// An input in memory.
///
/// It tells the bytes left. Where no call is to fail it vouches for all its calls.
#[derive(Drop)]
pub struct MemoryInput {
    bytes: Vec<u8>,
    at: usize,
    script: CallScript,
    faults: u64,
}

impl Model for MemoryInput {
    ghost use Rattle.std.specs.Prelude.{◌≤◌, length, drop};
    ghost use Rattle.kt_outside.specs.Memory.{InputInMemory};

    ghost Value = { InputInMemory };

    ghost view = { λ i. record { left = drop i.at i.bytes.items; script = i.script; faults = i.faults } };

    ghost invariant = { λ i. i.at ≤ length i.bytes.items };
}

impl MemoryInput {
    /// An input of these bytes. A take gives at most `piece` bytes, and of the takes into buffers that are not empty
    /// those whose numbers, from 0, are in `failing` fail.
    pub fn new(bytes: Vec<u8>, piece: usize, failing: Vec<u64>) -> MemoryInput
        requires { 1 ≤ piece }
        ensures { result ≡ record { left = bytes.items; script = script_of piece failing.items; faults = 0 } }
    {
        MemoryInput {
            bytes,
            at: 0,
            script: CallScript::new(piece, failing),
            faults: 0,
        }
    }
}

impl Input for MemoryInput {
    ghost use Rattle.kt_outside.specs.Outside.{Takes};
    ghost use Rattle.kt_outside.specs.Memory.{input_state, fails_next, take_of, taken_count, input_after};

    ghost state = { input_state };

    /// Gives the least of the piece, the buffer's length and the bytes left.
    /// `Failed` at a call that is to fail.
    fn take(&mut self, buf: &mut [u8]) -> Take
        ensures takes { Takes (input_state self.old) (input_state self.new) buf.new result }
        ensures vouches { (input_state self.new).vouches ≡ (input_state self.old).vouches }
        ensures faults { (input_state self.old).faults ≤ (input_state self.new).faults }
        ensures exact { result ≡ take_of (fails_next self.old.script) self.old.script.piece
            (length self.old.left) (length buf.old) }
        ensures after { self.new ≡ input_after self.old (length buf.old) result }
        ensures rest { drop (taken_count result) buf.new ≡ drop (taken_count result) buf.old }
    {
        if buf.is_empty() {
            return Take::Got(0);
        }
        if self.script.begin_failing() {
            self.faults = self.faults.saturating_add(1);
            return Take::Failed;
        }
        let count = give(self.script.piece(), rest_of(&self.bytes, self.at), buf);
        self.at += count;
        Take::Got(count)
    }
}

/// An output in memory, with room for so many bytes.
///
/// It tells the bytes written. Where no call is to fail it vouches for the room left.
#[derive(Drop)]
pub struct MemoryOutput {
    bytes: Vec<u8>,
    len: usize,
    script: CallScript,
    faults: u64,
}

impl Model for MemoryOutput {
    ghost use Rattle.std.specs.Prelude.{◌-◌, ◌≤◌, length, take};
    ghost use Rattle.kt_outside.specs.Memory.{OutputInMemory};

    ghost Value = { OutputInMemory };

    ghost view = { λ o. record { written = take o.len o.bytes.items; room = length o.bytes.items - o.len; script = o.script; faults = o.faults } };

    ghost invariant = { λ o. o.len ≤ length o.bytes.items };
}

impl MemoryOutput {
    /// An empty output with room for `room` bytes, which are reserved here. A put takes at most `piece` bytes, and of the
    /// puts of pieces that are not empty those whose numbers, from 0, are in `failing` fail. `NoMemory` where the room
    /// can't be reserved.
    pub fn new(
        alloc: Global,
        room: usize,
        piece: usize,
        failing: Vec<u64>,
    ) -> Result<MemoryOutput, NoMemory>
        requires { 1 ≤ piece }
        ensures { IfOk result (λ o. o ≡ record { written = []; room = room; script = script_of piece failing.items; faults = 0 }) }
    {
        match vec![in alloc; 0u8; room] {
            Ok(bytes) => Ok(MemoryOutput {
                bytes,
                len: 0,
                script: CallScript::new(piece, failing),
                faults: 0,
            }),
            Err(_) => Err(NoMemory),
        }
    }

    /// The bytes that were put.
    pub fn written(&self) -> &[u8]
        ensures { result.now ≡ self.now.written }
    {
        &self.bytes[..self.len]
    }
}

impl Output for MemoryOutput {
    ghost use Rattle.kt_outside.specs.Outside.{Puts};
    ghost use Rattle.kt_outside.specs.Memory.{output_state, fails_next, put_of, output_after};

    ghost state = { output_state };

    /// Appends the least of the output's piece, the length of `piece` and the room left.
    /// `Failed` at a call that is to fail, and where there is no room.
    fn put(&mut self, piece: &[u8]) -> Put
        ensures puts { Puts (output_state self.old) (output_state self.new) piece.now result }
        ensures faults { (output_state self.old).faults ≤ (output_state self.new).faults }
        ensures exact { result ≡ put_of (fails_next self.old.script) self.old.script.piece
            self.old.room (length piece.now) }
        ensures after { self.new ≡ output_after self.old piece.now result }
    {
        if piece.is_empty() {
            return Put::Put(0);
        }
        if self.script.begin_failing() || self.len == self.bytes.len() {
            self.faults = self.faults.saturating_add(1);
            return Put::Failed;
        }
        let count = append(self.script.piece(), piece, &mut self.bytes, self.len);
        self.len += count;
        Put::Put(count)
    }
}
