//! The program: it makes the real library, input and outputs, calls `ktflow`, and ends with its status.
//!
//! Below it stand `ktflow`, which does all that the program does, and `kt_outside`, which reads and writes; nothing stands above it.
//! Where there is no memory for the words the status is 6, with no line on `err`. Where a word isn't UTF-8 `ktflow` gets no words.
#![tactic(auto)]

#[cfg(test)]
mod tests;

use kt_outside::{FileLibrary, StdInput, StdOutput};
use ktflow::ktflow;
use std::env;
use std::io::ErrorKind;
use std::process::ExitCode;

const NO_MEMORY: u8 = 6;

fn main(rt: HostRuntime) -> ExitCode {
    let alloc = rt.alloc();
    let mut words = Vec::new(alloc);
    match env::args(&rt) {
        Ok(args) => {
            for word in args.skip(1) {
                if words.push(word).is_err() {
                    return ExitCode::from(NO_MEMORY);
                }
            }
        }
        Err(fault) => {
            if fault.kind() == ErrorKind::OutOfMemory {
                return ExitCode::from(NO_MEMORY);
            }
        }
    }
    let mut library = FileLibrary::new(rt);
    let mut input = StdInput::new(rt.stdin());
    let mut out = StdOutput::output(rt.stdout());
    let mut err = StdOutput::error(rt.stderr());
    ExitCode::from(ktflow(alloc, &words, &mut library, &mut input, &mut out, &mut err))
}
