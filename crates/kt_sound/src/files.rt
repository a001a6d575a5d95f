//! Soundness of files: one whose names are resolved, which has a `main`, and whose bodies violate no rule has one program, and its run is never wrong.
ghost use Rattle.kt_sound.specs.FileSoundness.{FilesNeverWrong, HaveProgram, OneProgram};

/// A file has a program where its names are resolved, it violates no rule on members, it has a `main`, its bodies violate no typing rule and no rule along
/// paths, and it is settled for each body which of its trees are entered and left.
pub fn files_have_programs()
    ensures { HaveProgram }
{}

/// For every such file, every input and every number of steps the run of its program does not end by a wrong use, in the words of `bodies_never_wrong`.
/// What that law asks of a program beyond the rules follows from the file: each call in a body is of a function that the file has or of a built-in one,
/// and returns unless that function's result is `Nothing`; each parameter has a written type; and `main` can be called, and takes nothing. By the rules
/// on members each function has a body, without which one that is to give a value would give none.
pub fn files_never_wrong()
    ensures { FilesNeverWrong }
{}

/// Any two programs of a file are the same, whatever its names were resolved by and its dead trees found by.
pub fn one_program_of_a_file()
    ensures { OneProgram }
{}
