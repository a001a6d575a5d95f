//! Laws of the meaning of bodies.
ghost use Rattle.kt_mean.specs.EvaluationLaws.{AllNumbersWrap, DepthIsNoPart, MeaningUnfolds, OneRun, WholeIsMeaning};
ghost use Rattle.kt_mean.specs.WorkedRuns.{WorkedRuns};

/// The number that bounds the depth of an evaluation is no part of the meaning: any number from the steps left on gives the same.
pub fn depth_bound_is_no_part()
    ensures { DepthIsNoPart }
{}

/// The meaning of a tree is its entering, with the meaning of its parts.
pub fn meaning_unfolds()
    ensures { MeaningUnfolds }
{}

/// A whole run is `main` with the meaning of its trees.
pub fn whole_is_meaning()
    ensures { WholeIsMeaning }
{}

/// A file whose names are resolved has one run, of so many steps on an input.
pub fn one_run_of_file()
    ensures { OneRun }
{}

/// Runs that are worked out by hand come out as they should.
pub fn worked_runs()
    ensures { WorkedRuns }
{}

/// Sums, differences, products and negations of numbers of 32 bits are those of mathematics, as numbers of 32 bits.
pub fn numbers_wrap()
    ensures { AllNumbersWrap }
{}
