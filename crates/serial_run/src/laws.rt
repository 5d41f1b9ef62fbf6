//! What is proved of runs of one task, as the contract of a function that does nothing.
ghost use Rattle.serial_run.specs.OneRun.{OneRun};

/// A program has one run as one task: all records of runs of it have the same entries, the same end and
/// the same ends of ranks.
pub fn a_program_has_one_run()
    ensures { OneRun }
{}
