// The law of two runs: the contract of a function that does nothing.
ghost use Rattle.dta_run.specs.Laws.{EqualRunsWriteEqualTexts};

/// Two runs with equal words over equal tables that both answer Done write equal bytes to each
/// output but Watch, whatever their workers, their gates and the order of their threads' steps.
pub fn equal_runs_write_equal_texts()
    ensures { EqualRunsWriteEqualTexts }
{}
