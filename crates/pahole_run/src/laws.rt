//! Laws of the definitions. Each function does nothing: its contract is the law.
ghost use Rattle.pahole_run.specs.Laws.{TasksHaveOneTable, JobsHaveOneTable};
ghost use Rattle.pahole_run.specs.Laws.{TasksHaveOneRefusal};

/// For all limits, held files and tasks there is exactly one table that they have: one list of nodes
/// that are merged, and one table that comes from these or is spelled. It is so of each job. So
/// they have exactly one first refusal, or none.
pub fn tasks_have_one_table()
    ensures tasks { TasksHaveOneTable }
    ensures jobs { JobsHaveOneTable }
    ensures refusals { TasksHaveOneRefusal }
{}
