ghost use Rattle.std.specs.Prelude.{◌≡◌, ◌+◌, List, ◌++◌};
ghost use Rattle.evaluator.specs.declared.cells.CellRequest.{CellRequest};
ghost use Rattle.schedule.specs.declared.line.Line.{Line};
ghost use Rattle.schedule.specs.Explained.{Explained};
ghost use Rattle.schedule.specs.Unhindered.{whole_steps};
ghost use Rattle.schedule.specs.Worked.{cells, one_cell, two_cells, first_tid, copy_steps, read_steps, conflict_schedule, conflict_report, stop_schedule, dropped_report, kept_report, early_commit_schedule, early_commit, second_vote_schedule, second_vote, stale_vote_schedule, stale_vote, lossy_restart_schedule, lossy_restart, packed_cell, packed_schedule, packed_report};
ghost use Rattle.schedule.specs.WorkedPacks.{hindered_report, hindered_schedule, pack_report, pack_schedule, rooted, three_cells};

/// Two requests that each read what the other writes: the second meets a conflict, begins anew and commits.
pub fn conflict_is_explained()
    ensures { Explained cells two_cells conflict_schedule conflict_report }
{}

/// A stop in the finish step drops the transaction, or keeps it: both reports are explained.
pub fn cut_off_finish_is_explained()
    ensures dropped { Explained cells one_cell (stop_schedule 0) dropped_report }
    ensures kept { Explained cells one_cell (stop_schedule 1) kept_report }
{}

/// Over a packed file the log and the parts are those above the floor, and the history at the end names it.
pub fn packed_file_is_explained()
    ensures { Explained cells packed_cell packed_schedule packed_report }
{}

/// What requests print that meet nothing and ask for one cell: a copy has its reply after five steps, a read after three.
pub fn unhindered_steps_are_these()
    ensures copy { whole_steps cells two_cells 0 first_tid (first_tid + 1) (CellRequest.Copy 1 2) ≡ copy_steps }
    ensures read { whole_steps cells two_cells 3 first_tid 0 (CellRequest.Read 1) ≡ read_steps }
{}

/// A commit, a pack at it, and a commit behind it: what the pack leaves is what the second one rests on.
pub fn pack_is_explained()
    ensures { Explained rooted three_cells pack_schedule pack_report }
{}

/// A pack while a worker has a request is refused; a stop cuts one off, and a failure meets the next.
pub fn hindered_packs_are_explained()
    ensures { Explained rooted three_cells hindered_schedule hindered_report }
{}

/// No report has a commit reply in the place of its vote, whatever follows.
pub fn early_commit_is_refuted()
    ensures { (more : List Line) → Explained cells one_cell early_commit_schedule (early_commit ++ more) → ⊥ }
{}

/// No report has a vote over an object that was written since it was read, whatever follows.
pub fn missed_conflict_is_refuted()
    ensures { (more : List Line) → Explained cells two_cells stale_vote_schedule (stale_vote ++ more) → ⊥ }
{}

/// No report has a vote while another one is out, whatever follows.
pub fn second_vote_is_refuted()
    ensures { (more : List Line) → Explained cells two_cells second_vote_schedule (second_vote ++ more) → ⊥ }
{}

/// No report has a restart without a transaction whose commit was acknowledged, whatever follows.
pub fn lossy_restart_is_refuted()
    ensures { (more : List Line) → Explained cells one_cell lossy_restart_schedule (lossy_restart ++ more) → ⊥ }
{}
