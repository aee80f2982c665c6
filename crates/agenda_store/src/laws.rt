//! Laws of whole histories.

ghost use Rattle.std.specs.Prelude.{List, Vec};
ghost use Rattle.std.specs.declared.alloc.Global.{Global};
ghost use Rattle.job_table.specs.Plan.{Plan, IsLawful};
ghost use Rattle.agenda_store.specs.History.{Batch, Replies, IsHistory, IsRising, NamesItsJobs, numbers_told};

/// No number is given twice, whatever crashes come between: the numbers that all replies give rise.
pub fn numbers_are_new()
    ensures { (sessions : List (Vec Batch Global)) (told : List (Vec Replies Global)) (first last : Plan) → IsHistory sessions told first last
        → IsRising first.next last.next (numbers_told told) }
{}

/// A number names the job that it was given for, whatever crashes come between: each number that a reply gave finds no job in the last plan, or one with the
/// bytes of its request.
pub fn numbers_name_their_jobs()
    ensures { (sessions : List (Vec Batch Global)) (told : List (Vec Replies Global)) (first last : Plan) → IsLawful first → IsHistory sessions told first last
        → NamesItsJobs sessions told last }
{}
