// What turns mean, each a law that an empty function's contract states.
ghost use Rattle.ufs_caller.specs.Turns.{WorkersGetByHint, WorkersGetNoNames};

/// A worker gets a new request only if it is of the kinds that go by a hint, on a file whose hint names that worker. One that is
/// sent on to it is of these kinds too: so it gets none of the names.
pub fn workers_get_what_goes_by_hints()
    ensures new { WorkersGetByHint }
    ensures sent_on { WorkersGetNoNames }
{}
