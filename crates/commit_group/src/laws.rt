//! What follows from the clauses of a group's calls.

ghost use Rattle.commit_group.specs.Submits.{FillsAlone};

/// The only guest of a group has sent 256 records where the queue was full.
pub fn lone_guests_fill_the_queue()
    ensures { FillsAlone }
{}
