//! What a lock lets, what it keeps, and what it hides.
ghost use Rattle.law_lock.specs.Kept.{LockKeeps, LinesAreExchanged, CheckpointsHaveNoLock, NoneLacksMemory};
ghost use Rattle.law_lock.specs.Lets.{LinesAreFewKinds, RepliesAreShort, KeyIsNotTold};
ghost use Rattle.law_lock.specs.Without.{WithoutLockAllAreLet, NoneLocksStaysOpen};

/// Under a lock a line asks for nothing, for a row of an open stream, to unlock by the key, or it is refused.
pub fn lines_are_few_kinds()
    ensures { LinesAreFewKinds }
{}

/// Over lines under a lock none of which unlocks, streams, row limit, live queries, free pages and lock stay; only rows of open streams are
/// taken, at most one a line, and each live query has its old history and these rows.
pub fn lock_keeps()
    ensures { LockKeeps }
{}

/// What is answered under a lock depends on nothing but the rows of open streams that are taken: where lines that are no such rows are
/// exchanged for others, the replies to all other lines are the same, and so is the state behind them.
pub fn lines_are_exchanged()
    ensures { LinesAreExchanged }
{}

/// The reply to a line under a lock is empty, at most 41 bytes, `ok unlock`, or the answers to a row.
pub fn replies_are_short()
    ensures { RepliesAreShort }
{}

/// States that differ in the key of their lock alone answer a line that unlocks neither alike, and differ in it alone behind the line.
pub fn key_is_not_told()
    ensures { KeyIsNotTold }
{}

/// A state that answers CHECKPOINT by a checkpoint has no lock.
pub fn checkpoints_have_no_lock()
    ensures { CheckpointsHaveNoLock }
{}

/// Where no lock stands, a line asks for what it would ask for if there were none.
pub fn without_lock_all_are_let()
    ensures { WithoutLockAllAreLet }
{}

/// Over lines none of which is a LOCK statement, a session without a lock stays without one.
pub fn none_locks_stays_open()
    ensures { NoneLocksStaysOpen }
{}

/// Under a lock no line is answered by a want of memory.
pub fn none_lacks_memory()
    ensures { NoneLacksMemory }
{}
