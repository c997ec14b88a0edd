//! Laws over the definitions alone. These functions do nothing: their contracts are the laws.

ghost use Rattle.rehearsal.specs.InMemory.{ApplyingStaysReliable, FailingStaysReliable, MachinesAreReliable, MemoryIsReliable, ReliableIsHonest, ServingStaysReliable};
ghost use Rattle.rehearsal.specs.Moves.{ArrivedIsMoved, FirstIsMoving, TakingsStayMoving};

/// A machine of which nothing is sent yet has no history, and nothing of its stream was taken. From here on each call adds to its
/// history (`sender::laws::taken_follows_the_history`), and so does a flush that fails in place of its step
/// (`sender::laws::taken_failed_flush_follows_the_history`).
pub fn first_is_moving()
    ensures { FirstIsMoving }
{}

/// If the writer is replaced by one that holds what was not taken, the history stays the same.
pub fn takings_stay_moving()
    ensures { TakingsStayMoving }
{}

/// What arrives of a stopped machine, in any pieces, is this machine, where the receiver was told the address at which its RAM begins.
pub fn arrived_is_moved()
    ensures { ArrivedIsMoved }
{}

/// Disks in memory are reliable: honest and steady, and never failed.
pub fn memory_is_reliable()
    ensures { MemoryIsReliable }
{}

/// So are the disks of a machine over them: one that is new, was saved, or is received.
pub fn machines_are_reliable()
    ensures { MachinesAreReliable }
{}

/// They stay so, whatever is applied to the machine.
pub fn applying_stays_reliable()
    ensures { ApplyingStaysReliable }
{}

/// They stay so where a flush fails in place of its step (`Machine::fail_flush`).
pub fn failing_stays_reliable()
    ensures { FailingStaysReliable }
{}

/// They stay so in each call while the machine is being migrated.
pub fn serving_stays_reliable()
    ensures { ServingStaysReliable }
{}

/// Reliable disks are honest and steady, which are the premises of what is promised of disks.
pub fn reliable_is_honest()
    ensures { ReliableIsHonest }
{}
