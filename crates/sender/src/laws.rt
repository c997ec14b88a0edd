//! Laws over the definitions alone. These functions do nothing: their contracts are the laws.

ghost use Rattle.sender.specs.Beside.{OpenIsBeside, OpenIsLentCall, OverIsBeside, OverIsLentCall, PiecesAreSeen};
ghost use Rattle.sender.specs.Follows.{CallsFollow};
ghost use Rattle.sender.specs.HistoryLaws.{AfterIsRun, FreshIsLast, OneHistory, StaleIsNotFresh, StoppedIsStream};
ghost use Rattle.sender.specs.Logged.{LoggedIsServed};
ghost use Rattle.sender.specs.Marks.{BackIsBehind, BehindByNone, CallsStayBehind, FailureStaysBehind, FlushStaysBehind, LentIsBehind, MarksCatchUp, TakenStaysBehind, TakingStaysBehind};
ghost use Rattle.sender.specs.Parked.{LiveBackFollows, LiveBackIsServed};
ghost use Rattle.sender.specs.ParkedCalls.{LentFollows, LiveParkedFlushFails, LiveParkedIsFlushed, LiveParkedIsServed};
ghost use Rattle.sender.specs.Reads.{UncalledIsSame};
ghost use Rattle.sender.specs.Taking.{CallsIgnoreTaken, TakenAreWhole, TakenFollow};
ghost use Rattle.sender.specs.Telling.{TakenIsDigested};
ghost use Rattle.sender.specs.Told.{HonestDisksTellContents};
ghost use Rattle.sender.specs.Turns.{TurnStaysBehind};
ghost use Rattle.sender.specs.Unsynced.{FailureFollows, FlushFollows, TakenFailureFollows};

use guestmem::TouchLog;

/// Where the disks are honest, the records that a call writes, which are those of what the disks returned, are those of the machine.
pub fn honest_disks_tell_contents()
    ensures { HonestDisksTellContents }
{}

/// Whatever happened, an item that is not stale, a page or a sector, is as the last record that names it says.
pub fn fresh_is_last()
    ensures { FreshIsLast }
{}

/// An item is stale exactly if each sending of it, if any, was followed by a touch of it.
pub fn stale_is_not_fresh()
    ensures { StaleIsNotFresh }
{}

/// Every call on a machine that is being migrated, by its reply, keeps the sets in step with the history: while a round
/// is open the due set is what is due, and what is due or dirty is exactly what is stale.
pub fn calls_follow()
    ensures { CallsFollow }
{}

/// Once a stop returned Ok, what was written is a stream of the machine as it then was.
pub fn stopped_is_a_stream()
    ensures { StoppedIsStream }
{}

/// The machine after a history is the one that the guest's events alone give, each with the outcome of its reply.
pub fn after_is_run()
    ensures { AfterIsRun }
{}

/// Events and replies determine all of a history: what was written, what is stale, and the machine.
pub fn replies_settle()
    ensures { OneHistory }
{}

/// No call depends on what the writer holds: each does the same if some of it was taken out (`LiveWaiting::take`,
/// `Live::replace_writer`).
pub fn calls_ignore_what_was_taken()
    ensures { CallsIgnoreTaken }
{}

/// So a machine, part of whose stream was taken out, is what its history makes of it, as if nothing had been taken.
pub fn taken_follows_the_history()
    ensures { TakenFollow }
{}

/// Once a stop returned Ok, what was taken, followed by what is left, is a stream of the machine.
pub fn taken_is_whole()
    ensures { TakenAreWhole }
{}

/// Once a stop returned Ok, and all but the record that closes the stream was taken, that record has the digest of what was taken: the one that
/// `LiveTold::tell` is to be told.
pub fn taken_is_digested()
    ensures { TakenIsDigested }
{}

/// Where the caller wrote into no page but the named ones, a machine whose RAM is given back is as if the guest had written these
/// pages by calls of it.
pub fn live_back_is_served()
    ensures { LiveBackIsServed }
{}

/// So its history goes on by these writes, and nothing is written meanwhile.
pub fn live_back_follows_the_history()
    ensures { LiveBackFollows }
{}

/// A flush that fails by `Live::fail_flush` adds its step to the history, with the reply that the disk failed, and nothing is
/// written.
pub fn failed_flush_follows_the_history()
    ensures { FailureFollows }
{}

/// The same if part of the stream was taken out before.
pub fn taken_failed_flush_follows_the_history()
    ensures { TakenFailureFollows }
{}

/// A flush by `Live::flush_disk` is no part of the history, which stays as it was.
pub fn flush_keeps_the_history()
    ensures { FlushFollows }
{}

/// A machine that a call leaves unchanged but for the calls of its disks is unchanged where that call made none.
pub fn uncalled_is_same()
    ensures { UncalledIsSame }
{}

/// An event that is served with a log of the caller's is served as without one.
pub fn logged_is_served<L: TouchLog>()
    ensures { LoggedIsServed L.after }
{}

/// What is served while the RAM is lent is served to the machine as it was lent, and its RAM is lent as before.
pub fn live_parked_is_served()
    ensures { LiveParkedIsServed }
{}

/// So it is with a flush of a disk.
pub fn live_parked_is_flushed()
    ensures { LiveParkedIsFlushed }
{}

/// So it is with a flush that fails in place of its step.
pub fn live_parked_flush_fails()
    ensures { LiveParkedFlushFails }
{}

/// The history of a machine whose RAM was lent continues with the calls that were made meanwhile, and then with the writes of the pages that
/// are named when the RAM is given back.
pub fn lent_follows_the_history()
    ensures { LentFollows }
{}

/// Where only some of the pages that were written are named, the history continues with the writes of all, and the machine is behind its
/// history by no page but those that are still to be named.
pub fn back_is_behind()
    ensures { BackIsBehind }
{}

/// So it is where calls were made while the RAM was lent, and bytes taken.
pub fn lent_is_behind()
    ensures { LentIsBehind }
{}

/// A step that was made over a window is one beside the guest, where the window has what it reads, with the word or, where that is read last,
/// without it. RAM by the history with the pieces that were copied into the window is RAM as the step saw it: so a caller need not choose it.
pub fn steps_over_are_beside()
    ensures closed { OverIsBeside }
    ensures ended { OpenIsBeside }
    ensures call { OverIsLentCall }
    ensures call_ended { OpenIsLentCall }
    ensures pieces { PiecesAreSeen }
{}

/// Each call, made as a caller may, adds to the history what it would add if no page were missing, and the machine is behind by no more
/// after it. A round is ended, and a stop made, once no page is missing.
pub fn calls_stay_behind()
    ensures { CallsStayBehind }
{}

/// The same if part of the stream was taken out before.
pub fn taken_stays_behind()
    ensures { TakenStaysBehind }
{}

/// So it is with a taking itself.
pub fn taking_stays_behind()
    ensures { TakingStaysBehind }
{}

/// So it is with a flush that fails by `Live::fail_flush`.
pub fn failed_flush_stays_behind()
    ensures { FailureStaysBehind }
{}

/// A flush by `Live::flush_disk` leaves it as it is.
pub fn flush_stays_behind()
    ensures { FlushStaysBehind }
{}

/// A turn of the devices is its steps, each a call of its own, so the history continues by them, and the machine is behind by no more pages.
pub fn turn_stays_behind()
    ensures { TurnStaysBehind }
{}

/// Once pages are marked, the history continues with a write of each with the bytes that lie there, and the machine is behind by those
/// alone that are still to be named.
pub fn marks_catch_up()
    ensures { MarksCatchUp }
{}

/// A machine that is behind by no page is what its history makes of it, and the other way round.
pub fn behind_by_none_is_not_behind()
    ensures { BehindByNone }
{}
