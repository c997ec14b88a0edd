//! Laws over the definitions alone. These functions do nothing: their contracts are the laws.

ghost use Rattle.c_handle.specs.ArrivedLogs.{ArrivedHasPlaces};
ghost use Rattle.c_handle.specs.CallLaws.{AnswersStayFrom, FirstCallsAreFrom, ForeignIsNotOut, HandsStayFrom, LostAnswersFail, NextCallIsHandedOut, StopFindsNoneOut, StoppedHandsNone, UnusedIsNotOut};
ghost use Rattle.c_handle.specs.CallsMet.{CallsStayOut, HostCallsAreMet, OthersKeepDevices};
ghost use Rattle.c_handle.specs.Durable.{FailedIsLost, FailedMirrors, FailedStaysPlain, RefusedFailsNothing};
ghost use Rattle.c_handle.specs.Mirror.{AppliedMirrors, PulledMirrors, PushedMirrors, UnseenMirrors};
ghost use Rattle.c_machine.specs.Plain.{PlainStays, RefusedChangesNothing};
ghost use Rattle.c_handle.specs.Outside.{RefusedAnswersNothing, RefusedHandsNothing};
ghost use Rattle.c_handle.specs.Refused.{RefusedTellsNothing, RefusedWritesNothing};
ghost use Rattle.c_handle.specs.Stepped.{RefusedStepsNothing};
ghost use Rattle.c_handle.specs.ToldFeeding.{NoneIsBefore, TakingsCome};
ghost use Rattle.c_handle.specs.Turns.{RefusedTurnsNothing, TurnsStaySent};
ghost use Rattle.c_handle.specs.Sent.{AbortsAfterTakings, ArrivedIsSent, CallsStaySent, FailedFlushesStaySent, FailedHandingsStaySent, FirstIsSent, HandingsStaySent, LentCallsStaySent, LentComesBackSent, LentMarksStaySent, LentRoundsStaySent, LentSectorsStaySent, LentStepsStaySent, LentTakingsStaySent, MarksStaySent, NoneIsAskedYet, StoppedIsWhole, TakingsChangeNothingElse, TakingsStaySent, TellingsStaySent, UnsentSectorsStaySent};

/// A machine over disks in memory stays one.
pub fn plain_stays()
    ensures { PlainStays }
{}

/// An event whose status is from 1 to 63 changes nothing.
pub fn refused_changes_nothing()
    ensures { RefusedChangesNothing }
{}

/// The same for all contents of a handle, also of dirty items and of the versions of pages, and no number is returned.
pub fn refused_tells_nothing()
    ensures { RefusedTellsNothing }
{
    machine::laws::refused_changes_nothing();
}

/// The same for writes of RAM, and no page is logged.
pub fn refused_writes_nothing()
    ensures { RefusedWritesNothing }
{
    machine::laws::refused_changes_nothing();
}

/// The same for steps, also of a device whose disk is lost: no byte is sent, and no page is logged.
pub fn refused_steps_nothing()
    ensures { RefusedStepsNothing }
{
    machine::laws::refused_changes_nothing();
}

/// The same for turns of the devices.
pub fn refused_turns_nothing()
    ensures { RefusedTurnsNothing }
{
    machine::laws::refused_changes_nothing();
}

/// A failed sync that is refused, by a status from 1 to 63, changes nothing.
pub fn refused_fails_nothing()
    ensures { RefusedFailsNothing }
{}

/// Where no call of a disk outside is handed out, by a status from 1 to 63, nothing changed.
pub fn refused_hands_nothing()
    ensures { RefusedHandsNothing }
{}

/// An answer of a disk outside that is refused changes nothing: the call is still out.
pub fn refused_answers_nothing()
    ensures { RefusedAnswersNothing }
{}

/// Over all that a host does with a handle, no two calls of a device that are out overlap; each is asked by one request; and its answer meets that
/// one. A call that is out stays so until it is answered.
pub fn calls_are_met()
    ensures met { HostCallsAreMet }
    ensures out { CallsStayOut }
{}

/// Each call that migrates a machine, lends its RAM or takes it back, names pages or hands them out, or reads it, changes no device, and no call that is out.
pub fn other_calls_keep_devices()
    ensures { OthersKeepDevices }
{}

/// Calls of a machine have numbers from the one on that its host asked for, whatever is handed out and answered.
pub fn calls_stay_from()
    ensures first { FirstCallsAreFrom }
    ensures hands { HandsStayFrom }
    ensures answers { AnswersStayFrom }
{}

/// An answer with the number of a call of another machine is refused, and changes nothing: one below these numbers, or not handed out yet.
pub fn foreign_answers_are_not_out()
    ensures below { ForeignIsNotOut }
    ensures unused { UnusedIsNotOut }
{}

/// Where `next` tells of a call, the next hand-out gives one, whatever room there is for it.
pub fn next_call_is_handed_out()
    ensures { NextCallIsHandedOut }
{}

/// No call of a stopped machine is out: its stop found none, and it hands none out.
pub fn stopped_has_no_call_out()
    ensures found { StopFindsNoneOut }
    ensures none { StoppedHandsNone }
{}

/// Of a disk that is lost no flush, and no durable write or clearing, is told done, also where it was out when the disk was lost.
pub fn lost_answers_fail()
    ensures { LostAnswersFail }
{}

/// After one that was not refused the disk is lost.
pub fn failed_is_lost()
    ensures { FailedIsLost }
{}

/// A machine over disks in memory stays one also if a flush fails in place of its step.
pub fn failed_stays_plain()
    ensures { FailedStaysPlain }
{}

/// A machine whose migration has just begun has no history, and nothing of its stream was taken.
pub fn first_is_sent()
    ensures { FirstIsSent }
{}

/// Each call of a machine that is being migrated adds its answer to the history, whatever was taken before. A round is ended, and a stop
/// made, once no page is still to be named.
pub fn calls_stay_sent()
    ensures { CallsStaySent }
{}

/// A turn of the devices adds its steps, each with its answer.
pub fn turns_stay_sent()
    ensures { TurnsStaySent }
{}

/// A flush that fails in place of its step adds that step to the history, as one whose disk failed.
pub fn failed_flushes_stay_sent()
    ensures { FailedFlushesStaySent }
{}

/// What is taken follows what was taken before, and the history stays.
pub fn takings_stay_sent()
    ensures { TakingsStaySent }
{}

/// Before a stop no digest is asked for: so a digest that is told then is refused.
pub fn none_is_asked_yet()
    ensures { NoneIsAskedYet }
{}

/// A host that took all but the record that closes the stream, and tells the digest of what it took, keeps the machine sent.
pub fn tellings_stay_sent()
    ensures { TellingsStaySent }
{
    sender::laws::taken_is_digested();
}

/// A taking changes what waits and what is digested, and nothing else, also once a send has failed; and then an abort gives the machine back as it was.
pub fn takings_change_nothing_else()
    ensures takes { TakingsChangeNothingElse }
    ensures aborts { AbortsAfterTakings }
{}

/// So it is of a call that is made while RAM is lent.
pub fn lent_calls_stay_sent()
    ensures { LentCallsStaySent }
{}

/// A step beside the guest adds to the history what the guest had written till then, and the step.
pub fn lent_steps_stay_sent()
    ensures { LentStepsStaySent }
{}

/// So it is of what is taken while RAM is lent.
pub fn lent_takings_stay_sent()
    ensures { LentTakingsStaySent }
{}

/// A page that is handed in while RAM is lent adds a write of the guest with its bytes, and its record, and is to be named no longer.
pub fn handings_stay_sent()
    ensures sent { HandingsStaySent }
    ensures failed { FailedHandingsStaySent }
{}

/// A sector that is sent while RAM is lent adds its record.
pub fn lent_sectors_stay_sent()
    ensures sent { LentSectorsStaySent }
    ensures unsent { UnsentSectorsStaySent }
{}

/// The end of a round while RAM is lent adds it, once no page of an earlier loan is still to be named.
pub fn lent_rounds_stay_sent()
    ensures { LentRoundsStaySent }
{}

/// A mark of pages while RAM is lent adds writes of them with the bytes that RAM has by the history.
pub fn lent_marks_stay_sent()
    ensures { LentMarksStaySent }
{}

/// RAM that is given back adds the writes of the pages that were written to the history. Those that it does not name are still to be named.
pub fn lent_comes_back_sent()
    ensures { LentComesBackSent }
{}

/// A mark of pages adds writes of them with the bytes that lie there, and they are still to be named no longer.
pub fn marks_stay_sent()
    ensures { MarksStaySent }
{}

/// After a stop that was done, what was taken and what still waits are the stream of the machine.
pub fn stopped_is_whole()
    ensures { StoppedIsWhole }
{}

/// The machine that arrives from these bytes, fed in any pieces, is the one that was stopped.
pub fn arrived_is_sent()
    ensures { ArrivedIsSent }
{}

/// What is taken of a stream whose host tells its digest comes after what was fed before, and no byte of the record that closes the stream is
/// among it: so who digests what was taken has the digest that is asked for (`specs/ToldFeeding`).
pub fn told_takings_come()
    ensures come { TakingsCome }
    ensures first { NoneIsBefore }
{}

/// No machine that was let in is refused at its end for want of places in its log.
pub fn arrived_has_places()
    ensures { ArrivedHasPlaces }
{}

/// The memory of a caller that has seen no page is a mirror.
pub fn unseen_mirrors()
    ensures { UnseenMirrors }
{}

/// A mirror of a machine's RAM stays one, whatever is applied to the machine.
pub fn applied_mirrors()
    ensures { AppliedMirrors }
{}

/// So does a flush that fails in place of its step.
pub fn failed_mirrors()
    ensures { FailedMirrors }
{}

/// After a pull into a mirror, its RAM is the machine's.
pub fn pulled_mirrors()
    ensures { PulledMirrors }
{}

/// Pages that were pushed are mirrored, and so are all others that were mirrored before.
pub fn pushed_mirrors()
    ensures { PushedMirrors }
{}
