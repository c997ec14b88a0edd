//! Laws over the definitions alone. These functions do nothing: their contracts are the laws.

ghost use Rattle.disk_calls.specs.Desk.{CallsAreMet};
ghost use Rattle.disk_calls.specs.Lost.{LostMakesNothingDurable};
ghost use Rattle.disk_calls.specs.Machines.{MachinesMeetCalls};
ghost use Rattle.disk_calls.specs.Numbers.{HandedAreFrom, NoneIsBelow, NoneOutAreFrom, RemovedAreFrom};
ghost use Rattle.disk_calls.specs.Parts.{WholeMayGoInPart};
ghost use Rattle.disk_calls.specs.Seen.{AnsweringIsATurn, HandingIsATurn, HandingIsNoOther};

/// No two calls of a device that are out overlap; each is asked by one request; and its answer, whole or in part, meets that one.
pub fn calls_are_met()
    ensures { CallsAreMet }
{}

/// A call that is handed out is a turn of its device, and none of another.
pub fn handing_is_a_turn()
    ensures own { HandingIsATurn }
    ensures other { HandingIsNoOther }
{}

/// The answer of a call is a turn of its device.
pub fn answering_is_a_turn()
    ensures { AnsweringIsATurn }
{}

/// Of a machine to which anything happens, no two calls of a device that are out overlap; each is asked by one request; and its answer meets
/// that one.
pub fn machines_meet_calls()
    ensures { MachinesMeetCalls }
{}

/// Where the calls of a machine begin with a number, no call that is out ever has one below.
pub fn numbers_stay_from()
    ensures begun { NoneOutAreFrom }
    ensures handed { HandedAreFrom }
    ensures removed { RemovedAreFrom }
    ensures none { NoneIsBelow }
{}

/// A call that may be handed out, cut to a number of sectors, may also be handed out cut to fewer.
pub fn whole_may_go_in_part()
    ensures { WholeMayGoInPart }
{}

/// Of a disk that is lost, a request that asks for something durable ends with an error, whatever the storage answered.
pub fn lost_disk_makes_nothing_durable()
    ensures { LostMakesNothingDurable }
{}
