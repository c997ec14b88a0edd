//! Laws of the steps that have something to do.

ghost use Rattle.machine.specs.MachineTurn.{TurnIsSteps};
ghost use Rattle.machine.specs.NextWork.{IdleWithoutWork, WorkGetsOn};
ghost use Rattle.machine.specs.TurnBeside.{BesideIsOnce};

/// A step that has nothing to do is idle, and changes nothing.
pub fn idle_without_work()
    ensures { IdleWithoutWork }
{}

/// A step that has something to do is not idle, or it has cleared the notified flag of its queue.
pub fn work_gets_on()
    ensures { WorkGetsOn }
{}

/// A turn is its steps, events one after another: those after which it went on, each with its reply, and the one that ended it, if one did.
/// What that one replied is why the turn ended, and a message has the bytes that were sent.
pub fn turn_is_steps()
    ensures { TurnIsSteps }
{}

/// A turn that a host makes beside its guest, by `Parked::plan`, its own step and `Turn::after`, is a turn as `Machine::work` makes it, step by
/// step, whatever a step is there.
pub fn beside_is_once()
    ensures { BesideIsOnce }
{}
