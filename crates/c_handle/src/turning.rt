//! A turn of the devices in one call: the steps that `vmig_next` names, as `vmig_step` makes them.

ghost use Rattle.std.specs.Prelude.{◌≡◌, ◌<◌, ◌≤◌, ◌-◌, ◌==◌, ◌&&◌, ◌||◌, Some, None, false, slice_get};
ghost use Rattle.machine.specs.Turn.{is_entropy};
ghost use Rattle.c_handle.specs.Turns.{EndsTurn, Once, TurnsKept, counted, devices_in, goes_on, is_known_turn, is_refused, message_in, more_or_none, turn_refusal};

use crate::devices::Devices;
use crate::kept::{Kept, by_state};
use crate::mirror::{is_stopped, ram_of};
use crate::stepping::step_kept;
use crate::working::next_step;
use c_machine::status::{COMPLETED, IDLE, MOVED, NOT_KNOWN, STOPPED, SYNC, TAKEN, TOO_SMALL, WORK};
use c_machine::{are_zeros, message_of};
use machine::Kind;

/// How far the devices' turn has come. C keeps it with its machine, and sets `left` before each turn.
#[derive(Clone, Copy)]
#[repr(C)]
pub struct Turn {
    /// The device of the step that was made or passed over last. The next one comes after it, in turn.
    pub dev: u8,

    /// The pick of that step.
    pub pick: u8,

    /// Zero, reserved for later versions.
    pub zero: u16,

    /// How many steps may still be made or passed over in this turn.
    pub left: u32,

    /// Of a turn that ended with a message, its bytes; with a chain that an entropy device completed, its used length.
    pub len: u32,

    /// Zero, reserved for later versions.
    pub zero2: u32,

    /// Zeros, reserved for later versions.
    pub reserved: [u64; 2],
}

/// One step of a turn, or why there was none or the turn ends with it.
pub(crate) enum Outcome {
    /// It was made, and the turn continues.
    Made,

    /// None was named: why.
    NoneNamed(u32),

    /// It was passed over, since its disk has to be brought to its file before.
    PassedOver,

    /// It was refused, and nothing has changed.
    Refused(u32),

    /// It was made, and its answer is one that C has to know.
    Answered(u32),
}

impl Turn {
    /// The step was made, or passed over.
    fn count(&mut self, dev: u8, pick: u8)
        requires { 1 ≤ self.old.left }
        ensures { self.new ≡ counted self.old (record { dev = dev; pick = pick }) }
    {
        self.dev = dev;
        self.pick = pick;
        self.left -= 1;
    }

    /// Whether all reserved words are zeros.
    fn is_known(&self) -> bool
        ensures { result ≡ is_known_turn self.now }
    {
        self.zero == 0 && self.zero2 == 0 && are_zeros(&self.reserved)
    }
}

/// Makes the steps of a turn, one after another, until one of them ends it.
pub fn work(kept: &mut Kept, turn: &mut Turn, buf: &mut [u8]) -> u32
    ensures works { TurnsKept kept.old turn.old result buf.old buf.new kept.new turn.new }
    ensures kind { kept.new ≡ record kept.old { state = kept.new.state; written = kept.new.written } }
{
    if let Some(status) = turn_refusal(kept, turn, buf.len()) {
        return status;
    }
    make_steps(kept, turn, buf)
}

/// As above, where the turn is not refused.
#[tactic(auto, using(crate::proofs::CallTurns::ended_by, crate::proofs::CallTurns::used_up, crate::proofs::CallTurns::kind_on))]
fn make_steps(kept: &mut Kept, turn: &mut Turn, buf: &mut [u8]) -> u32
    ensures ended { EndsTurn kept.old turn.old result buf.old buf.new kept.new turn.new }
    ensures kind { kept.new ≡ record kept.old { state = kept.new.state; written = kept.new.written } }
{
    for made in 0..turn.left {
        match make_next(kept, turn, buf) {
            Outcome::Made => {}
            Outcome::PassedOver => return SYNC,
            Outcome::Refused(_) if made > 0 => return WORK,
            Outcome::Refused(status) => return status,
            Outcome::NoneNamed(status) => return status,
            Outcome::Answered(status) => return status,
        }
    }
    let (mut dev, mut pick) = (turn.dev, turn.pick);
    more_or_none(next_step(kept, &mut dev, &mut pick))
}

/// What a turn that has no step left tells of the step that was found.
fn more_or_none(named: u32) -> u32
    ensures { result ≡ more_or_none named }
{
    if named == SYNC { WORK } else { named }
}

/// Makes the next step of a turn.
fn make_next(kept: &mut Kept, turn: &mut Turn, buf: &mut [u8]) -> Outcome
    requires { 1 ≤ turn.old.left }
    ensures once { Once kept.old turn.old result buf.old buf.new kept.new turn.new }
    ensures kind { kept.new ≡ record kept.old { state = kept.new.state; written = kept.new.written } }
{
    let (mut dev, mut pick) = (turn.dev, turn.pick);
    let named = next_step(kept, &mut dev, &mut pick);
    if named == SYNC {
        turn.count(dev, pick);
        return Outcome::PassedOver;
    }
    if named != WORK {
        return Outcome::NoneNamed(named);
    }
    let is_entropy = is_entropy(kept, dev);
    let mut number = turn.len;
    let status = step_kept(kept, dev, pick, buf, &mut number);
    if is_refused(status) {
        return Outcome::Refused(status);
    }
    turn.count(dev, pick);
    if goes_on(is_entropy, status) {
        return Outcome::Made;
    }
    turn.len = number;
    Outcome::Answered(status)
}

/// Whether a turn continues after a step with this status.
fn goes_on(is_entropy: bool, status: u32) -> bool
    ensures { result ≡ goes_on is_entropy status }
{
    status == IDLE || status == TAKEN || status == MOVED || status == COMPLETED && !is_entropy
}

/// Whether a status says that nothing was done.
fn is_refused(status: u32) -> bool
    ensures { result ≡ is_refused status }
{
    status >= 1 && status < 64
}

/// Whether the device is an entropy device.
fn is_entropy(kept: &Kept, dev: u8) -> bool
    ensures { result ≡ is_entropy (slice_get (devices_in kept.now.state) dev) }
{
    by_state!(&kept.held;
        still(machine) => is_entropy_of(machine, dev),
        moving(live) => is_entropy_of(live.machine(), dev),
        lent(_) => false,
        arriving(_) => false,
    )
}

fn is_entropy_of<M: Devices>(machine: &M, dev: u8) -> bool
    ensures { result ≡ is_entropy (slice_get (M.states machine.now) dev) }
{
    match machine.device(dev) {
        Some(device) => matches!(device.kind(), Kind::Entropy(_)),
        None => false,
    }
}

/// Why no step of a turn is made, if none is.
fn turn_refusal(kept: &Kept, turn: &Turn, room: usize) -> Option<u32>
    ensures { result ≡ turn_refusal kept.now.state turn.now room }
{
    if let Err(status) = ram_of(kept) {
        return Some(status);
    }
    if is_stopped(kept) {
        return Some(STOPPED);
    }
    if !turn.is_known() {
        return Some(NOT_KNOWN);
    }
    if room < message_in(kept) as usize {
        return Some(TOO_SMALL);
    }
    None
}

/// The size of a buffer that is enough for every step of the machine.
fn message_in(kept: &Kept) -> u32
    ensures { result ≡ message_in kept.now.state }
{
    by_state!(&kept.held;
        still(machine) => message_of(machine.shapes()),
        moving(live) => message_of(live.machine().shapes()),
        lent(_) => 0,
        arriving(_) => 0,
    )
}
