//! Laws of steps over a window: a second memory of RAM's length, of any content, into which a host whose guest runs copies the pieces of RAM
//! that the step reads. The step is made over the window, and its writes are stored in RAM: that is the step of the machine, whatever its
//! RAM holds elsewhere. No law asks anything of what the driver wrote.

ghost use Rattle.std.specs.Prelude.{◌≡◌, ℕ, List, false, length};
ghost use Rattle.guestmem.specs.Writes.{Write, set_all};
ghost use Rattle.blk.specs.Sectors.{AreWhole, Sector};
ghost use Rattle.chains.specs.Footprint.{AgreeOn};
ghost use Rattle.chains.specs.declared.next.Next.{Next};
ghost use Rattle.machine.specs.Asked.{AskedIsDue, AskingIsPublishing, HeldStaysKnown, PutIsElsewhere, QuietIsKept};
ghost use Rattle.machine.specs.Beside.{AppliedIsLocal, AppliedWordIsLast, BesideIsStep, EffectsAreLocal, HeldIsBeside, OpenIsStep, QuietIsOpen, WordIsLast, WrittenIsThere};
ghost use Rattle.machine.specs.DeviceStep.{MayLook, device_step, looked_at, wanted_of};
ghost use Rattle.machine.specs.Footprint.{asks_interrupt, device_reads, device_word, raised_if};
ghost use Rattle.machine.specs.Opening.{ApartIsOpen, ApartIsStep, EmptyIsClosed, EmptyIsStep, HeldWordIsClosed, HeldWordIsStep};
ghost use Rattle.machine.specs.Outcome.{Outcome};
ghost use Rattle.machine.specs.State.{DeviceState};
ghost use Rattle.machine.specs.Stored.{HasId, copied, device_writes, indexes_in, indexes_of};
ghost use Rattle.machine.specs.Writing.{EmptyWritesNote, PiecesAreInside, StoringIsWrites};

/// A step of a device over a RAM `w` is that step over every RAM `m` of its length that agrees with it in what the step reads, whatever they
/// hold elsewhere. Where they agree in all but the driver's word, and that of `w` asks for no interrupt, it is that step but for the
/// interrupt, if the word of `m` asks for one after all writes.
pub fn device_steps_are_local()
    ensures sees { (d : DeviceState) (w m : List ℕ) (pick : ℕ) (o : Outcome) (seen : Next) → length w ≡ length m → AgreeOn w m (device_reads d w pick o seen) → MayLook (wanted_of d.kind pick) (looked_at d pick) w o seen → MayLook (wanted_of d.kind pick) (looked_at d pick) m o seen }
    ensures same { (d : DeviceState) (w m : List ℕ) (content : List Sector) (pick : ℕ) (o : Outcome) (seen : Next) → length w ≡ length m → AgreeOn w m (device_reads d w pick o seen)
        → AgreeOn w m (device_word d pick seen (device_step d w content pick o seen).reply) → device_step d m content pick o seen ≡ device_step d w content pick o seen }
    ensures word { (d : DeviceState) (w m : List ℕ) (content : List Sector) (pick : ℕ) (o : Outcome) (seen : Next) → AgreeOn w m (device_reads d w pick o seen)
        → asks_interrupt d pick seen (device_step d w content pick o seen).reply (set_all w (device_step d w content pick o seen).writes) ≡ false
        → device_step d m content pick o seen ≡ raised_if (asks_interrupt d pick seen (device_step d w content pick o seen).reply (set_all m (device_step d w content pick o seen).writes)) (device_step d w content pick o seen) }
{}

/// So it is of the effects of a machine's steps.
pub fn effects_are_local()
    ensures same { EffectsAreLocal }
    ensures word { WordIsLast }
{}

/// A step that was applied to a machine with a window for its RAM is applied to it with each RAM that agrees with the window in what the step
/// reads. Where they agree in all but the word, and that of the window asks for no interrupt, it leaves besides the interrupt for which that
/// RAM asks.
pub fn applied_is_local()
    ensures same { AppliedIsLocal }
    ensures word { AppliedWordIsLast }
{}

/// So a step that is made with a window for RAM is a step of the machine whose RAM is lent, where the pieces that are held have what it reads:
/// with the driver's word it is closed at once; without it, it is ended by the word that is read last.
pub fn held_is_beside()
    ensures closed { HeldIsBeside }
    ensures ended { QuietIsOpen }
{}

/// A step beside the guest is one of the machine that was lent, whose RAM has in the pieces that were held what the window had there.
pub fn beside_is_step()
    ensures written { WrittenIsThere }
    ensures step { BesideIsStep }
    ensures ended { OpenIsStep }
{}

/// A host stores what a step wrote by copying it from the window, in order: that is to write it. And a step of a device writes into these
/// pieces and no others, byte for byte, in this order.
pub fn stores_are_writes()
    ensures copied { (w m : List ℕ) (ws : List Write) → length w ≡ length m → copied (set_all w ws) m (indexes_in ws) ≡ set_all m ws }
    ensures pieces { (d : DeviceState) (ram : List ℕ) (content : List Sector) (pick : ℕ) (o : Outcome) (seen : Next) → HasId d.kind → AreWhole content → MayLook (wanted_of d.kind pick) (looked_at d pick) ram o seen
        → indexes_in (device_step d ram content pick o seen).writes ≡ indexes_of (device_writes d pick seen (device_step d ram content pick o seen).reply) }
{}

/// What was known of a step before it is what it publishes, if its reply says that it published a chain. So the driver's word, once it was
/// read, says whether an interrupt is due; and where the window had the quiet word, into which the step wrote no byte, the step has asked for
/// none: it is open, and is ended by the true word (`held_is_beside`, `beside_is_step`).
pub fn asking_is_publishing()
    ensures publishing { AskingIsPublishing }
    ensures due { AskedIsDue }
    ensures quiet { QuietIsKept }
{}

/// What is known of a step over a window is known of it over each one that agrees with it in the pieces that are held: so over one into which
/// the quiet word was put, where none of them has a byte of it.
pub fn held_stays_known()
    ensures known { HeldStaysKnown }
    ensures elsewhere { PutIsElsewhere }
{}

/// What was known of a step before it, `Stores`, is what the step writes, by its reply: byte for byte, and in order. Each piece that it hands
/// out lies inside RAM.
pub fn storing_is_writes()
    ensures writes { StoringIsWrites }
    ensures inside { PiecesAreInside }
{}

/// A step is open where neither a piece that is held nor a byte into which the step may write has a byte of the driver's word (`Asking::shares`,
/// `Stores::may_write`) and the quiet word was put into the window: whatever its reply, it is ended by the word that is read last.
pub fn apart_is_open()
    ensures ended { ApartIsOpen }
    ensures step { ApartIsStep }
{}

/// A step is closed at once where the driver's word is known by the pieces that are held (`Asking::is_held`): whatever its reply.
pub fn held_word_is_closed()
    ensures closed { HeldWordIsClosed }
    ensures step { HeldWordIsStep }
{}

/// A step that finds its queue empty reads one piece and writes its note. So where that piece is read again once the note is stored
/// (`Stores::second_look`), and is as in the window, the step is the machine's at that later moment: a kick that came before it is not lost.
pub fn empty_is_closed()
    ensures closed { EmptyIsClosed }
    ensures step { EmptyIsStep }
    ensures note { EmptyWritesNote }
{}
