//! The kinds of devices, with the state that only each kind has.
//!
//! A kind holds what the device was made as together with what only such a device has. So no state is of one kind and made as
//! another, and no proof has a case for it; a new kind adds a case and copies no field.
//!
//! With eight requests outstanding a block device has no room, and so no work at its queue: pick 0 is idle, the queue is not looked at,
//! and no event note is written, since the driver is not to kick for chains that are not looked at.

ghost use Rattle.std.specs.Prelude.{◌≡◌, length, slice_get, IfOk, true};
ghost use Rattle.chains.specs.Frame.{MayLook, HasLooked};
ghost use Rattle.chains.specs.Served.{HasRun, scene};
ghost use Rattle.blk.specs.Durable.{is_flush_owed};
ghost use Rattle.machine.specs.Asked.{slots_in};
ghost use Rattle.machine.specs.DeviceStep.{can_advance, has_work, serve, wanted_of, requests_of};
ghost use Rattle.machine.specs.Shapes.{configuration_of, first_kind, made_as, net_as};
ghost use Rattle.machine.specs.Sound.{AreSoundBeside};
ghost use Rattle.machine.specs.Step.{IsResized, drop_of, input_of, is_first_ready, dropped_unready, kind_with_input, kind_without_input, written_out};
ghost use Rattle.machine.specs.Unsynced.{kind_flush_failed, kind_flushes, kind_owed};
ghost use Rattle.mmio.specs.RegisterRead.{register_read};

use crate::reply::Refusal;
use crate::shape::Shape;
use blk::{Block, Request, SyncOwed};
use chains::{Ring, Served, Site, Unserved};
use console::{ConsoleSize, HostBytes, emergency_byte, receive};
use guestmem::{NoMemory, Ram, TouchLog};
use mmio::{Queue, Regs};
use net::{FRAME_MAX, Inbox, may_take};
use std::alloc::Global;

/// What a device is: what it was made as, and the state that only its kind has.
#[derive(Drop)]
pub enum Kind {
    /// A network device (VIRTIO 1.2, 5.1).
    Network {
        /// Its MAC.
        mac: [u8; 6],

        /// The frames that the host has put in and the guest has not yet taken, and how long one may be: what the device was made for.
        inbox: Inbox,
    },

    /// A block device (VIRTIO 1.2, 5.2).
    Block(Block),

    /// A block device whose disk is outside of the machine (VIRTIO 1.2, 5.2).
    Outside(Block),

    /// A console (VIRTIO 1.2, 5.3).
    Console {
        /// Its size, in characters.
        size: ConsoleSize,

        /// The bytes that the host has put in and the guest has not yet taken.
        held: HostBytes,
    },

    /// An entropy device (VIRTIO 1.2, 5.4): the bytes that the host has put in and the guest has not yet taken.
    Entropy(HostBytes),
}

/// What a step at a queue is told.
#[derive(Clone, Copy)]
pub(crate) struct Visit {
    pub site: Site,

    /// The features that the driver accepted.
    pub features: u64,

    /// The number of the queue.
    pub number: u8,
}

impl Kind {
    /// A new device that is made as this. Its only error is out of memory.
    pub(crate) fn new(alloc: Global, shape: Shape) -> Result<Kind, NoMemory>
        ensures { IfOk result (λ kind. kind ≡ first_kind shape) }
    {
        match shape {
            Shape::Net { mac } => Ok(Kind::Network {
                mac,
                inbox: Inbox::new(alloc, FRAME_MAX)?,
            }),
            Shape::LongNet { mac, longest } => Ok(Kind::Network {
                mac,
                inbox: Inbox::new(alloc, longest)?,
            }),
            Shape::Block {
                sectors,
                read_only,
                id,
            } => Ok(Kind::Block(Block::new(alloc, sectors, read_only, id)?)),
            Shape::Outside {
                sectors,
                read_only,
                id,
            } => Ok(Kind::Outside(Block::new(alloc, sectors, read_only, id)?)),
            Shape::Console => Ok(Kind::Console {
                size: ConsoleSize::FIRST,
                held: HostBytes::new(alloc)?,
            }),
            Shape::Entropy => Ok(Kind::Entropy(HostBytes::new(alloc)?)),
        }
    }

    /// What the device was made as.
    pub fn shape(&self) -> Shape
        ensures { result ≡ made_as self.now }
    {
        match self {
            Kind::Network { mac, inbox } => net_shape(*mac, inbox.longest()),
            Kind::Block(block) => Shape::Block {
                sectors: block.sectors,
                read_only: block.read_only,
                id: block.id,
            },
            Kind::Outside(block) => Shape::Outside {
                sectors: block.sectors,
                read_only: block.read_only,
                id: block.id,
            },
            Kind::Console { .. } => Shape::Console,
            Kind::Entropy(_) => Shape::Entropy,
        }
    }

    /// What the driver reads of the registers, or of the configuration space.
    pub(crate) fn read(&self, registers: &Regs, offset: u32, width: u8) -> u32
        ensures { result ≡ register_read registers.now offset width (configuration_of self.now) }
    {
        match self {
            Kind::Network { mac, inbox } => {
                let longest = inbox.longest();
                if longest == FRAME_MAX {
                    return registers.read(offset, width, mac.as_slice());
                }
                registers.read(offset, width, &net::long_configuration(*mac, longest))
            }
            Kind::Block(block) => {
                registers.read(offset, width, &blk::configuration(block.sectors))
            }
            Kind::Outside(block) => {
                registers.read(offset, width, &blk::outside_configuration(block.sectors))
            }
            Kind::Console { size, .. } => registers.read(offset, width, &size.configuration()),
            Kind::Entropy(_) => registers.read(offset, width, &[]),
        }
    }

    /// Whether the device has something to do at its queue of this number.
    pub(crate) fn has_work(&self, number: u8) -> bool
        ensures { result ≡ has_work self.now number }
    {
        match self {
            Kind::Network { inbox, .. } => number > 0 || !inbox.is_empty(),
            Kind::Block(block) | Kind::Outside(block) => block.has_room(),
            Kind::Console { held, .. } => number > 0 || !held.is_empty(),
            Kind::Entropy(pool) => !pool.is_empty(),
        }
    }

    /// How many requests are outstanding.
    pub(crate) fn outstanding(&self) -> usize
        ensures { result ≡ length (requests_of self.now) }
    {
        match self {
            Kind::Block(block) | Kind::Outside(block) => block.requests.len(),
            Kind::Network { .. } | Kind::Console { .. } | Kind::Entropy(_) => 0,
        }
    }

    /// The slots of the chain of the k-th outstanding request, from 0, if there is one.
    pub(crate) fn request_slots(&self, k: usize) -> Option<u16>
        ensures { result ≡ slots_in (slice_get (requests_of self.now) k) }
    {
        match self {
            Kind::Block(block) | Kind::Outside(block) => slots_at(block.requests.as_slice(), k),
            Kind::Network { .. } | Kind::Console { .. } | Kind::Entropy(_) => None,
        }
    }

    /// Whether a step may advance the k-th outstanding request, from 0: there is one, and it waits for no disk outside.
    pub(crate) fn can_advance(&self, k: usize) -> bool
        ensures { result ≡ can_advance self.now k }
    {
        match self {
            Kind::Block(block) => k < block.requests.len(),
            Kind::Outside(block) => k < block.requests.len() && !block.waits(k),
            Kind::Network { .. } | Kind::Console { .. } | Kind::Entropy(_) => false,
        }
    }

    /// Called after each register write: drops the outstanding requests unless queue 0 is ready.
    pub(crate) fn drop_requests_of(&mut self, queues: &[Queue])
        ensures { self.new ≡ dropped_unready queues.now self.old }
    {
        match self {
            Kind::Block(block) => block.drop_requests_unless(is_first_ready(queues)),
            Kind::Outside(block) => block.drop_requests_unless(is_first_ready(queues)),
            Kind::Network { .. } | Kind::Console { .. } | Kind::Entropy(_) => {}
        }
    }

    /// Keeps a frame, or the first bytes that fit, and returns how many bytes these are.
    pub(crate) fn input(&mut self, bytes: &[u8]) -> Result<u32, Refusal>
        ensures count { result ≡ input_of self.old bytes.now }
        ensures kind { self.new ≡ kind_with_input self.old bytes.now }
    {
        match self {
            Kind::Network { inbox, .. } => {
                if !may_take(inbox.longest(), bytes) {
                    return Err(Refusal::BadFrame);
                }
                Ok(inbox.push(bytes) as u32)
            }
            Kind::Block(_) | Kind::Outside(_) => Err(Refusal::WrongKind),
            Kind::Console { held, .. } => Ok(held.put_in(bytes) as u32),
            Kind::Entropy(pool) => Ok(pool.put_in(bytes) as u32),
        }
    }

    /// Drops what the host has put in. The outstanding requests of a block device are the guest's, and stay.
    pub(crate) fn drop_input(&mut self) -> Result<(), Refusal>
        ensures answer { result ≡ drop_of self.old }
        ensures kind { self.new ≡ kind_without_input self.old }
    {
        match self {
            Kind::Network { inbox, .. } => inbox.clear(),
            Kind::Block(_) | Kind::Outside(_) => return Err(Refusal::WrongKind),
            Kind::Console { held, .. } => held.clear(),
            Kind::Entropy(pool) => pool.clear(),
        }
        Ok(())
    }

    /// Sets the size of a console, which reports it to its driver by the registers.
    pub(crate) fn resize(&mut self, size: ConsoleSize, registers: &mut Regs) -> Result<(), Refusal>
        ensures { IsResized self.old size registers.old result self.new registers.new }
    {
        match self {
            Kind::Console { size: old, .. } => {
                old.resize(size, registers);
                Ok(())
            }
            Kind::Network { .. } | Kind::Block(_) | Kind::Outside(_) | Kind::Entropy(_) => {
                Err(Refusal::WrongKind)
            }
        }
    }

    /// The byte that a write to a console's emergency register prints, if it is one.
    pub(crate) fn written(&self, offset: u32, width: u8, value: u32) -> Option<u8>
        ensures { result ≡ written_out self.now offset width value }
    {
        match self {
            Kind::Console { .. } => emergency_byte(offset, width, value),
            Kind::Network { .. } | Kind::Block(_) | Kind::Outside(_) | Kind::Entropy(_) => None,
        }
    }

    /// Serves a queue. The bytes of a message that it sends go into the buffer. Where memory is refused nothing has changed.
    #[inline(always)]
    pub(crate) fn serve<R: Ring, L: TouchLog>(
        &mut self,
        visit: Visit,
        ring: &mut R,
        sent: &mut Vec<u8>,
        ram: &mut Ram,
        log: &mut L,
    ) -> Result<Served, Unserved>
        requires ready { MayLook L.may ram.old (R.state ring.old) (R.decoder ring.old) log.old }
        requires base { visit.site.base ≡ (R.state ring.old).base }
        requires room { has_work self.old visit.number ≡ true }
        requires sound { AreSoundBeside (length ram.old.bytes) (R.state ring.old) visit.features self.old }
        ensures served { HasRun L.after (scene ram.old log.old (R.state ring.old) self.old) (scene ram.new log.new (R.state ring.new) self.new) (wanted_of self.old visit.number) (λ ram q kind seen. serve visit.features kind visit.number ram q seen) result sent.new.items }
        ensures after { HasLooked L.may ram.old ram.new (R.decoder ring.new) log.new }
    {
        match self {
            Kind::Network { inbox, .. } => {
                if visit.number > 0 {
                    return net::transmit(visit.site, ring, inbox.longest(), sent, ram, log);
                }
                net::receive(visit.site, ring, inbox, ram, log)
            }
            Kind::Block(block) => block.take(visit.site, visit.features, ring, ram, log),
            Kind::Outside(block) => block.take(visit.site, visit.features, ring, ram, log),
            Kind::Console { held, .. } => {
                if visit.number > 0 {
                    return console::transmit(visit.site, ring, sent, ram, log);
                }
                receive(visit.site, ring, held, ram, log)
            }
            Kind::Entropy(pool) => receive(visit.site, ring, pool, ram, log),
        }
    }

    /// What the next step of the k-th outstanding request, from 0, owes.
    pub(crate) fn due_sync(&self, k: usize, features: u64) -> SyncOwed
        ensures owed { result ≡ kind_owed features self.now k }
        ensures flush { is_flush_owed result ≡ kind_flushes self.now k }
    {
        match self {
            Kind::Block(block) => block.due_sync(k, features),
            Kind::Network { .. } | Kind::Outside(_) | Kind::Console { .. } | Kind::Entropy(_) => {
                SyncOwed::Nothing
            }
        }
    }

    /// Fails the k-th outstanding request, from 0, if it flushes the disk next. The result says whether it does.
    pub(crate) fn fail_flush(&mut self, k: usize) -> bool
        ensures was { result ≡ kind_flushes self.old k }
        ensures kind { self.new ≡ kind_flush_failed self.old k }
    {
        match self {
            Kind::Block(block) => block.fail_flush(k),
            Kind::Network { .. } | Kind::Outside(_) | Kind::Console { .. } | Kind::Entropy(_) => {
                false
            }
        }
    }
}

/// Whether queue 0 is ready.
pub(crate) fn is_first_ready(queues: &[Queue]) -> bool
    ensures { result ≡ is_first_ready queues.now }
{
    matches!(queues, [first, ..] if first.is_ready)
}

/// The slots of the chain of the k-th request, from 0, if there is one.
fn slots_at(requests: &[Request], k: usize) -> Option<u16>
    ensures { result ≡ slots_in (slice_get requests.now k) }
{
    if k >= requests.len() {
        return None;
    }
    Some(requests[k].slots)
}

/// What a network device was made as: for long frames, unless its longest has 1,514 bytes.
fn net_shape(mac: [u8; 6], longest: u16) -> Shape
    ensures { result ≡ net_as mac longest }
{
    if longest == FRAME_MAX {
        return Shape::Net { mac };
    }
    Shape::LongNet { mac, longest }
}
