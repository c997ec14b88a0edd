//! The calls that need no byte of RAM, of a machine whose RAM is here or lent.
//!
//! Where it is lent, each is that call of the machine with whatever its RAM holds meanwhile. So the processors of a guest may write RAM while
//! a call is made, and it makes no difference which came first.
//!
//! A flush beside all steps is no event: it changes no machine, so no list has it, and no reply. A flush that fails in place of
//! its step is no event that is applied either (`IsApplied` counts a failure of the disk): the definition of a step stays, with
//! the outcome that the disk failed.
//!
//! The loop of a host is `next_work`. It reads no RAM, so a queue that is notified is named although it may be empty; the
//! step then clears the flag. In turn are all picks of a device, then the next device, from the step after the last one made:
//! so nobody is left out, and the caller keeps two bytes.

ghost use Rattle.std.specs.Prelude.{◌≡◌, ◌<◌, ◌≤◌, false, true, None, Some, IfSome, length, map, slice_get};
ghost use Rattle.guestmem.specs.Memory.{Memory};
ghost use Rattle.machine.specs.Applied.{ReadsSector};
ghost use Rattle.machine.specs.Calls.{has_read};
ghost use Rattle.machine.specs.Direct.{value_reply, done_reply, accepted_reply, written_result};
ghost use Rattle.machine.specs.Dropping.{drops_in};
ghost use Rattle.machine.specs.Lines.{lines_of};
ghost use Rattle.machine.specs.NextWork.{HaveNoWork, NoneCanWork, can_work_at, has_work_at, next_work, next_work_with_lost};
ghost use Rattle.machine.specs.Over.{AppliesOver, CallsOver, FailsFlushOver, FlushesOver, HasSector, HasSectorsOver, IsSoundOver, ReadsOver, calls_in, sectors_in};
ghost use Rattle.machine.specs.Seen.{states_of, with_ram};
ghost use Rattle.machine.specs.Shapes.{made_as};
ghost use Rattle.machine.specs.Sound.{AreSoundDevices};
ghost use Rattle.machine.specs.State.{base_of};
ghost use Rattle.machine.specs.Unsynced.{FlushesDisk, flushes_if};
ghost use Rattle.machine.specs.declared.event.Event.TheVariants as events;
ghost use Rattle.machine.specs.declared.machine.TheConstants.{DEVICES_MAX};

use crate::device::Device;
use crate::guest_ram::GuestRam;
use crate::machine::MachineOver;
use crate::machine::getters::{base_of, found, lines_of};
use crate::machine::next_work::next_in_turn;
use crate::reply::Refusal;
use crate::shape::Shape;
use crate::state::DeviceState;
use crate::work::Work;
use blk::{Disk, DiskFault, SECTOR_SIZE};
use console::ConsoleSize;
use guestmem::recall_bytes;

impl<D: Disk, M: GuestRam> MachineOver<D, M> {
    /// The driver reads a register of a device, `width` bytes at an offset of its window (VIRTIO 1.2, 4.2.2).
    pub fn read_register(&self, dev: u8, offset: u32, width: u8) -> Result<u32, Refusal>
        ensures { AppliesOver M.known self.now (events.RegRead dev offset width) (value_reply result) self.now }
    {
        let dev = dev as usize;
        if dev >= self.devices.len() {
            return Err(Refusal::NoDevice);
        }
        Ok(self.devices[dev].read_register(offset, width))
    }

    /// The driver writes a register of a device, `width` bytes at an offset of its window (VIRTIO 1.2, 4.2.2). Whether the
    /// device takes the value is not reported. The result is a byte where one is written into the emergency register of a
    /// console.
    pub fn write_register(
        &mut self,
        dev: u8,
        offset: u32,
        width: u8,
        value: u32,
    ) -> Result<Option<u8>, Refusal>
        ensures applied { AppliesOver M.known self.old (events.RegWrite dev offset width value) (written_result result) self.new }
        ensures sectors { sectors_in self.new ≡ sectors_in self.old }
        ensures calls { calls_in self.new ≡ calls_in self.old }
    {
        let number = dev as usize;
        if number >= self.devices.len() {
            return Err(Refusal::NoDevice);
        }
        let _size = self.ram.size();
        let device = &mut self.devices[number];
        Ok(device.write_register(dev, &mut self.rings, offset, width, value))
    }

    /// The host sets the size of a console, in characters.
    pub fn resize(&mut self, dev: u8, cols: u16, rows: u16) -> Result<(), Refusal>
        ensures applied { AppliesOver M.known self.old (events.Resize dev cols rows) (done_reply result) self.new }
        ensures sectors { sectors_in self.new ≡ sectors_in self.old }
        ensures calls { calls_in self.new ≡ calls_in self.old }
    {
        let dev = dev as usize;
        if dev >= self.devices.len() {
            return Err(Refusal::NoDevice);
        }
        self.devices[dev].resize(ConsoleSize {
            columns: cols,
            rows,
        })
    }

    /// The host puts bytes in: for an entropy device into its pool, for a console as text, for a network device one frame. It
    /// returns how many were kept: the first ones, or a whole frame. A block device takes none.
    pub fn input(&mut self, dev: u8, bytes: &[u8]) -> Result<u32, Refusal>
        ensures applied { AppliesOver M.known self.old (events.Input dev bytes.now) (accepted_reply result) self.new }
        ensures sectors { sectors_in self.new ≡ sectors_in self.old }
        ensures calls { calls_in self.new ≡ calls_in self.old }
    {
        let dev = dev as usize;
        if dev >= self.devices.len() {
            return Err(Refusal::NoDevice);
        }
        recall_bytes(bytes);
        self.devices[dev].input(bytes)
    }

    /// The host drops what it has put in and the guest has not yet taken: the pool of an entropy device, the input of a console,
    /// the frames of a network device. A block device has none of it.
    pub fn drop_input(&mut self, dev: u8) -> Result<(), Refusal>
        ensures applied { AppliesOver M.known self.old (events.Drop dev) (done_reply result) self.new }
        ensures sectors { sectors_in self.new ≡ sectors_in self.old }
        ensures calls { calls_in self.new ≡ calls_in self.old }
    {
        let dev = dev as usize;
        if dev >= self.devices.len() {
            return Err(Refusal::NoDevice);
        }
        self.devices[dev].drop_input()
    }

    /// Whether this register write would drop requests that may have asked something of a disk outside: a reset of their device, or QueueReady 0
    /// of their queue. While a call is out for one of them, do not make it (crate `disk_calls`). Nothing is written.
    pub fn drops_requests(&self, dev: u8, offset: u32, width: u8, value: u32) -> bool
        ensures { result ≡ drops_in (slice_get (states_of self.now) dev) offset width value }
    {
        let dev = dev as usize;
        if dev >= self.devices.len() {
            return false;
        }
        let state = self.devices[dev].state();
        state.drops_requests(self.ram.size(), offset, width, value)
    }

    /// Flushes the disk of a device once, if it has one, so that all that was written to it is durable. The machine stays as it is.
    ///
    /// Call it before a step that ends a write of a driver that did not accept FLUSH (`DeviceState::must_sync`), and for each disk of a
    /// machine that arrived, before its source is told that all is there. Where it fails that step is not made, or the machine does not run
    /// here. A device that does not exist has no disk.
    pub fn flush_disk(&mut self, dev: u8) -> Result<(), DiskFault>
        ensures flushed { FlushesOver M.known self.old dev result self.new }
        ensures whatever { (m : Memory) → FlushesDisk (with_ram self.old m) dev result (with_ram self.new m) }
        ensures calls { CallsOver D.called true dev self.old self.new }
    {
        let dev = dev as usize;
        if dev >= self.devices.len() {
            return Ok(());
        }
        self.devices[dev].flush()
    }

    /// Reads a sector of a device's disk, one that it has: `has_sector` is the test. A bad sector is not read, and the result is
    /// `false`; then, and where the disk fails, the buffer may hold anything.
    pub fn read_sector(
        &mut self,
        dev: u8,
        n: u64,
        buf: &mut [u8; SECTOR_SIZE],
    ) -> Result<bool, DiskFault>
        requires { HasSector self.old dev n }
        ensures read { ReadsOver M.known self.old dev n buf.new result self.new }
        ensures whatever { (m : Memory) → ReadsSector (with_ram self.old m) dev n buf.new result (with_ram self.new m) }
        ensures calls { CallsOver D.called (has_read result) dev self.old self.new }
    {
        found(self.devices[dev as usize].read_sector(n, buf))
    }

    /// In place of a step that flushes a disk: makes it as a step whose disk failed, so that the request ends with an error. The disk
    /// is not called, and its marks stay as they are. The result says whether the step with this pick flushes; if not, nothing has
    /// changed.
    pub fn fail_flush(&mut self, dev: u8, pick: u8) -> bool
        ensures was { result ≡ flushes_if (slice_get (states_of self.old) dev) pick }
        ensures failed { FailsFlushOver M.known result self.old dev pick self.new }
        ensures same { result ≡ false → self.new ≡ self.old }
        ensures sectors { sectors_in self.new ≡ sectors_in self.old }
        ensures calls { calls_in self.new ≡ calls_in self.old }
    {
        let dev = dev as usize;
        if dev >= self.devices.len() {
            return false;
        }
        self.devices[dev].fail_flush(pick)
    }

    /// A step that has something to do, or `None` where no step of any device has. It is the first in turn after the last
    /// one: in turn are the picks of a device, and then those of the next device. So no device keeps the others from their
    /// work.
    ///
    /// The step that it names is not idle, or it finds an empty queue and clears its notified flag. A host that makes each
    /// step that it names, until it names none, has left nothing undone. A guest can arrange that there is always some, as
    /// its chains may name the rings themselves, so a host bounds how many steps it makes in a row. It reads no RAM.
    pub fn next_work(&self, last: Work) -> Option<Work>
        ensures next { result ≡ next_work (states_of self.now) last }
        ensures some { IfSome result (λ work. has_work_at (states_of self.now) work ≡ true) }
        ensures none { result ≡ None → HaveNoWork (states_of self.now) }
    {
        self.next_work_with_lost(last, &[])
    }

    /// As `next_work`, where some disks are lost: their bytes did not reach what holds them. A step that ends a write of a driver that
    /// did not accept FLUSH (`SyncOwed::EndOfWrite`) is passed over then, since that driver would take the write for durable. For each
    /// device the list says whether its disk is lost; one past its end is not.
    pub fn next_work_with_lost(&self, last: Work, lost: &[bool]) -> Option<Work>
        ensures next { result ≡ next_work_with_lost (states_of self.now) lost.now last }
        ensures some { IfSome result (λ work. can_work_at lost.now (states_of self.now) work ≡ true) }
        ensures none { result ≡ None → NoneCanWork lost.now (states_of self.now) }
    {
        let _size = self.ram.size();
        next_in_turn(self.devices.as_slice(), last, lost)
    }

    /// The interrupt lines: bit d is set exactly while device d has an interrupt that its driver has not acknowledged
    /// (VIRTIO 1.2, 4.2.2, InterruptStatus). Bits past the last device are clear.
    pub fn lines(&self) -> u16
        ensures { result ≡ lines_of (states_of self.now) }
    {
        let _size = self.ram.size();
        lines_of(self.devices.as_slice())
    }

    /// What the devices were made as, in order.
    pub fn shapes(&self) -> &[Shape]
        ensures shapes { result.now ≡ map (λ d. made_as d.kind) (states_of self.now) }
        ensures made { result.now ≡ map (λ d. made_as d.state.kind) self.now.devices }
        ensures few { length result.now ≤ DEVICES_MAX }
        ensures devices { AreSoundDevices (states_of self.now) }
        ensures sound { IsSoundOver M.known self.now }
        ensures sectors { HasSectorsOver M.known result.now self.now }
    {
        let _size = self.ram.size();
        self.shapes.as_slice()
    }

    /// The state of a device, without its disk.
    pub fn state(&self, dev: u8) -> &DeviceState
        requires { dev < length (states_of self.now) }
        ensures { slice_get (states_of self.now) dev ≡ Some result.now }
    {
        self.devices[dev as usize].state()
    }

    /// The devices, in order, each with its disk.
    pub fn devices(&self) -> &[Device<D>]
        ensures { result.now ≡ self.now.devices }
    {
        self.devices.as_slice()
    }

    /// The guest-physical address at which RAM begins.
    #[inline(always)]
    pub fn base(&self) -> u64
        ensures { result ≡ base_of (states_of self.now) }
    {
        base_of(self.devices.as_slice())
    }
}
