//! One script, and the trace that it stands for.

use crate::question::Question;
use crate::ring_words::{value, write_available, write_descriptor};
use std::alloc::Global;
use std::io::{self, ErrorKind, Write};
use std::str::FromStr;

/// A trace, and the lines that its replies must have.
///
/// The lines of a script are those of a trace (`ram 1`, `entropy`, `mw 0x100 000001000000`, `s 0 0`). An event is followed by
/// ` -> ` and the line of its reply, where that is not `done`. Commas separate a line into pieces, and `PIECE*COUNT` repeats
/// one COUNT times: `mw 0 ,aa*3,bb` is `mw 0 aaaaaabb`. A line `LINES BITS` asks which devices' interrupt lines are high: bit 1
/// is that of device 1. A line `EACH COUNT EVENTS`, with `; ` between its events, repeats these events COUNT times; `@` in an
/// event is the number of the turn, from 1 on, as the two bytes of an index in a ring.
///
/// Four lines stand for register writes, each answered by `done` (VIRTIO 1.2, 3.1.1 and 4.2.2):
///
/// - `UP DEV LOW HIGH`: the driver finds the device, sets features, of which these are the lower and the upper 32 bits,
///   and FEATURES_OK;
/// - `QUEUE DEV QUEUE SIZE TABLE DRIVER DEVICE`: the size of a queue, the addresses of its three areas, which are below
///   2^32, and QueueReady;
/// - `GO DEV`: DRIVER_OK;
/// - `KICK DEV QUEUE`: the driver notifies the device of a queue.
///
/// Three lines stand for what the driver writes into its rings in RAM (VIRTIO 1.2, 2.7.5, 2.7.6 and 2.8.13), each answered by `done`:
///
/// - `DESC ADDR BUFFER LEN FLAGS NEXT`: the descriptor at this address, of a split ring or a table in it: where its buffer or
///   table begins, how many bytes that has, the flags, and the index of the next one. FLAGS are the letters N for NEXT, W for
///   WRITE and I for INDIRECT, or `-` for none, or a number after `0x`. NEXT may be left out, and is 0 then;
/// - `SLOT ADDR BUFFER LEN FLAGS ID`: the same of a packed ring or a table in it, with an id. Its flags may have A for AVAIL and
///   U for USED too: A alone is what the driver makes available in the first round. ID may be left out, and is 0 then;
/// - `AVAIL ADDR INDEX HEAD HEAD ..`: the driver area of a split ring at this address: its index, and the heads in its ring.
///
/// So a packed ring differs from a split one in the word, in A, and in what makes a chain available:
///
/// ```text
/// DESC 0x0 0x900 1 N 1        SLOT 0x0 0x900 1 NA
/// DESC 0x10 0xa00 1 W         SLOT 0x10 0xa00 1 WA
/// AVAIL 0x100 1 0
/// ```
///
/// The disk of a block device is in memory, and of zeros. Four lines are about disks:
///
/// - `FILL DEV`: at the start, each sector n of the disk is filled with the byte n modulo 256;
/// - `PLAN DEV CALL CALL ..`: these calls of the disk fail, counted from 1;
/// - `SECTOR DEV N BYTES`: the sector holds these bytes now. Reading it for this is a call of the disk as well;
/// - `BAD DEV N`: the sector is bad now.
///
/// A device `outside` has its disk outside, which answers by events. Two lines are about what it is asked for:
///
/// - `ASKS DEV PICK WHAT`: the request that the pick names asks for this now: `read FIRST COUNT`, `write FIRST COUNT` or
///   `clear FIRST COUNT`, with ` durable` after it where that has to be durable before it is answered, `flush`, or `nothing`;
/// - `GIVES DEV PICK BYTES`: these are the bytes that it writes now, `-` for none.
///
/// A script may stand for RAM that begins at another address than 0 (`new_at`). The addresses in its lines are then those of a RAM
/// that begins at 0: those of areas, and of buffers and tables in descriptors, are shifted, modulo 2^64. Who plays the events shifts
/// those of accesses to RAM.
///
/// Among the events may be those of a migration: `begin`, `copy`, `round` and `stop`. Five lines are about it:
///
/// - `WRITER N`: its writer takes N bytes and then fails;
/// - `ALONE DEV CALL CALL ..`: as `PLAN`, for the disk of a machine to which the same happens but for the migration, so
///   that no item is read from its disks;
/// - `BYTES N`: N bytes are written by now;
/// - `FAILED DEV N`: the last call was refused because this sector could not be read;
/// - `REMAINING DUE DIRTY`: DUE items are due now, and DIRTY are dirty.
#[derive(Drop)]
pub struct Script {
    alloc: Global,

    /// Where RAM begins.
    base: u64,
    trace: Vec<u8>,
    replies: Vec<u8>,
    events: usize,
    asked: Vec<(usize, Question)>,
    filled: Vec<usize>,
    plans: Vec<(usize, u64)>,
    plans_alone: Vec<(usize, u64)>,
    room: Option<usize>,
}

impl Script {
    /// A script of no lines. It takes no memory.
    pub fn new(alloc: Global) -> Script {
        Script::new_at(alloc, 0)
    }

    /// The same, for RAM that begins at the address `base`.
    pub fn new_at(alloc: Global, base: u64) -> Script {
        Script {
            alloc,
            base,
            trace: Vec::new(alloc),
            replies: Vec::new(alloc),
            events: 0,
            asked: Vec::new(alloc),
            filled: Vec::new(alloc),
            plans: Vec::new(alloc),
            plans_alone: Vec::new(alloc),
            room: None,
        }
    }

    /// The address at which RAM begins.
    pub fn base(&self) -> u64 {
        self.base
    }

    /// The trace that it stands for.
    pub fn trace(&self) -> &[u8] {
        self.trace.as_slice()
    }

    /// The lines of the replies.
    pub fn replies(&self) -> &[u8] {
        self.replies.as_slice()
    }

    /// The questions, each with the number of events after which it is asked.
    pub fn questions(&self) -> &[(usize, Question)] {
        self.asked.as_slice()
    }

    /// Whether the disk of a device begins filled.
    pub fn fills(&self, dev: usize) -> bool {
        self.filled.contains(&dev)
    }

    /// The calls of disks that fail, each after the number of its device.
    pub fn plans(&self) -> &[(usize, u64)] {
        self.plans.as_slice()
    }

    /// The calls of disks that fail where nothing is sent, each after the number of its device.
    pub fn plans_alone(&self) -> &[(usize, u64)] {
        self.plans_alone.as_slice()
    }

    /// How many bytes the writer takes before it fails, if it does.
    pub fn room(&self) -> Option<usize> {
        self.room
    }

    /// Adds the lines of a text. `InvalidData` where a count is no number; else it fails only if it is out of memory.
    pub fn add(&mut self, text: &str) -> io::Result<()> {
        for line in text.lines() {
            self.add_line(line)?;
        }
        Ok(())
    }

    fn add_line(&mut self, line: &str) -> io::Result<()> {
        let (first, words) = cut(line);
        match first {
            "ram" | "net" | "block" | "outside" | "console" | "entropy" => {
                write_line(&mut self.trace, line)
            }
            "EACH" => self.add_turns(words),
            "LINES" => self.add_lines(words),
            "FILL" => self.add_filled(words),
            "PLAN" => add_plan(&mut self.plans, words),
            "ALONE" => add_plan(&mut self.plans_alone, words),
            "WRITER" => self.set_room(words),
            "BYTES" => self.add_written(words),
            "FAILED" => self.add_failed(words),
            "REMAINING" => self.add_remaining(words),
            "SECTOR" => self.add_sector(words),
            "BAD" => self.add_bad(words),
            "ASKS" => self.add_asked(words),
            "GIVES" => self.add_given(words),
            "UP" => self.add_start(words),
            "QUEUE" => self.add_queue(words),
            "GO" => self.add_write(words, "0x070", "15"),
            "KICK" => self.add_kick(words),
            "DESC" => self.add_descriptor(words, false),
            "SLOT" => self.add_descriptor(words, true),
            "AVAIL" => self.add_available(words),
            _ => self.add_event(line),
        }
    }

    fn add_event(&mut self, line: &str) -> io::Result<()> {
        let (event, reply) = line.split_once(" -> ").unwrap_or((line, "done"));
        self.events = self.events.saturating_add(1);
        write_line(&mut self.trace, event)?;
        write_line(&mut self.replies, reply)
    }

    fn add_lines(&mut self, bits: &str) -> io::Result<()> {
        self.asked.push((self.events, Question::Lines))?;
        writeln!(self.replies, "lines {bits}")
    }

    fn add_filled(&mut self, dev: &str) -> io::Result<()> {
        self.filled.push(number(dev)?)?;
        Ok(())
    }

    fn set_room(&mut self, bytes: &str) -> io::Result<()> {
        self.room = Some(number(bytes)?);
        Ok(())
    }

    fn add_written(&mut self, bytes: &str) -> io::Result<()> {
        self.asked.push((self.events, Question::Written))?;
        writeln!(self.replies, "written {bytes}")
    }

    fn add_failed(&mut self, sector: &str) -> io::Result<()> {
        self.asked.push((self.events, Question::Failed))?;
        writeln!(self.replies, "failed {sector}")
    }

    fn add_remaining(&mut self, items: &str) -> io::Result<()> {
        self.asked.push((self.events, Question::Remaining))?;
        writeln!(self.replies, "remaining {items}")
    }

    fn add_sector(&mut self, words: &str) -> io::Result<()> {
        let (dev, rest) = cut(words);
        let (n, bytes) = cut(rest);
        self.ask_sector(dev, n)?;
        write_line(&mut self.replies, bytes)
    }

    fn add_bad(&mut self, words: &str) -> io::Result<()> {
        let (dev, n) = cut(words);
        self.ask_sector(dev, n)?;
        writeln!(self.replies, "bad")
    }

    fn add_asked(&mut self, words: &str) -> io::Result<()> {
        let (dev, pick, what) = cut_request(words)?;
        self.asked
            .push((self.events, Question::Asked { dev, pick }))?;
        writeln!(self.replies, "asks {dev} {pick} {what}")
    }

    fn add_given(&mut self, words: &str) -> io::Result<()> {
        let (dev, pick, bytes) = cut_request(words)?;
        self.asked
            .push((self.events, Question::Given { dev, pick }))?;
        write!(self.replies, "gives {dev} {pick} ")?;
        write_line(&mut self.replies, bytes)
    }

    /// Asks for the contents of a sector. The rest of the answer's line follows.
    fn ask_sector(&mut self, dev: &str, n: &str) -> io::Result<()> {
        let question = Question::Sector {
            dev: number(dev)?,
            n: number(n)?,
        };
        self.asked.push((self.events, question))?;
        write!(self.replies, "sector {dev} {n} ")
    }

    fn add_turns(&mut self, words: &str) -> io::Result<()> {
        let (count, events) = cut(words);
        for turn in 1..=number::<u16>(count)? {
            self.add_turn(turn, events)?;
        }
        Ok(())
    }

    fn add_turn(&mut self, turn: u16, events: &str) -> io::Result<()> {
        let [low, high] = turn.to_le_bytes();
        let index = format!(in self.alloc; "{low:02x}{high:02x}")?;
        let events = events.replace(self.alloc, "@", index.as_str())?;
        for event in events.as_str().split("; ") {
            self.add_event(event)?;
        }
        Ok(())
    }

    fn add_start(&mut self, words: &str) -> io::Result<()> {
        let (device, features) = cut(words);
        let (low, high) = cut(features);
        let writes = [
            ("0x070", "3"),
            ("0x024", "0"),
            ("0x020", low),
            ("0x024", "1"),
            ("0x020", high),
            ("0x070", "11"),
        ];
        self.add_writes(device, &writes)
    }

    fn add_queue(&mut self, words: &str) -> io::Result<()> {
        let (device, rest) = cut(words);
        let (queue, rest) = cut(rest);
        let (size, rest) = cut(rest);
        let (table, rest) = cut(rest);
        let (driver, used) = cut(rest);
        self.add_writes(device, &[("0x030", queue), ("0x038", size)])?;
        self.add_address(device, ["0x080", "0x084"], table)?;
        self.add_address(device, ["0x090", "0x094"], driver)?;
        self.add_address(device, ["0x0a0", "0x0a4"], used)?;
        self.add_write(device, "0x044", "1")
    }

    /// Adds the writes of an address into its two registers, first of the lower 32 bits.
    fn add_address(&mut self, device: &str, registers: [&str; 2], word: &str) -> io::Result<()> {
        let address = value(word)?.wrapping_add(self.base);
        for (register, half) in registers.iter().zip([address & 0xffff_ffff, address >> 32]) {
            self.events = self.events.saturating_add(1);
            writeln!(self.trace, "w {device} {register} 4 {half}")?;
            writeln!(self.replies, "done")?;
        }
        Ok(())
    }

    fn add_kick(&mut self, words: &str) -> io::Result<()> {
        let (device, queue) = cut(words);
        self.add_write(device, "0x050", queue)
    }

    /// Adds a write of a descriptor into RAM.
    fn add_descriptor(&mut self, words: &str, is_packed: bool) -> io::Result<()> {
        let (addr, descriptor) = cut(words);
        self.events = self.events.saturating_add(1);
        write!(self.trace, "mw {addr} ")?;
        write_descriptor(&mut self.trace, descriptor, is_packed, self.base)?;
        writeln!(self.trace)?;
        writeln!(self.replies, "done")
    }

    /// Adds a write of the area of a driver into RAM.
    fn add_available(&mut self, words: &str) -> io::Result<()> {
        let (addr, heads) = cut(words);
        self.events = self.events.saturating_add(1);
        write!(self.trace, "mw {addr} ")?;
        write_available(&mut self.trace, heads)?;
        writeln!(self.trace)?;
        writeln!(self.replies, "done")
    }

    /// Adds register writes, each with the value that is written.
    fn add_writes(&mut self, device: &str, writes: &[(&str, &str)]) -> io::Result<()> {
        for (register, value) in writes {
            self.add_write(device, register, value)?;
        }
        Ok(())
    }

    /// Adds a register write of four bytes.
    fn add_write(&mut self, device: &str, register: &str, value: &str) -> io::Result<()> {
        self.events = self.events.saturating_add(1);
        writeln!(self.trace, "w {device} {register} 4 {value}")?;
        writeln!(self.replies, "done")
    }
}

/// The device and the pick of a request, and the words after them.
fn cut_request(words: &str) -> io::Result<(u8, u8, &str)> {
    let (dev, rest) = cut(words);
    let (pick, rest) = cut(rest);
    Ok((number(dev)?, number(pick)?, rest))
}

/// Adds the calls of a disk, each after the number of its device.
fn add_plan(plans: &mut Vec<(usize, u64)>, words: &str) -> io::Result<()> {
    let (dev, calls) = cut(words);
    let dev = number(dev)?;
    for call in calls.split(' ') {
        plans.push((dev, number(call)?))?;
    }
    Ok(())
}

/// Writes the pieces of a line.
fn write_line(out: &mut Vec<u8>, line: &str) -> io::Result<()> {
    for piece in line.split(',') {
        write_piece(out, piece)?;
    }
    writeln!(out)
}

fn write_piece(out: &mut Vec<u8>, piece: &str) -> io::Result<()> {
    let Some((text, count)) = piece.split_once('*') else {
        return out.write_all(piece.as_bytes());
    };
    for _ in 0..number::<u16>(count)? {
        out.write_all(text.as_bytes())?;
    }
    Ok(())
}

/// The number of these digits. `InvalidData` where there is none.
fn number<N: FromStr>(digits: &str) -> io::Result<N>
where
    N::Err: Drop,
{
    match digits.parse::<N>() {
        Ok(number) => Ok(number),
        Err(_) => Err(io::Error::from(ErrorKind::InvalidData)),
    }
}

/// The first word, and those after it.
fn cut(words: &str) -> (&str, &str) {
    words.split_once(' ').unwrap_or((words, ""))
}
