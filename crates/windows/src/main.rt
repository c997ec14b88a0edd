//! Steps of a machine whose RAM is lent, beside the same steps of a machine that has its RAM.
//!
//! Guests that are drawn drive a network device, a disk, a disk outside, a console and an entropy device, over rings of both layouts: mostly
//! as drivers do, and now and then as they must not (tables over rings, buffers over the driver's word, lengths that no RAM has). Each step is
//! made three times: by a machine that has its RAM, and over the windows of two hosts, which copy into them what the step asks for and no more.
//! One host has the driver's word in its window too; the other ends the step by the word that it reads last. After each step all answers, all
//! devices and RAM are compared; after each guest the disks. The machine of the other host is being sent all along: after each guest it is
//! stopped, and the machine that arrives is compared too.
//!
//! The argument says how many steps there are. The program ends with an error at the first difference, and where a device has published
//! or interrupted so seldom that nothing was shown. After the guests the orders of a driver and a host are searched (`orders`).
#![tactic(auto)]

mod answering;
mod bench;
mod draws;
mod ending;
mod guest;
mod host;
mod moving;
mod offering;
mod orders;
mod parts;
mod queue;
mod sameness;
mod setting_up;
mod stepping;
mod tally;
mod window;
mod word;

use crate::guest::{DEVICES, Guest};
use crate::orders::{Verdict, search_orders};
use crate::tally::{ANSWERS, Counts, Tally};
use crate::window::new_window;
use anyhow::{Context, Result, ensure};
use region::KeptRegion;
use std::alloc::Global;
use std::env;
use std::io::Write;

/// How many turns a guest has.
const TURNS: u32 = 150;

/// How many guests there may be, and how many steps.
const MOST: u64 = 100_000_000;

/// What the devices are, by their numbers.
const NAMES: [&str; DEVICES] = [
    "the network device",
    "the disk",
    "the disk outside",
    "the console",
    "the entropy device",
];

/// Goes through a guest. Returns the memory of the windows.
fn try_guest(
    alloc: Global,
    seed: u64,
    windows: (KeptRegion, KeptRegion),
    tally: &mut Tally,
) -> Result<(KeptRegion, KeptRegion)> {
    let mut guest = Guest::new(alloc, seed, windows)?;
    for _turn in 0..TURNS {
        guest = guest.turn(tally)?;
    }
    guest.end()
}

/// Goes through guests until so many steps were made.
fn try_guests(alloc: Global, steps: u64) -> Result<Tally> {
    let mut tally = Tally::NONE;
    let mut windows = (new_window(alloc)?, new_window(alloc)?);
    for seed in 0..MOST {
        if tally.steps >= steps {
            break;
        }
        windows = try_guest(alloc, seed, windows, &mut tally).context(seed)?;
    }
    Ok(tally)
}

/// Fails unless enough of so many steps published a chain of this device, raised its interrupt, and were ended by a host that raised it.
fn did_enough(counts: Counts, steps: u64) -> Result<()> {
    ensure!(counts.published >= steps / 40, "seldom published");
    ensure!(counts.raised >= steps / 100, "seldom raised");
    ensure!(counts.ended >= steps / 100, "seldom ended");
    ensure!(counts.published > counts.open, "each step was open");
    Ok(())
}

fn main(rt: HostRuntime) -> Result<()> {
    let steps = match env::args(&rt)?.nth(1) {
        Some(word) => word.as_str().parse::<u64>()?,
        None => 1000,
    };
    let tally = try_guests(rt.alloc(), steps.min(MOST))?;
    for (name, counts) in NAMES.iter().zip(tally.devices) {
        eprintln!(rt; "{name}: {counts}")?;
        did_enough(counts, tally.steps).context(*name)?;
        println!(rt; "{name}: each step is the same in all machines")?;
    }
    for (answer, count) in ANSWERS.iter().zip(tally.answers) {
        eprintln!(rt; "{answer}: {count}")?;
        ensure!(count > 0, "never: {answer}");
    }
    println!(rt; "each answer of a step was given")?;
    for found in search_orders(rt.alloc())?.as_slice() {
        let (name, runs) = (found.name, found.runs);
        let end = match found.verdict {
            Verdict::Fine => "all chains come back in each order",
            Verdict::Hung => "found, by a driver that sleeps for ever",
            Verdict::Wrong => "found, by a driver that sees another chain",
        };
        eprintln!(rt; "{name}: {runs} orders")?;
        println!(rt; "{name}: {end}")?;
    }
    Ok(())
}
