//! The search: one run after another, each with its order of steps.

use crate::orders::world::World;
use crate::orders::{Trial, Verdict};
use anyhow::{Result, bail};

/// How many steps a run may have, and how many runs a search.
const MOST_STEPS: u32 = 400;

const MOST_RUNS: u64 = 50_000;

/// The choices of a run, wherever both processes can go on: whether the other one does.
#[derive(Drop)]
struct Path {
    choices: Vec<bool>,
    depth: usize,
}

impl Path {
    /// The next choice of this run: to stay, where the path does not go so far.
    fn choose(&mut self) -> Result<bool> {
        let depth = self.depth;
        self.depth = depth.wrapping_add(1);
        if let Some(choice) = self.choices.as_slice().get(depth) {
            return Ok(*choice);
        }
        self.choices.push(false)?;
        Ok(false)
    }

    /// Goes on to the next path: the last choice to stay is changed. Returns false where there is none.
    fn go_on(&mut self) -> Result<bool> {
        self.depth = 0;
        for _choice in 0..self.choices.len() {
            if self.choices.pop() == Some(false) {
                self.choices.push(true)?;
                return Ok(true);
            }
        }
        Ok(false)
    }
}

/// Goes through the orders of a trial, until a run ends otherwise than well. Returns how the last one ended, and how many there were.
pub fn search(world: World, trial: Trial) -> Result<(Verdict, u64, World)> {
    let mut world = world;
    let mut path = Path {
        choices: Vec::new(world.alloc),
        depth: 0,
    };
    for runs in 1..MOST_RUNS {
        let (verdict, next) = run(world, trial, &mut path)?;
        world = next;
        if verdict != Verdict::Fine || !path.go_on()? {
            return Ok((verdict, runs, world));
        }
    }
    bail!("too many orders")
}

/// Makes one run.
fn run(world: World, trial: Trial, path: &mut Path) -> Result<(Verdict, World)> {
    let mut world = world.begin(trial)?;
    let mut is_host = false;
    let mut switches = 0;
    for _step in 0..MOST_STEPS {
        let (can_drive, can_serve) = (world.can_drive(), world.can_serve());
        if !can_drive && !can_serve {
            let verdict = world.verdict()?;
            return Ok((verdict, world));
        }
        if can_drive != can_serve {
            is_host = can_serve;
        } else if switches < trial.switches && path.choose()? {
            is_host = !is_host;
            switches += 1;
        }
        world = if is_host {
            world.serve()?
        } else {
            world.drive()?
        };
    }
    bail!("a run without an end")
}
