//! What the programs that carry out books of scenarios share: the disks of their machines (`disks`), a script that is played and
//! what it answers (`playing`), sectors as lines (`sectors`), what disks outside are asked for (`outside`), whether two machines are the same (`sameness`), and how a
//! machine is saved and received (`stream`).
//!
//! The programs are `scripts` (machines and what happens to them), `streams` (machines that are saved, and streams that are
//! refused) and `migrations` (machines that are migrated while they run, and moves that are rehearsed). Nothing here is promised
//! to anyone else.
#![tactic(auto)]

mod disks;
mod outside;
mod playing;
mod sameness;
mod sectors;
mod stream;

pub use disks::{TestDisk, disks_alone, disks_for, disks_of};
pub use outside::{limits, made, terms};
pub use playing::{answer_of_machine, are_lines, play, play_scenario, plays_on};
pub use sameness::{are_same, are_saved_alike};
pub use stream::{PIECES, arrived, arrived_in_pieces, refusal_in_pieces, refusal_of, saved};
