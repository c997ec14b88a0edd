//! Books of scenarios: texts that a person reads and a program goes through.
//!
//! `Book` is such a text. `Script` is a machine with its disks, what happens to it, and what it answers; a `Question` is asked
//! of the machine between two events. `spelled` gives the bytes that a text encodes.
#![tactic(auto)]

mod book;
mod question;
mod ring_words;
mod script;
mod spelling;

pub use book::{Book, Scenario};
pub use question::Question;
pub use script::Script;
pub use spelling::spelled;
