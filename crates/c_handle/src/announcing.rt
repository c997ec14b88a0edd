//! What the first bytes of a stream announce.
//!
//! It is told of every machine that an arrival could allow. This keeps nothing, so the bytes are handed in again by `vmig_feed`. That more bytes are needed (79) is no refusal, so it is above 63.

ghost use Rattle.std.specs.Prelude.{◌≡◌};
ghost use Rattle.c_handle.specs.Announced.{Announces, heading_status};

use crate::status::stream_status;
use c_machine::status::{DONE, MORE, NO_MEMORY};
use c_machine::{Description, message_of};
use machine::Limits;
use receiver::{RecvError, read_heading_within};
use std::alloc::Global;

/// What the machine is whose stream begins with these bytes.
#[tactic(auto, using(crate::proofs::Announcements::announced, crate::proofs::Announcements::awaited, crate::proofs::Announcements::refused))]
pub fn announced(alloc: Global, bytes: &[u8], out: &mut Description) -> u32
    ensures { Announces bytes.now result out.new out.old }
{
    match read_heading_within(alloc, Limits::greatest(), bytes) {
        Ok(Some(header)) => {
            let mut told = Description::none().with_shapes(header.pages, &header.shapes);
            told.message = message_of(&header.shapes);
            *out = told;
            DONE
        }
        Ok(None) => MORE,
        Err(error) => heading_status(error),
    }
}

/// The status of what refuses a header that nothing arrives by. Where memory was refused nothing is over by it.
fn heading_status(error: RecvError) -> u32
    ensures { result ≡ heading_status error }
{
    match error {
        RecvError::NoMemory => NO_MEMORY,
        error => stream_status(error),
    }
}
