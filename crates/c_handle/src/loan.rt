//! What is left of a machine whose RAM is lent to the caller.
//!
//! A lent machine answers what touches no RAM: registers, what the host puts in, its lines and its shape, the next step, what is left to be
//! sent, and what waits to be taken; and it is sent, by pages that the caller copies, sectors and ends of rounds. All else is refused by one
//! status, also where the answer could be given, such as a sector.

ghost use Rattle.std.specs.Prelude.{true};
ghost use Rattle.c_handle.specs.Migrated.{HasTakenLent};

use c_machine::status::{DONE, NOT_SENDING};
use machine::{Disk, Parked};
use sender::{LiveParked, Phase};
use wire::{Told, Waiting};

/// All of a machine but its RAM, which is lent.
#[derive(Drop)]
pub enum Loan<D: Disk> {
    /// It is not being migrated.
    Still(Parked<D>),

    /// It is being migrated.
    Moving(LiveParked<D, Waiting>),

    /// It is being migrated, and its host tells the digest.
    Told(LiveParked<D, Told>),
}

impl<D: Disk> Loan<D> {
    ghost use Rattle.std.specs.Prelude.{◌≡◌};
    ghost use Rattle.c_handle.specs.Kept.{loan_of, loan_told, parked_in};
    ghost use Rattle.c_handle.specs.Described.{loan_phase};
    ghost use Rattle.c_handle.specs.Migrated.{TakesLent};

    /// The machine.
    pub(crate) fn parked(&self) -> &Parked<D>
        ensures { result.now ≡ parked_in (loan_of self.now) }
    {
        match self {
            Loan::Still(parked) => parked,
            Loan::Moving(live) => live.machine(),
            Loan::Told(live) => live.machine(),
        }
    }

    /// How far its migration has come, if it is being migrated.
    pub(crate) fn phase(&self) -> Option<Phase>
        ensures { result ≡ loan_phase (loan_of self.now) }
    {
        match self {
            Loan::Still(_) => None,
            Loan::Moving(live) => Some(live.phase()),
            Loan::Told(live) => Some(live.phase()),
        }
    }

    /// Takes the first of the bytes that wait into the front of the buffer, if the machine is being migrated.
    pub(crate) fn take(&mut self, buf: &mut [u8], got: &mut usize) -> u32
        ensures takes { TakesLent (loan_told self.old) (loan_of self.old) result got.new got.old buf.old buf.new (loan_of self.new) }
        ensures kind { loan_told self.new ≡ loan_told self.old }
    {
        match self {
            Loan::Still(_) => NOT_SENDING,
            Loan::Moving(live) => {
                *got = live.take(buf);
                DONE
            }
            Loan::Told(live) => take_told(live, buf, got),
        }
    }
}

/// The same where the host tells the digest: while the record that closes the stream waits for it, it is not taken.
fn take_told<D: Disk>(live: &mut LiveParked<D, Told>, buf: &mut [u8], got: &mut usize) -> u32
    ensures { HasTakenLent true live.old result got.new buf.old buf.new live.new }
{
    let taken = live.take(buf);
    *got = taken;
    DONE
}
