//! The size of a console.
//!
//! A size that is set again as it was is no change, and is not reported to the driver.

use crate::shape::SIZE;
use mmio::Regs;

/// How many bytes the configuration of a console has.
pub(crate) const CONFIGURATION_SIZE: usize = 12;

/// The size of a console, in characters.
#[derive(Clone, Copy, Debug, PartialEq, Eq)]
pub struct ConsoleSize {
    /// How many characters a row has.
    pub columns: u16,

    /// How many rows there are.
    pub rows: u16,
}

impl ConsoleSize {
    ghost use Rattle.std.specs.Prelude.{◌≡◌};
    ghost use Rattle.console.specs.Size.{configuration_of, resized};

    /// The size with which a console begins.
    pub const FIRST: ConsoleSize = ConsoleSize {
        columns: 80,
        rows: 25,
    };

    /// The bytes of the configuration of a console of this size.
    pub fn configuration(&self) -> [u8; CONFIGURATION_SIZE]
        ensures { result ≡ configuration_of self.now }
    {
        let [columns_low, columns_high] = self.columns.to_le_bytes();
        let [rows_low, rows_high] = self.rows.to_le_bytes();
        [
            columns_low,
            columns_high,
            rows_low,
            rows_high,
            0,
            0,
            0,
            0,
            0,
            0,
            0,
            0,
        ]
    }

    /// Takes another size. Where it differs, that is a change of the configuration, which the registers report to the
    /// driver.
    pub fn resize(&mut self, size: ConsoleSize, registers: &mut Regs)
        ensures size { self.new ≡ size }
        ensures registers { registers.new ≡ resized self.old size registers.old }
    {
        if *self == size {
            return;
        }
        *self = size;
        registers.config_changed(SIZE);
    }
}
