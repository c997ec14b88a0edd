//! A queue as its driver knows it, and where its areas are.

/// Where the areas of the first queue begin in RAM, those of the next one that many bytes behind them.
pub const AREAS: usize = 0x400;

/// A queue of a device, and how far its driver has come in it.
#[derive(Clone, Copy, Debug)]
pub struct Queue {
    /// The device.
    pub dev: u8,

    /// The number of the queue in its device.
    pub number: u8,

    /// Whether its ring is packed.
    pub is_packed: bool,

    /// Whether tables of descriptors were negotiated.
    pub has_tables: bool,

    /// Whether event indexes were negotiated.
    pub has_events: bool,

    /// How many descriptors there are.
    pub size: u16,

    /// The index in RAM of the descriptor area.
    pub descriptors: usize,

    /// The index in RAM of the driver area.
    pub driver: usize,

    /// The index in RAM of the device area.
    pub device: usize,

    /// How many chains were made available, modulo 2^16.
    pub made: u16,

    /// How many of them did not come back.
    pub out: u16,

    /// The slot of the next descriptor of a packed ring.
    pub slot: u16,

    /// The wrap counter of the driver.
    pub wrap: bool,
}

impl Queue {
    /// The queue of this number in its device, of which so many bytes of areas are before it. It is not set up.
    pub const fn first(dev: u8, number: u8, areas: usize) -> Queue {
        Queue {
            dev,
            number,
            is_packed: false,
            has_tables: false,
            has_events: false,
            size: 1,
            descriptors: areas,
            driver: areas,
            device: areas,
            made: 0,
            out: 0,
            slot: 0,
            wrap: true,
        }
    }
    /// The index in RAM of the driver's word about interrupts (VIRTIO 1.2, 2.7.6, 2.7.7 and 2.8.10).
    pub fn word(&self) -> usize {
        if self.has_events && !self.is_packed {
            self.driver.wrapping_add(4 + 2 * self.size as usize)
        } else {
            self.driver
        }
    }
}
