//! What a network device is to its driver (VIRTIO 1.2, 5.1): its id, its queues, its features and its configuration space (5.1.4).
//!
//! A device for long frames says how long they are: it offers MTU, so that its driver sends none that is longer. The MTU leaves room
//! for a VLAN tag, since a VLAN interface of the guest has the MTU of the device below it.

ghost use Rattle.std.specs.Prelude.{◌≡◌, ◌++◌, replicate};
ghost use Rattle.guestmem.specs.Number.{little_bytes};
ghost use Rattle.net.specs.Shape.{mtu_of};

/// The device ID of a network device (VIRTIO 1.2, 5.1.1).
pub const DEVICE_ID: u32 = 1;

/// It has two queues: one for frames to the guest, and one for frames of the guest (VIRTIO 1.2, 5.1.2).
pub const QUEUE_COUNT: u8 = 2;

/// The feature MTU: the configuration gives the most bytes of a payload (VIRTIO 1.2, 5.1.3).
const MTU: u64 = 1 << 3;

/// The feature MAC: the configuration gives the MAC address (VIRTIO 1.2, 5.1.3).
const MAC: u64 = 1 << 5;

/// The features that a network device offers, beside those that every device offers (VIRTIO 1.2, 5.1.3).
pub const FEATURES: u64 = MAC;

/// The features that a network device for long frames offers, beside those that every device offers.
pub const LONG_FEATURES: u64 = MAC | MTU;

/// Bytes of an Ethernet header with a VLAN tag.
const TAGGED_HEADER: u16 = 18;

/// How many bytes the configuration of a network device for long frames has.
const LONG_CONFIGURATION_SIZE: usize = 12;

/// The most bytes of a payload, where the longest frame has `longest`.
pub(crate) fn mtu_of(longest: u16) -> u16
    ensures { result ≡ mtu_of longest }
{
    longest.saturating_sub(TAGGED_HEADER)
}

/// The configuration of a network device for long frames: its MAC, 0 for what it does not offer, and the MTU.
pub fn long_configuration(mac: [u8; 6], longest: u16) -> [u8; LONG_CONFIGURATION_SIZE]
    ensures { result ≡ mac ++ replicate 4 0 ++ little_bytes 2 (mtu_of longest) }
{
    let [a, b, c, d, e, f] = mac;
    let [low, high] = mtu_of(longest).to_le_bytes();
    [a, b, c, d, e, f, 0, 0, 0, 0, low, high]
}
