//! What is asked of a disk outside of the machine.

use blk::DiskCall;

/// A call of a disk outside, as its host is handed it.
#[derive(Clone, Copy, Debug, PartialEq, Eq)]
pub struct OutsideCall {
    /// What is to be done.
    pub call: DiskCall,

    /// Whether a write, or a clearing, has to be durable before it is answered: the driver did not accept the feature FLUSH, and takes it for
    /// durable once the request has ended (VIRTIO 1.2, 5.2.6.2).
    pub durable: bool,
}
