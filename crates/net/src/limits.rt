//! How long frames are, and how many wait.

ghost use Rattle.std.specs.Prelude.{◌≡◌};
ghost use Rattle.net.specs.Inbox.{most_waiting};

/// The fewest bytes of a frame: an Ethernet header.
pub(crate) const FRAME_MIN: usize = 14;

/// The most bytes of a frame of a device that is not made for longer ones: an Ethernet header and a payload of 1,500 bytes.
pub const FRAME_MAX: u16 = 1514;

/// The fewest bytes of the longest frame that a device for long ones is made with: an Ethernet header with a VLAN tag, and the payload of
/// 1,500 bytes that every Ethernet carries. Streams of an older library may have devices for shorter ones.
pub const LONG_FRAME_MIN: u16 = 1518;

/// The most bytes that the longest frame of any device may have.
pub const FRAME_GREATEST: u16 = 65_535;

/// The most frames that the host can have put in and the guest not yet taken.
pub const INBOX_MAX: usize = 64;

/// The most bytes that these frames can have together: 64 of 1,514 bytes.
pub(crate) const INBOX_BYTES: usize = INBOX_MAX * FRAME_MAX as usize;

/// How many frames may wait where a frame has at most `longest` bytes: 64, or as many of the longest as `INBOX_BYTES` hold.
pub fn most_waiting(longest: u16) -> usize
    ensures { result ≡ most_waiting longest }
{
    if longest > FRAME_MAX {
        return INBOX_BYTES / longest as usize;
    }
    INBOX_MAX
}
