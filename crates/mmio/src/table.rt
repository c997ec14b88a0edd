//! Which register lies at an offset.

ghost use Rattle.std.specs.Prelude.{◌≡◌};
ghost use Rattle.mmio.specs.RegisterTable.{register_at};

use crate::register::Register;

/// The register at an offset in bytes (VIRTIO 1.2, 4.2.2); none where the table has no register.
pub(crate) fn register_at(offset: u32) -> Option<Register>
    ensures { result ≡ register_at offset }
{
    match offset {
        0x000 => Some(Register::MagicValue),
        0x004 => Some(Register::Version),
        0x008 => Some(Register::DeviceId),
        0x00c => Some(Register::VendorId),
        0x010 => Some(Register::DeviceFeatures),
        0x014 => Some(Register::DeviceFeaturesSel),
        0x020 => Some(Register::DriverFeatures),
        0x024 => Some(Register::DriverFeaturesSel),
        0x030 => Some(Register::QueueSel),
        0x034 => Some(Register::QueueNumMax),
        0x038 => Some(Register::QueueNum),
        0x044 => Some(Register::QueueReady),
        0x050 => Some(Register::QueueNotify),
        0x060 => Some(Register::InterruptStatus),
        0x064 => Some(Register::InterruptAck),
        0x070 => Some(Register::Status),
        0x080 => Some(Register::QueueDescLow),
        0x084 => Some(Register::QueueDescHigh),
        0x090 => Some(Register::QueueDriverLow),
        0x094 => Some(Register::QueueDriverHigh),
        0x0a0 => Some(Register::QueueDeviceLow),
        0x0a4 => Some(Register::QueueDeviceHigh),
        0x0ac => Some(Register::ShmSel),
        0x0b0 => Some(Register::ShmLenLow),
        0x0b4 => Some(Register::ShmLenHigh),
        0x0b8 => Some(Register::ShmBaseLow),
        0x0bc => Some(Register::ShmBaseHigh),
        0x0fc => Some(Register::ConfigGeneration),
        _ => None,
    }
}
