//! The registers of a device.

use anyhow::{Result, ensure};
use mmio::{Effect, Regs};

/// VERSION_1 and RING_PACKED.
const OFFERED: u64 = 5 << 32;

/// Makes each call of a register file whose driver brings up an entropy device (VIRTIO 1.2, 4.2.2 and 3.1.1).
pub fn agree() -> Result<()> {
    let mut regs = Regs::new(4, OFFERED, 1, 4096);
    ensure!(regs.read(0x000, 4, &[]) == 0x7472_6976, "MagicValue");
    ensure!(regs.read(0x008, 4, &[]) == 4, "DeviceID");
    write(&mut regs, 0x014, 1, Effect::None)?;
    ensure!(regs.read(0x010, 4, &[]) == 5, "DeviceFeatures");
    write(&mut regs, 0x070, 3, Effect::None)?;
    write(&mut regs, 0x024, 1, Effect::None)?;
    write(&mut regs, 0x020, 1, Effect::None)?;
    write(&mut regs, 0x070, 11, Effect::None)?;
    write(&mut regs, 0x038, 2, Effect::None)?;
    write(&mut regs, 0x090, 0x100, Effect::None)?;
    write(&mut regs, 0x0a0, 0x200, Effect::None)?;
    write(&mut regs, 0x044, 1, Effect::Enabled(0))?;
    write(&mut regs, 0x070, 15, Effect::None)?;
    write(&mut regs, 0x050, 0, Effect::Notified(0))?;
    regs.raise_used();
    ensure!(regs.read(0x060, 4, &[]) == 1, "InterruptStatus");
    regs.config_changed(OFFERED);
    ensure!(regs.read(0x0fc, 4, &[]) == 1, "ConfigGeneration");
    ensure!(regs.read(0x102, 1, &[7, 8, 9]) == 9, "the configuration");
    regs.ask_reset();
    ensure!(regs.read(0x070, 4, &[]) == 0x4f, "DEVICE_NEEDS_RESET");
    write(&mut regs, 0x044, 0, Effect::Disabled(0))?;
    write(&mut regs, 0x100, 1, Effect::ConfigWrite)?;
    write(&mut regs, 0x070, 0, Effect::Reset)
}

/// Writes a register of 4 bytes, and fails unless the write has this effect.
fn write(regs: &mut Regs, offset: u32, value: u32, effect: Effect) -> Result<()> {
    ensure!(
        regs.write(offset, 4, value) == effect,
        "a write of the register at {offset}"
    );
    Ok(())
}
