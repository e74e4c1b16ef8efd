//! The names of registers.

ghost use Rattle.std.specs.Prelude.{◌≡◌, map};
ghost use Rattle.iom_tool.specs.Names.{named_in, register, registers, block_registers};

use iom_blk::offsets;
use iom_regs::{
    CAPABILITIES, CQB, CQCSR, CQH, CQT, DDTP, FCTL, FQB, FQCSR, FQH, FQT, ICVEC, IPSR, MSI_CFG_TBL,
};

/// A name, and the offset and the size of its register, in bytes.
type Named = (&'static [u8], u64, u64);

// The registers of the IOMMU.
#[rattlefmt::skip]
const REGISTERS: [Named; 25] = [
    (b"capabilities", CAPABILITIES, 8),
    (b"fctl", FCTL, 4),
    (b"ddtp", DDTP, 8),
    (b"cqb", CQB, 8),
    (b"cqh", CQH, 4),
    (b"cqt", CQT, 4),
    (b"fqb", FQB, 8),
    (b"fqh", FQH, 4),
    (b"fqt", FQT, 4),
    (b"cqcsr", CQCSR, 4),
    (b"fqcsr", FQCSR, 4),
    (b"ipsr", IPSR, 4),
    (b"icvec", ICVEC, 8),
    (b"msi_addr_0", MSI_CFG_TBL, 8),
    (b"msi_data_0", MSI_CFG_TBL + 8, 4),
    (b"msi_vec_ctl_0", MSI_CFG_TBL + 12, 4),
    (b"msi_addr_1", MSI_CFG_TBL + 16, 8),
    (b"msi_data_1", MSI_CFG_TBL + 24, 4),
    (b"msi_vec_ctl_1", MSI_CFG_TBL + 28, 4),
    (b"msi_addr_2", MSI_CFG_TBL + 32, 8),
    (b"msi_data_2", MSI_CFG_TBL + 40, 4),
    (b"msi_vec_ctl_2", MSI_CFG_TBL + 44, 4),
    (b"msi_addr_3", MSI_CFG_TBL + 48, 8),
    (b"msi_data_3", MSI_CFG_TBL + 56, 4),
    (b"msi_vec_ctl_3", MSI_CFG_TBL + 60, 4),
];

// The registers of a block device; from QueueNumMax on those of its queue.
#[rattlefmt::skip]
const BLOCK_REGISTERS: [Named; 23] = [
    (b"MagicValue", offsets::MAGIC_VALUE, 4),
    (b"Version", offsets::VERSION, 4),
    (b"DeviceID", offsets::DEVICE_ID, 4),
    (b"VendorID", offsets::VENDOR_ID, 4),
    (b"DeviceFeatures", offsets::DEVICE_FEATURES, 4),
    (b"DeviceFeaturesSel", offsets::DEVICE_FEATURES_SEL, 4),
    (b"DriverFeatures", offsets::DRIVER_FEATURES, 4),
    (b"DriverFeaturesSel", offsets::DRIVER_FEATURES_SEL, 4),
    (b"InterruptStatus", offsets::INTERRUPT_STATUS, 4),
    (b"InterruptACK", offsets::INTERRUPT_ACK, 4),
    (b"Status", offsets::STATUS, 4),
    (b"ConfigGeneration", offsets::CONFIG_GENERATION, 4),
    (b"QueueSel", offsets::QUEUE_SEL, 4),
    (b"QueueNumMax", offsets::QUEUE_NUM_MAX, 4),
    (b"QueueNum", offsets::QUEUE_NUM, 4),
    (b"QueueReady", offsets::QUEUE_READY, 4),
    (b"QueueNotify", offsets::QUEUE_NOTIFY, 4),
    (b"QueueDescLow", offsets::QUEUE_DESC_LOW, 4),
    (b"QueueDescHigh", offsets::QUEUE_DESC_HIGH, 4),
    (b"QueueDriverLow", offsets::QUEUE_DRIVER_LOW, 4),
    (b"QueueDriverHigh", offsets::QUEUE_DRIVER_HIGH, 4),
    (b"QueueDeviceLow", offsets::QUEUE_DEVICE_LOW, 4),
    (b"QueueDeviceHigh", offsets::QUEUE_DEVICE_HIGH, 4),
];

// The offset and the size of the register with a name.
fn named_in(table: &[Named], name: &[u8]) -> Option<(u64, u64)>
    ensures { result ≡ named_in (map (λ row. register row.0.now row.1 row.2) table.now) name.now }
{
    match table {
        [] => None,
        [(first, off, size), more @ ..] => {
            if name == *first {
                Some((*off, *size))
            } else {
                named_in(more, name)
            }
        }
    }
}

/// The offset and the size, in bytes, of the register of the IOMMU with this name (RISC-V IOMMU Architecture 1.0, "Memory-mapped register
/// interface"); None if this model has none.
#[tactic(auto, unfolding(crate::specs::Names::registers))]
pub fn register_named(name: &[u8]) -> Option<(u64, u64)>
    ensures { result ≡ named_in registers name.now }
{
    named_in(&REGISTERS, name)
}

/// The offset and the size, in bytes, of the register of a block device with this name (VIRTIO 1.2, "MMIO Device Register Layout"); None if
/// there is none.
#[tactic(auto, unfolding(crate::specs::Names::block_registers))]
pub fn block_register_named(name: &[u8]) -> Option<(u64, u64)>
    ensures { result ≡ named_in block_registers name.now }
{
    named_in(&BLOCK_REGISTERS, name)
}
