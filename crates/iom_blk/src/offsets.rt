//! The offsets of the registers, in bytes from the first one (VIRTIO 1.2, "MMIO Device Register Layout").

ghost use Rattle.std.specs.Prelude.{◌≡◌};
ghost use Rattle.iom_blk.specs.Layout.{offset_of, MagicValue, Version, DeviceID, VendorID, DeviceFeatures, DeviceFeaturesSel, DriverFeatures, DriverFeaturesSel, QueueSel, QueueNumMax, QueueNum, QueueReady, QueueNotify, InterruptStatus, InterruptACK, Status, QueueDescLow, QueueDescHigh, QueueDriverLow, QueueDriverHigh, QueueDeviceLow, QueueDeviceHigh, SHMLenLow, SHMLenHigh, SHMBaseLow, SHMBaseHigh, ConfigGeneration, Configuration};

/// MagicValue.
pub const MAGIC_VALUE: u64 = 0x000;

/// Version.
pub const VERSION: u64 = 0x004;

/// DeviceID.
pub const DEVICE_ID: u64 = 0x008;

/// VendorID.
pub const VENDOR_ID: u64 = 0x00c;

/// DeviceFeatures.
pub const DEVICE_FEATURES: u64 = 0x010;

/// DeviceFeaturesSel.
pub const DEVICE_FEATURES_SEL: u64 = 0x014;

/// DriverFeatures.
pub const DRIVER_FEATURES: u64 = 0x020;

/// DriverFeaturesSel.
pub const DRIVER_FEATURES_SEL: u64 = 0x024;

/// QueueSel.
pub const QUEUE_SEL: u64 = 0x030;

/// QueueNumMax.
pub const QUEUE_NUM_MAX: u64 = 0x034;

/// QueueNum.
pub const QUEUE_NUM: u64 = 0x038;

/// QueueReady.
pub const QUEUE_READY: u64 = 0x044;

/// QueueNotify.
pub const QUEUE_NOTIFY: u64 = 0x050;

/// InterruptStatus.
pub const INTERRUPT_STATUS: u64 = 0x060;

/// InterruptACK.
pub const INTERRUPT_ACK: u64 = 0x064;

/// Status.
pub const STATUS: u64 = 0x070;

/// QueueDescLow.
pub const QUEUE_DESC_LOW: u64 = 0x080;

/// QueueDescHigh.
pub const QUEUE_DESC_HIGH: u64 = 0x084;

/// QueueDriverLow.
pub const QUEUE_DRIVER_LOW: u64 = 0x090;

/// QueueDriverHigh.
pub const QUEUE_DRIVER_HIGH: u64 = 0x094;

/// QueueDeviceLow.
pub const QUEUE_DEVICE_LOW: u64 = 0x0a0;

/// QueueDeviceHigh.
pub const QUEUE_DEVICE_HIGH: u64 = 0x0a4;

/// SHMLenLow.
pub const SHM_LEN_LOW: u64 = 0x0b0;

/// SHMLenHigh.
pub const SHM_LEN_HIGH: u64 = 0x0b4;

/// SHMBaseLow.
pub const SHM_BASE_LOW: u64 = 0x0b8;

/// SHMBaseHigh.
pub const SHM_BASE_HIGH: u64 = 0x0bc;

/// ConfigGeneration.
pub const CONFIG_GENERATION: u64 = 0x0fc;

/// The beginning of the configuration.
pub const CONFIG: u64 = 0x100;

/// A law: each offset is that of its register in the standard's table.
pub fn register_layout()
    ensures magic_value { MAGIC_VALUE ≡ offset_of MagicValue }
    ensures version { VERSION ≡ offset_of Version }
    ensures device_id { DEVICE_ID ≡ offset_of DeviceID }
    ensures vendor_id { VENDOR_ID ≡ offset_of VendorID }
    ensures device_features { DEVICE_FEATURES ≡ offset_of DeviceFeatures }
    ensures device_features_sel { DEVICE_FEATURES_SEL ≡ offset_of DeviceFeaturesSel }
    ensures driver_features { DRIVER_FEATURES ≡ offset_of DriverFeatures }
    ensures driver_features_sel { DRIVER_FEATURES_SEL ≡ offset_of DriverFeaturesSel }
    ensures queue_sel { QUEUE_SEL ≡ offset_of QueueSel }
    ensures queue_num_max { QUEUE_NUM_MAX ≡ offset_of QueueNumMax }
    ensures queue_num { QUEUE_NUM ≡ offset_of QueueNum }
    ensures queue_ready { QUEUE_READY ≡ offset_of QueueReady }
    ensures queue_notify { QUEUE_NOTIFY ≡ offset_of QueueNotify }
    ensures interrupt_status { INTERRUPT_STATUS ≡ offset_of InterruptStatus }
    ensures interrupt_ack { INTERRUPT_ACK ≡ offset_of InterruptACK }
    ensures status { STATUS ≡ offset_of Status }
    ensures queue_desc_low { QUEUE_DESC_LOW ≡ offset_of QueueDescLow }
    ensures queue_desc_high { QUEUE_DESC_HIGH ≡ offset_of QueueDescHigh }
    ensures queue_driver_low { QUEUE_DRIVER_LOW ≡ offset_of QueueDriverLow }
    ensures queue_driver_high { QUEUE_DRIVER_HIGH ≡ offset_of QueueDriverHigh }
    ensures queue_device_low { QUEUE_DEVICE_LOW ≡ offset_of QueueDeviceLow }
    ensures queue_device_high { QUEUE_DEVICE_HIGH ≡ offset_of QueueDeviceHigh }
    ensures shm_len_low { SHM_LEN_LOW ≡ offset_of SHMLenLow }
    ensures shm_len_high { SHM_LEN_HIGH ≡ offset_of SHMLenHigh }
    ensures shm_base_low { SHM_BASE_LOW ≡ offset_of SHMBaseLow }
    ensures shm_base_high { SHM_BASE_HIGH ≡ offset_of SHMBaseHigh }
    ensures config_generation { CONFIG_GENERATION ≡ offset_of ConfigGeneration }
    ensures config { CONFIG ≡ offset_of Configuration }
{}
