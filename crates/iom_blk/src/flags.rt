//! The bits of Status and InterruptStatus, each by its number (VIRTIO 1.2, "Device Status Field", "MMIO Device Register Layout").

/// Status: DRIVER_OK, the driver is ready.
pub const DRIVER_OK: u32 = 2;

/// Status: FEATURES_OK, the device agrees to the features.
pub const FEATURES_OK: u32 = 3;

/// Status: DEVICE_NEEDS_RESET, the device broke.
pub const NEEDS_RESET: u32 = 6;

/// InterruptStatus: Used Buffer Notification, a request was given back.
pub const USED_BUFFER: u32 = 0;

/// InterruptStatus: Configuration Change Notification, the device broke.
pub const CHANGED: u32 = 1;
