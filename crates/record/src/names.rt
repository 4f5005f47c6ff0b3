// The names in requests and keys: a direction, which also selects a recovery timer; a feature.

// Read: from the device to the host. Write: from the host to the device.
#[derive(Clone, Copy, PartialEq, Eq)]
pub enum Direction {
    Read,
    Write,
}

// "1 (write cache) ..; 2 (reordering) ..; 3 (log interval)"
#[derive(Clone, Copy, PartialEq, Eq)]
pub enum FeatureName {
    WriteCache,
    Reordering,
    LogInterval,
}
