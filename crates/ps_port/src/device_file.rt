//! What a host asks of an open file beyond its reads and writes.

use std::fs::File;
use std::os::fd::AsRawFd;

/// An open file that a host can have as its device.
pub trait DeviceFile {
    /// Takes the lock on the whole file without waiting. False where it can't, as where another process holds it.
    fn lock(&self) -> bool;

    /// Whether its descriptor is that of the standard input, output or error, which was closed when it was opened.
    fn is_standard(&self) -> bool;
}

impl DeviceFile for File {
    fn lock(&self) -> bool {
        self.try_lock().is_ok()
    }

    fn is_standard(&self) -> bool {
        self.as_raw_fd() <= 2
    }
}
