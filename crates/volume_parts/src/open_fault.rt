ghost use Rattle.std.specs.Prelude.{◌≡◌};
ghost use Rattle.volume_parts.specs.declared.open_fault.OpenFault.TheVariants.{Device};

use ps_port::HostFailed;

/// Why no volume is attached.
#[derive(Clone, Copy, Debug, PartialEq, Eq)]
pub enum OpenFault {
    /// A call of the device failed, and its count of faults rose.
    Device,
    /// The file has fewer than 16,384 bytes, or its byte 0, the gate, isn't 1. The gate of an empty file is 0.
    NotAVolume { size: u64, gate: u8 },
    /// The number at this place is the first that fails its test: it was to be, or to be within, what was wanted.
    Damaged { at: u64, found: u64, wanted: u64 },
    /// There was no memory.
    Memory,
}

impl From<HostFailed> for OpenFault {
    ghost from_gives = { λ _ fault. fault ≡ Device };

    fn from(_: HostFailed) -> OpenFault {
        OpenFault::Device
    }
}
