ghost use Rattle.std.specs.Prelude.{◌≡◌};
ghost use Rattle.volume_parts.specs.declared.format_fault.FormatFault.TheVariants.{Device};

use ps_port::HostFailed;

/// Why no volume was made.
#[derive(Clone, Copy, Debug, PartialEq, Eq)]
pub enum FormatFault {
    /// A call of the device failed, and its count of faults rose. Where that call came before the gate was shut, the file is as it was but for byte 0,
    /// which may be any; after that its gate is shut; and where the last write or sync failed, the new volume may stand there, whole.
    Device,
    /// The file has 16,384 bytes or more, and byte 0, the gate, is 1. It was left as it is.
    AlreadyVolume { gate: u8 },
}

impl From<HostFailed> for FormatFault {
    ghost from_gives = { λ _ fault. fault ≡ Device };

    fn from(_: HostFailed) -> FormatFault {
        FormatFault::Device
    }
}
