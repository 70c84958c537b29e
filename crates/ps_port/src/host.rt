ghost use Rattle.std.specs.Prelude.{◌≡◌, ℕ, ◌+◌, ◌≤◌, List, length, take, drop, OnOk, OnErr, IfOk};
ghost use Rattle.ps_outside.specs.Outside.{Outside, After, Leaves, LeavesSame, SameContents, IsDeviceCall, TellsPrefix, ToldAll, IsPutCall};
ghost use Rattle.ps_port.specs.Disk.{Written, written, Torn};

/// A call of a host failed. Why is counted by the host: a failed `put` raises its `output_faults`, and a call of the device that failed its
/// `device_faults`.
#[derive(Clone, Copy, Debug, PartialEq, Eq)]
pub struct HostFailed;

/// The device and the output as one object, with one clock that each call moves on. What it tells of its content it tells moment by
/// moment, so that a caller can say what had been output, and what a crash may leave, wherever a run was stopped. The counts stand still at
/// 2^64 - 1. `docs/formats.md` says what is assumed of a real disk.
pub trait Host {
    /// What is seen of it: of the device bytes.
    ghost outside: { Self → Outside (List ℕ) };

    /// The length of the contents, in bytes.
    fn size(&mut self) -> Result<u64, HostFailed>
        ensures size { IfOk result (λ size. (bytes : List ℕ) → (outside self.old).contents bytes → size ≡ length bytes) }
        ensures contents { SameContents (outside self.old) (outside self.new) }
        ensures images { LeavesSame (outside self.old) (outside self.new) }
        ensures call { IsDeviceCall (outside self.old) (outside self.new) result };

    /// Fills `into` with the contents from this byte on. The range lies in them.
    fn read_at(&mut self, at: u64, into: &mut [u8]) -> Result<(), HostFailed>
        requires { (bytes : List ℕ) → (outside self.old).contents bytes → at + length into.old ≤ length bytes }
        ensures read { OnOk result ((bytes : List ℕ) → (outside self.old).contents bytes → into.new ≡ take (length into.old) (drop at bytes)) }
        ensures length { length into.new ≡ length into.old }
        ensures contents { SameContents (outside self.old) (outside self.new) }
        ensures images { LeavesSame (outside self.old) (outside self.new) }
        ensures call { IsDeviceCall (outside self.old) (outside self.new) result };

    /// Writes bytes from this byte on, which is no farther than the end; where they pass the end, they extend it. Until a sync that succeeds
    /// a crash may leave any bytes there, also after a refusal.
    fn write_at(&mut self, at: u64, from: &[u8]) -> Result<(), HostFailed>
        requires { (bytes : List ℕ) → (outside self.old).contents bytes → at ≤ length bytes }
        ensures contents { OnOk result ((bytes : List ℕ) → (outside self.new).contents bytes → After (outside self.old).contents (Written at from.now) bytes) }
        ensures written { OnOk result ((bytes : List ℕ) → (outside self.old).contents bytes → (outside self.new).contents (written at from.now bytes)) }
        ensures images { Leaves (outside self.old) (outside self.new) (After ((outside self.old).images (outside self.old).clock) (Torn at (length from.now))) }
        ensures call { IsDeviceCall (outside self.old) (outside self.new) result };

    /// After it a crash leaves what a read gives.
    fn sync(&mut self) -> Result<(), HostFailed>
        ensures durable { OnOk result ((bytes : List ℕ) → (outside self.new).images (outside self.new).clock bytes → (outside self.new).contents bytes) }
        ensures contents { SameContents (outside self.old) (outside self.new) }
        ensures images { LeavesSame (outside self.old) (outside self.new) }
        ensures call { IsDeviceCall (outside self.old) (outside self.new) result };

    /// Writes the bytes, all of them where it answers Ok, and then no fault is counted. After a refusal a prefix of them was output.
    fn put(&mut self, from: &[u8]) -> Result<(), HostFailed>
        ensures cut { TellsPrefix (outside self.old) (outside self.new) from.now }
        ensures all { OnOk result (ToldAll (outside self.old) (outside self.new) from.now) }
        ensures calm { OnOk result ((outside self.new).output_faults ≡ (outside self.old).output_faults) }
        ensures call { IsPutCall (outside self.old) (outside self.new) result };

    /// A law: the contents are one of the images that a crash may leave at the present moment.
    ghost is_image: { (host : Self) (bytes : List ℕ) → (outside host).contents bytes → (outside host).images (outside host).clock bytes };

    /// A law: a read gives one content alone.
    ghost one: { (host : Self) (a b : List ℕ) → (outside host).contents a → (outside host).contents b → a ≡ b };
}
