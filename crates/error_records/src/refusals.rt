//! Which call is refused, and why: the texts of its error record.
ghost use Rattle.std.specs.Prelude.{◌≡◌};
ghost use Rattle.joint_held.specs.joint_ops.ps_heap.Databases.{fault_text, explain_text};
ghost use Rattle.error_records.specs.Refusals.{context_of, fault_by};

use db_dir::fault::DirFault;

/// A call on databases.
#[derive(Clone, Copy, PartialEq, Eq, Debug)]
pub enum Call {
    Create,
    Open,
    Commit,
}

/// Why a call is refused.
#[derive(Clone, Copy, PartialEq, Eq, Debug)]
pub enum Refusal {
    /// By the directory.
    Directory(DirFault),
    /// An assigned object's home is not open for writing.
    NotWritable,
    /// Another session is writing.
    BusyWriter,
    /// The volume changed since this session began.
    StaleStart,
}

impl Call {
    /// Its name, which is the context of its error records.
    pub fn context(self) -> &'static [u8]
        ensures { result.now ≡ context_of self }
    {
        match self {
            Call::Create => b"create.database",
            Call::Open => b"open.database",
            Call::Commit => b"commit",
        }
    }
}

// The names of the faults of a directory.
fn name_of(fault: DirFault) -> &'static [u8]
    ensures { result.now ≡ fault_text (fault_by (Refusal.Directory fault)) }
{
    match fault {
        DirFault::BadName => b"bad name",
        DirFault::BadPassword => b"bad password",
        DirFault::Exists => b"exists",
        DirFault::TooMany => b"too many",
        DirFault::NoSuchDatabase => b"no such database",
        DirFault::Password => b"password",
        DirFault::BadMode => b"bad mode",
    }
}

// What is said of them.
fn said_of(fault: DirFault) -> &'static [u8]
    ensures { result.now ≡ explain_text (fault_by (Refusal.Directory fault)) }
{
    match fault {
        DirFault::BadName => b"a name has 1 to 64 bytes",
        DirFault::BadPassword => b"a password has at most 64 bytes",
        DirFault::Exists => b"a database has this name",
        DirFault::TooMany => b"a volume holds 256 databases",
        DirFault::NoSuchDatabase => b"no database has this name",
        DirFault::Password => b"the password differs",
        DirFault::BadMode => b"the mode is read or write",
    }
}

impl Refusal {
    /// The name of the fault.
    pub fn fault(self) -> &'static [u8]
        ensures { result.now ≡ fault_text (fault_by self) }
    {
        match self {
            Refusal::Directory(fault) => name_of(fault),
            Refusal::NotWritable => b"not writable",
            Refusal::BusyWriter => b"busy",
            Refusal::StaleStart => b"stale",
        }
    }

    /// What is said of the fault.
    pub fn explain(self) -> &'static [u8]
        ensures { result.now ≡ explain_text (fault_by self) }
    {
        match self {
            Refusal::Directory(fault) => said_of(fault),
            Refusal::NotWritable => b"an assigned object's home is not open for writing",
            Refusal::BusyWriter => b"another session is writing",
            Refusal::StaleStart => b"the volume changed since this session began",
        }
    }
}
