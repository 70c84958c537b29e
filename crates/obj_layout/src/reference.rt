ghost use Rattle.std.specs.Prelude.{◌≡◌};
ghost use Rattle.obj_layout.specs.Reference.{IsReference, reference_in, reference_word};

/// What a reference of an object denotes.
#[derive(Clone, Copy, PartialEq, Eq, Debug)]
pub enum Reference {
    /// No object.
    Nil,
    /// The stored object with this PID, at least 1 and below 2^63.
    Pid(u64),
    /// The object at this word index of the area, at least 1.
    Local(u32),
}

const TOP_BIT: u64 = 1 << 63;

/// The reference that a word spells. None where its top bit is clear and it passes 2^32 - 1.
pub fn reference_of(word: u64) -> Option<Reference>
    ensures { result ≡ reference_in word }
{
    if word >= TOP_BIT {
        return Some(Reference::Pid(word - TOP_BIT));
    }
    match u32::try_from(word) {
        Ok(0) => Some(Reference::Nil),
        Ok(at) => Some(Reference::Local(at)),
        Err(_) => None,
    }
}

/// The word that spells a reference.
pub fn word_of(reference: Reference) -> u64
    requires { IsReference reference }
    ensures { result ≡ reference_word reference }
{
    match reference {
        Reference::Nil => 0,
        Reference::Pid(pid) => TOP_BIT + pid,
        Reference::Local(at) => at as u64,
    }
}
