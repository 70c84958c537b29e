use memory_host::MemoryHost;
use ps_command::ps_args::read_words;
use ps_command::psalgol;
use ps_port::MemoryShelf;
use std::alloc::{AllocError, Global};

/// The name of a text of the shelf, and the text.
pub type Text<'a> = (&'a str, &'a [u8]);

/// What a command returned: its status, and the host after it.
pub struct Answer {
    status: u8,
    host: MemoryHost,
}

impl Drop for Answer {
    fn drop(self) {
        let Answer { status: _, host: _ } = self;
    }
}

impl Answer {
    /// What these words return over this host, and a shelf with these texts.
    pub fn of(
        alloc: Global,
        words: &[String],
        texts: &[Text<'_>],
        host: MemoryHost,
    ) -> Result<Answer, AllocError> {
        let mut shelf = shelf_of(alloc, texts)?;
        let (status, host) = psalgol(alloc, read_words(alloc, words), host, &mut shelf);
        Ok(Answer { status, host })
    }

    /// The status.
    pub fn status(&self) -> u8 {
        self.status
    }

    /// All the bytes output.
    pub fn told(&self) -> &[u8] {
        self.host.told_bytes()
    }

    /// Whether this was output, and this is the status.
    pub fn is(&self, told: &[u8], status: u8) -> bool {
        self.status == status && self.told() == told
    }

    /// The host after the command.
    pub fn host(&self) -> &MemoryHost {
        &self.host
    }

    /// The same, for the next command.
    pub fn into_host(self) -> MemoryHost {
        let Answer { status: _, host } = self;
        host
    }
}

fn shelf_of(alloc: Global, texts: &[Text<'_>]) -> Result<MemoryShelf, AllocError> {
    let mut shelf = MemoryShelf::new(alloc);
    for (name, text) in texts {
        shelf.add(name, text)?;
    }
    Ok(shelf)
}
