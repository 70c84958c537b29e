use crate::answer::{Answer, Text};
use crate::volume::volume_host;
use memory_host::MemoryHost;
use std::alloc::{AllocError, Global};

/// A command: its words, the last one apart, and the texts of its shelf.
#[derive(Clone, Copy)]
pub struct Command<'a> {
    pub words: &'a [&'a str],
    pub last: &'a str,
    pub texts: &'a [Text<'a>],
}

impl Command<'_> {
    /// What it returns over this host.
    pub fn over(&self, alloc: Global, host: MemoryHost) -> Result<Answer, AllocError> {
        let words = self.all_words(alloc)?;
        Answer::of(alloc, &words, self.texts, host)
    }

    /// What it returns over a host with a new volume of 32 pages, whose calls fail as listed.
    pub fn answer(&self, alloc: Global, failing: &[u64]) -> Result<Answer, AllocError> {
        self.over(alloc, volume_host(alloc, failing)?)
    }

    /// Whether over such a host, this is output and this is the status; not so where there was no memory for the host and the shelf.
    pub fn is_answered(&self, alloc: Global, failing: &[u64], told: &[u8], status: u8) -> bool {
        match self.answer(alloc, failing) {
            Ok(answer) => answer.is(told, status),
            Err(_) => false,
        }
    }

    fn all_words(&self, alloc: Global) -> Result<Vec<String>, AllocError> {
        let mut all = Vec::new(alloc);
        for word in self.words {
            all.push(String::from_str(alloc, word)?)?;
        }
        all.push(String::from_str(alloc, self.last)?)?;
        Ok(all)
    }
}
