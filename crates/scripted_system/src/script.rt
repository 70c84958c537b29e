ghost use Rattle.std.specs.Prelude.{◌≤◌, IfOk};

use std::alloc::Allocator;
use std::cell::Cell;
use std::fmt::Display;
use std::fs::{File, Metadata, OpenOptions};
use std::io::{self, ErrorKind, Read};
use std::rt::Files;

/// What a call of a made-up system does.
#[derive(Clone, Copy)]
pub enum Step {
    Moves(usize),
    Interrupted,
    Fails,
}

/// A system whose calls do one step each, and fail after the last. It counts the calls, and the bytes
/// that were moved.
#[derive(Clone, Copy)]
pub struct Script<'a> {
    pub steps: &'a [Step],
    pub calls: &'a Cell<usize>,
    pub moved: &'a Cell<usize>,
}

fn unsupported<T>() -> io::Result<T> {
    Err(io::Error::from(ErrorKind::Unsupported))
}

impl Script<'_> {
    fn call(&self, most: usize) -> io::Result<usize>
        ensures { IfOk result (λ count. count ≤ most) }
    {
        let call = self.calls.get();
        self.calls.set(call.saturating_add(1));
        match self.steps.get(call) {
            Some(Step::Moves(count)) => {
                let count = *count.min(&most);
                self.moved.set(self.moved.get().saturating_add(count));
                Ok(count)
            }
            Some(Step::Interrupted) => Err(io::Error::from(ErrorKind::Interrupted)),
            _ => Err(io::Error::from(ErrorKind::Other)),
        }
    }
}

impl Print for Script<'_> {
    fn print<D: Display + Drop>(&self, _value: D) -> io::Result<()> {
        unsupported()
    }

    fn println<D: Display + Drop>(&self, _value: D) -> io::Result<()> {
        unsupported()
    }

    fn write_all(&self, _bytes: &[u8]) -> io::Result<()> {
        unsupported()
    }

    fn write_some(&self, bytes: &[u8]) -> io::Result<usize> {
        self.call(bytes.len())
    }
}

// It has no files.
impl Files for Script<'_> {
    type File = File;

    type Dir = File;

    fn open_file(&self, _how: &OpenOptions, _path: &str) -> io::Result<File> {
        unsupported()
    }

    fn open_dir(&self, _path: &str) -> io::Result<File> {
        unsupported()
    }

    fn metadata(&self, _path: &str) -> io::Result<Metadata> {
        unsupported()
    }

    fn symlink_metadata(&self, _path: &str) -> io::Result<Metadata> {
        unsupported()
    }

    fn copy(&self, _from: &str, _to: &str) -> io::Result<u64> {
        unsupported()
    }

    fn rename(&self, _from: &str, _to: &str) -> io::Result<()> {
        unsupported()
    }

    fn remove_file(&self, _path: &str) -> io::Result<()> {
        unsupported()
    }

    fn create_dir(&self, _path: &str) -> io::Result<()> {
        unsupported()
    }

    fn remove_dir(&self, _path: &str) -> io::Result<()> {
        unsupported()
    }

    fn remove_dir_all<B: Allocator>(&self, _alloc: B, _path: &str) -> io::Result<()> {
        unsupported()
    }
}

impl Read for Script<'_> {
    fn read(&mut self, buf: &mut [u8]) -> io::Result<usize> {
        self.call(buf.len())
    }
}
