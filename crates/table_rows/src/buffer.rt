use std::alloc::Global;

/// A text that is put together piece by piece, and whether it failed: there was no memory for all of it, or what was to be told is no text.
#[derive(Drop)]
pub struct Buffer {
    alloc: Global,
    text: String,
    failed: bool,
}

impl Buffer {
    /// No text yet.
    pub fn new(alloc: Global) -> Buffer {
        Buffer {
            alloc,
            text: String::new(alloc),
            failed: false,
        }
    }

    /// Where its memory is from.
    pub fn alloc(&self) -> Global {
        self.alloc
    }

    /// Puts a text after the rest.
    pub fn put(&mut self, text: &str) {
        if self.text.push_str(text).is_err() {
            self.failed = true;
        }
    }

    /// Puts the text of these bytes after the rest.
    pub fn bytes(&mut self, bytes: &[u8]) {
        match str::from_utf8(bytes) {
            Ok(text) => self.put(text),
            Err(_) => self.failed = true,
        }
    }

    /// Puts bytes so many times after the rest.
    pub fn repeat(&mut self, bytes: &[u8], count: usize) {
        for _ in 0..count {
            self.bytes(bytes);
        }
    }

    /// Puts a number in decimal after the rest.
    pub fn number(&mut self, value: u64) {
        if write!(self.text, "{value}").is_err() {
            self.failed = true;
        }
    }

    /// Puts an int in decimal after the rest.
    pub fn int(&mut self, value: i32) {
        if write!(self.text, "{value}").is_err() {
            self.failed = true;
        }
    }

    /// Puts a number in hex after the rest.
    pub fn hex(&mut self, value: u64) {
        if write!(self.text, "{value:x}").is_err() {
            self.failed = true;
        }
    }

    /// Takes down that there is nothing to tell.
    pub fn fail(&mut self) {
        self.failed = true;
    }

    /// The text, where it didn't fail.
    pub fn told(&self) -> Option<&[u8]> {
        if self.failed {
            None
        } else {
            Some(self.text.as_bytes())
        }
    }
}
