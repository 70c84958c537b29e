ghost use Rattle.std.specs.Prelude.{◌≡◌, ℕ, OnOk};
ghost use Rattle.ps_placer.specs.inside.Tables.{value_at, Sets};

use std::alloc::{AllocError, Global};

/// A value for each number: the usual one where no other was set.
#[derive(Drop)]
pub struct Table<T> {
    items: Vec<T>,
    usual: T,
}

impl<T: Copy + Drop> Table<T> {
    /// The usual value for each number.
    pub fn new(alloc: Global, usual: T) -> Table<T>
        ensures { (k : ℕ) → value_at result k ≡ usual }
    {
        Table {
            items: Vec::new(alloc),
            usual,
        }
    }

    /// The value for a number.
    pub fn get(&self, number: u32) -> T
        ensures { result ≡ value_at self.now number }
    {
        match self.items.get(number as usize) {
            Some(value) => *value,
            None => self.usual,
        }
    }

    /// Sets the value for a number.
    pub fn set(&mut self, number: u32, value: T) -> Result<(), AllocError>
        ensures { OnOk result (Sets number value self.old self.new) }
    {
        let place = number as usize;
        if place >= self.items.len() {
            self.items.resize(place + 1, self.usual)?;
        }
        self.items[place] = value;
        Ok(())
    }
}
