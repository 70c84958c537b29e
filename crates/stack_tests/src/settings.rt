use crate::setting::Setting;
use ps_base::code_unit::Frame;
use unit_rows::row_words::{number_of, parted};

/// How a unit is run.
#[derive(Clone, Copy)]
pub struct Settings {
    /// The turns that it has.
    pub turns: u64,
    /// The words of the area.
    pub words: u32,
    /// The number locals of the program.
    pub nums: u16,
    /// Its reference locals.
    pub refs: u16,
    /// The call of the host that fails, from 0 on.
    pub failing: Option<u64>,
    /// How many bytes of its code the program has, where it has as many.
    pub cut: usize,
    /// The object of the store that is the scope of the program, from 1 on. With none it runs without a store.
    pub scope: Option<u64>,
}

/// Those that hold where nothing else is given.
pub const PLAIN: Settings = Settings {
    turns: 0,
    words: 8_192,
    nums: 0,
    refs: 0,
    failing: None,
    cut: usize::MAX,
    scope: None,
};

impl Settings {
    /// These, but for those that the words after the first one of a head set.
    pub fn changed_by(self, head: &[u8]) -> Option<Settings> {
        let mut settings = self;
        let (_, words) = parted(head, b' ');
        for word in words.split(|byte| *byte == b' ') {
            if !word.is_empty() {
                settings.set(word)?;
            }
        }
        Some(settings)
    }

    /// The frame of the program.
    pub fn frame(self) -> Frame {
        Frame {
            nums: self.nums,
            refs: self.refs,
            num_params: 0,
            ref_params: 0,
        }
    }

    // Sets what a word `NAME=NUMBER` says.
    fn set(&mut self, word: &[u8]) -> Option<()> {
        let (name, digits) = parted(word, b'=');
        let number = number_of(digits)?;
        match Setting::named(name)? {
            Setting::Turns => self.turns = number,
            Setting::Words => self.words = u32::try_from(number).ok()?,
            Setting::Nums => self.nums = u16::try_from(number).ok()?,
            Setting::Refs => self.refs = u16::try_from(number).ok()?,
            Setting::Failing => self.failing = Some(number),
            Setting::Cut => self.cut = usize::try_from(number).ok()?,
            Setting::Scope => self.scope = Some(number),
        }
        Some(())
    }
}
