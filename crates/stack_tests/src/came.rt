use machine_run::RunEnd;
use machine_run::obj_layout::vault::VaultFault;
use machine_run::swizzle::fault::SwizzleFault;
use unit_rows::table_rows::Buffer;

/// What a run returned: its word, and the numbers after it.
#[derive(Clone, Copy)]
pub struct Came {
    word: &'static str,
    numbers: [Option<u64>; 3],
}

impl Came {
    // A word alone.
    const fn plain(word: &'static str) -> Came {
        Came {
            word,
            numbers: [None; 3],
        }
    }

    /// What a run came to that ended, or broke off.
    pub fn of_run(ended: Result<RunEnd, SwizzleFault>) -> Came {
        match ended {
            Ok(RunEnd::Done) => Came::plain("Done"),
            Ok(RunEnd::Trapped { trap, .. }) => Came {
                word: "Trapped",
                numbers: [Some(u64::from(trap as u32)), None, None],
            },
            Ok(RunEnd::OutOfTurns) => Came::plain("OutOfTurns"),
            Err(fault) => Came::of_fault(fault),
        }
    }

    /// What a run broke off for, or why a unit wasn't loaded.
    pub fn of_fault(fault: SwizzleFault) -> Came {
        match fault {
            SwizzleFault::AreaFull { top, wanted, size } => Came {
                word: "Full",
                numbers: [
                    Some(u64::from(top)),
                    Some(u64::from(wanted)),
                    Some(u64::from(size)),
                ],
            },
            SwizzleFault::Vault(fault) => Came::of_vault(fault),
        }
    }

    // The same of a fault of the vault. Of an object that has a PID it has the damage's numbers.
    fn of_vault(fault: VaultFault) -> Came {
        match fault {
            VaultFault::Output => Came::plain("Output"),
            VaultFault::Device => Came::plain("Device"),
            VaultFault::Full { .. } => Came::plain("VaultFull"),
            VaultFault::NoPages { .. } => Came::plain("NoPages"),
            VaultFault::Damaged { at: 0, .. } => Came::plain("Damaged"),
            VaultFault::Damaged { at, found, wanted } => Came {
                word: "Damaged",
                numbers: [Some(at), Some(found), Some(wanted)],
            },
        }
    }

    /// Its letter, where a call of a store was to fail: `d` for the device, and `?` for all else.
    pub fn letter(self) -> &'static str {
        match self.word {
            "Device" => "d",
            _ => "?",
        }
    }

    /// Writes it in words.
    pub fn put(self, out: &mut Buffer) {
        out.put(self.word);
        for number in self.numbers {
            if let Some(number) = number {
                out.put(" ");
                out.number(number);
            }
        }
    }
}
