//! Where the host fails, a prefix of what was written is output, and nothing is pending.
use crate::steps::{Step, many_bytes, run, vault, written};
use std::test::Fail;
use vault_output::Output;
use vault_output::obj_layout::vault::{Vault, VaultFault};

/// Steps, the number of the host's call that fails, and how many bytes are output then: half of a piece after the others.
const ROWS: [(&[Step], u64, usize); 5] = [
    (&[Step::Write(5), Step::Flush], 0, 2),
    (&[Step::Write(65_537)], 0, 32_768),
    (&[Step::Write(200_000)], 1, 98_304),
    (&[Step::Write(65_537), Step::Flush], 1, 65_536),
    (
        &[Step::Write(65_536), Step::Blanks(65_535), Step::Flush],
        1,
        98_303,
    ),
];

#[test]
fn a_front_is_told(rt: HostRuntime) -> Result<(), Fail> {
    let bytes = many_bytes(rt.alloc())?;
    for (steps, failing, told) in &ROWS {
        let mut vault = vault(rt.alloc(), &[*failing])?;
        let mut output = Output::new(rt.alloc())?;
        assert_eq!(rt;
            run(&mut output, &mut vault, &bytes, steps),
            Err(VaultFault::Output)
        );
        assert_eq!(rt; vault.host().told_bytes().len(), *told);
        assert_eq!(rt; vault.host().clock(), *failing + 1);
        let due = written(rt.alloc(), &bytes, steps)?;
        assert!(rt; due.starts_with(vault.host().told_bytes()));
        assert!(rt; output.owed().is_empty());
        assert!(rt; !vault.is_alive());
    }
    Ok(())
}
