//! What is written is output in order, in full pieces, and the rest is pending.
use crate::steps::{Step, many_bytes, run, vault, written};
use std::test::Fail;
use vault_output::Output;

/// Steps, how many bytes are output then, by how many calls of the host, and how many are pending.
const ROWS: [(&[Step], usize, u64, usize); 14] = [
    (&[], 0, 0, 0),
    (&[Step::Write(0)], 0, 0, 0),
    (&[Step::Flush], 0, 0, 0),
    (&[Step::Write(3), Step::Write(2)], 0, 0, 5),
    (&[Step::Write(3), Step::Write(2), Step::Flush], 5, 1, 0),
    (&[Step::Write(65_536)], 0, 0, 65_536),
    (&[Step::Write(65_536), Step::Write(0)], 0, 0, 65_536),
    (&[Step::Write(65_537)], 65_536, 1, 1),
    (&[Step::Write(200_000)], 196_608, 3, 3_392),
    (&[Step::Write(200_000), Step::Flush], 200_000, 4, 0),
    (&[Step::Blanks(0)], 0, 0, 0),
    (&[Step::Blanks(65_535)], 0, 0, 65_535),
    (&[Step::Blanks(65_535), Step::Write(2)], 65_536, 1, 1),
    (
        &[Step::Write(2), Step::Blanks(65_535), Step::Flush],
        65_537,
        2,
        0,
    ),
];

#[test]
fn full_pieces(rt: HostRuntime) -> Result<(), Fail> {
    let bytes = many_bytes(rt.alloc())?;
    for (steps, told, calls, owed) in &ROWS {
        let mut vault = vault(rt.alloc(), &[])?;
        let mut output = Output::new(rt.alloc())?;
        assert_eq!(rt; run(&mut output, &mut vault, &bytes, steps), Ok(()));
        assert_eq!(rt; vault.host().told_bytes().len(), *told);
        assert_eq!(rt; vault.host().clock(), *calls);
        assert_eq!(rt; output.owed().len(), *owed);
        let mut whole = vault.host().told_bytes().to_vec(rt.alloc())?;
        whole.extend_from_slice(output.owed())?;
        let due = written(rt.alloc(), &bytes, steps)?;
        assert!(rt; whole.as_slice() == due.as_slice());
    }
    Ok(())
}

#[test]
fn what_is_cleared_is_not_told(rt: HostRuntime) -> Result<(), Fail> {
    let mut vault = vault(rt.alloc(), &[])?;
    let mut output = Output::new(rt.alloc())?;
    assert_eq!(rt; output.write(&mut vault, b"gone"), Ok(()));
    output.clear();
    assert!(rt; output.owed().is_empty());
    let steps = [Step::Write(2), Step::Flush];
    assert_eq!(rt; run(&mut output, &mut vault, b"ab", &steps), Ok(()));
    assert_eq!(rt; vault.host().told_bytes(), b"ab".as_slice());
    Ok(())
}
