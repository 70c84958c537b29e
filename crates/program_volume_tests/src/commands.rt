//! The commands that the tests make.

use command_answers::memory_host::MemoryHost;
use command_answers::{Answer, Command, host_of};
use std::alloc::{AllocError, Global};

/// A run of a sum.
pub const RUN: Command<'static> = Command {
    words: &["run", "v.vol"],
    last: "x.ps",
    texts: &[("x.ps", b"write 1 + 2, \"'n\" ?")],
};

/// What the run tells.
pub const SUM: &[u8] = b"3\n";

/// The making of a volume of so many pages.
pub fn format(pages: &str) -> Command<'_> {
    Command {
        words: &["format", "v.vol"],
        last: pages,
        texts: &[],
    }
}

/// What a command returns over a file of these bytes, by a host whose calls fail as listed.
pub fn answer_over(
    alloc: Global,
    command: Command<'_>,
    bytes: &[u8],
    failing: &[u64],
) -> Result<Answer, AllocError> {
    command.over(alloc, host_of(alloc, bytes, failing)?)
}

/// Whether a run over a file of these bytes tells this, with this status, and leaves them without a write.
pub fn is_left(alloc: Global, bytes: &[u8], told: &[u8], status: u8) -> bool {
    match answer_over(alloc, RUN, bytes, &[]) {
        Ok(answer) => answer.is(told, status) && is_unwritten(answer.host(), bytes),
        Err(_) => false,
    }
}

/// Whether a host has these bytes, and nothing was written.
pub fn is_unwritten(host: &MemoryHost, bytes: &[u8]) -> bool {
    host.contents() == bytes && host.writes() == 0
}
