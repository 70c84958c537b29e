use joint_ops::proc_values::reading::CodePlace;
use ps_base::code_unit::Frame;

/// A body that waits for a call to come back: its code object with the place of its bytes and its frame, the offset at which it goes on, its scope,
/// which is 0 for none, and how many words it has on each of the two stacks. On that of the references the procedure that it called is the last.
#[derive(Clone, Copy)]
pub struct Caller {
    pub code: u32,
    pub place: CodePlace,
    pub frame: Frame,
    pub scope: u32,
    pub at: u32,
    pub nums: usize,
    pub refs: usize,
}
