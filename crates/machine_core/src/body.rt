use joint_ops::proc_values::reading::CodePlace;
use ps_base::code_unit::Frame;

/// A body that is called: its code object with the place of its bytes and its frame, and the scope that its procedure was made in,
/// which is 0 for none.
#[derive(Clone, Copy)]
pub struct Body {
    pub code: u32,
    pub place: CodePlace,
    pub frame: Frame,
    pub scope: u32,
}
