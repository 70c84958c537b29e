//! How far a step of a run came.
ghost use Rattle.std.specs.Prelude.{◌≡◌};
ghost use Rattle.session_run.specs.inside.Advancing.{advanced_where};

#[derive(Clone, Copy)]
pub enum Advanced {
    /// The run goes on.
    On,
    /// The run is at the machine's end.
    Ended,
    /// The run broke off for the machine's fault.
    Broke,
    /// The output failed.
    Failed,
}

/// The run goes on where the output didn't fail.
#[inline(always)]
pub fn on_where(sent: bool) -> Advanced
    ensures { result ≡ advanced_where sent }
{
    if sent { Advanced::On } else { Advanced::Failed }
}
