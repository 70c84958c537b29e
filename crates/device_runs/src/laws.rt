ghost use Rattle.std.specs.Prelude.{◌≤◌};
ghost use Rattle.obj_store.specs.Store.{Store};
ghost use Rattle.device_runs.specs.Laws.{ConcludesCut, ConcludesFailed, ConcludesTold};

use ps_port::Host;

/// From a host (`old`), whose volume was attached and stood for a heap, over a run of which the store shows events of a program over that heap, to the host (`new`) after what was pending was
/// output: from the moment of attaching on, what was output and what a crash leaves are of one prefix of those events, each commit whole or absent. So it is where the output fails, before
/// the run's end (`cut`) or after it (`failed`).
pub fn runs_conclude<H: Host>()
    ensures told { (old new : H) (attached ran : Store H) → (H.outside attached.host).output_faults ≤ (H.outside ran.host).output_faults → ConcludesTold H.outside (H.outside old) attached ran (H.outside new) }
    ensures failed { (old new : H) (attached ran : Store H) → (H.outside attached.host).output_faults ≤ (H.outside ran.host).output_faults → ConcludesFailed H.outside (H.outside old) attached ran (H.outside new) }
    ensures cut { (old : H) (attached ran : Store H) → (H.outside attached.host).output_faults ≤ (H.outside ran.host).output_faults → ConcludesCut H.outside (H.outside old) attached ran }
{}
