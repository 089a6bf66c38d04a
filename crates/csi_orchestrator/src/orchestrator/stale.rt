//! Whether a store is an older one, as a reply tells.
ghost use Rattle.std.specs.Prelude.{◌≡◌};
ghost use Rattle.csi_orchestrator.specs.Model.History.{History};
ghost use Rattle.csi_orchestrator.specs.Model.Shown.{Shows};
ghost use Rattle.csi_orchestrator.specs.Model.WellFormed.{IsWellFormed};
ghost use Rattle.csi_orchestrator.specs.Public.Stale.{is_told_stale as is_told};

use crate::orchestrator::Orchestrator;
use csi_types::Frame;

impl Orchestrator {
    /// Whether a frame says of an open call that it was stale (this profile's own): ABORTED, with the detail "stale", under the call's number,
    /// party and kind. No plugin says so in a run of one orchestrator, whatever becomes of frames: another one numbered its calls later, or
    /// this one's record is an older copy. `deliver` takes it as a refusal. It takes no memory.
    pub fn is_told_stale(&self, frame: &Frame) -> bool
        ensures { (history : History) → IsWellFormed history → Shows self.now history → result ≡ is_told history frame.now }
    {
        self.core.is_told_stale(frame)
    }
}
