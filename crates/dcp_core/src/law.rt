//! The laws of DCP.
ghost use Rattle.std.specs.Prelude.{◌≡◌, ◌++◌, ◌≤◌, ◌<◌, List, ℕ, Option, length, Ok};
ghost use Rattle.pn_values.specs.declared.identity.Identity.{Identity};
ghost use Rattle.pn_values.specs.declared.set_item.BlockError.{BlockError};
ghost use Rattle.pn_values.specs.declared.settings.Settings.{Settings};
ghost use Rattle.dcp_core.specs.Answer.{answer_of};
ghost use Rattle.dcp_core.specs.Format.{frame_id_of};
ghost use Rattle.dcp_core.specs.Get.{get_bytes};
ghost use Rattle.dcp_core.specs.Identify.{identify_bytes};
ghost use Rattle.dcp_core.specs.Reading.{request_of};
ghost use Rattle.dcp_core.specs.Request.{Asked};
ghost use Rattle.dcp_core.specs.Set.{set_bytes};
ghost use Rattle.dcp_core.specs.Reported.{get_said, identify_said, set_said};
ghost use Rattle.dcp_core.specs.Writing.{request_bytes};
ghost use Rattle.dcp_core.specs.Sendable.{CanBeAsked};

/// A request that can be sent is read back. This is a law of the definitions. No code is involved.
pub fn requests_are_read()
    // A request that can be sent is read back under the FrameID of its service, with anything after it.
    ensures read { (asked : Asked) (more : List ℕ) → CanBeAsked asked →
        request_of (frame_id_of asked.service) (request_bytes asked ++ more) ≡ Ok asked }
    // A request that can be sent fits a frame.
    ensures short { (asked : Asked) → CanBeAsked asked → length (request_bytes asked) ≤ 1498 }
{}

/// A response that is written is read as what it says. These are laws of the definitions. No code is involved.
pub fn answers_are_read()
    // If it fits a frame, the response to an Identify is read as what the station reports of itself, with the Xid of
    // the request, whatever follows it.
    ensures identify { (identity : Identity) (settings : Settings) (xid : ℕ) (more : List ℕ) → xid < 4294967296 →
        length (identify_bytes identity settings xid) ≤ 1498
        → answer_of 0xFEFF (identify_bytes identity settings xid ++ more) ≡ Ok (identify_said identity settings xid) }
    // If it fits a frame, the response to a Get is read as what the station reports of each kind that was asked for.
    ensures get { (identity : Identity) (settings : Settings) (alias : Option (List ℕ)) (request : Asked) (more : List ℕ) → request.xid < 4294967296 →
        length (get_bytes identity settings alias request) ≤ 1498
        → answer_of 0xFEFD (get_bytes identity settings alias request ++ more) ≡ Ok (get_said identity settings alias request) }
    // If it fits a frame, the response to a Set is read as the outcome of each block.
    ensures set { (request : Asked) (outcomes : List BlockError) (more : List ℕ) → request.xid < 4294967296 →
        length (set_bytes request outcomes) ≤ 1498
        → answer_of 0xFEFD (set_bytes request outcomes ++ more) ≡ Ok (set_said request outcomes) }
{}
