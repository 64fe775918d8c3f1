//! What the device writes and no reader of the product reads, read back.
ghost use Rattle.std.specs.Prelude.{◌≡◌, ◌≤◌, ◌<◌, ◌^◌, ◌*◌, ◌++◌, ℕ, Bool, true, false, List, length, Option, Some, None};
ghost use Rattle.std.specs.List.{AllByRecursion};
ghost use Rattle.pn_values.specs.declared.real.Real.{Real};
ghost use Rattle.pn_values.specs.declared.real.RealModule.{RealModule};
ghost use Rattle.pn_values.specs.declared.settings.Settings.{Settings};
ghost use Rattle.connects.specs.requests.Request.{Request};
ghost use Rattle.cyclic_data.specs.declared.status.StationState.{StationState};
ghost use Rattle.cyclic_data.specs.exchange.Cyclic.{Cyclic};
ghost use Rattle.cyclic_data.specs.exchange.Process.{taken_tail};
ghost use Rattle.diagnosis.specs.Record.{record_bytes};
ghost use Rattle.diagnosis.specs.declared.diagnosis.Diagnosis.{Diagnosis};
ghost use Rattle.lldp.specs.Announcement.{own_chassis};
ghost use Rattle.lldp.specs.Peer.{Peer};
ghost use Rattle.device_records.specs.ArData.{ar_data, last_sent, sent_tail};
ghost use Rattle.device_records.specs.topology.Port.{interface_bytes, network_bytes, port_bytes};
ghost use Rattle.fields_law.specs.Diagnosis.{IsDiagnosis, IsDiagnosisData, IsModule, reported_in};
ghost use Rattle.fields_law.specs.Port.{AreMultiple, IsInterface, IsNeighbour, IsPort, IsSuite, block_of};
ghost use Rattle.fields_law.specs.Relation.{AreNumbers, IsArData, IsEmptyArData, IsRequest, IsTail};
ghost use Rattle.pn_values.specs.declared.identity.Identity.{Identity};
ghost use Rattle.rpc_core.specs.declared.call_headers.call.Head.{Head};
ghost use Rattle.rpc_core.specs.declared.call_headers.unserved.Refusal.TheVariants.{NoCall, Reject};
ghost use Rattle.rpc_core.specs.declared.call_headers.unserved.Rejection.{Rejection};
ghost use Rattle.rpc_core.specs.call_headers.Unserved.{answer_bytes};
ghost use Rattle.rpc_services.specs.pieces.Piece.{Piece};
ghost use Rattle.rpc_services.specs.pieces.State.{fack_bytes};
ghost use Rattle.rpc_services.specs.declared.endpoint_mapper.lookup.Lookup.{Lookup};
ghost use Rattle.rpc_services.specs.endpoint_mapper.Entry.{freed};
ghost use Rattle.rpc_services.specs.endpoint_mapper.Lookup.{gets_entry};
ghost use Rattle.rpc_services.specs.endpoint_mapper.Mapper.{lookup_bytes, low_first, response};
ghost use Rattle.fields_law.specs.Acknowledgement.{IsFack};
ghost use Rattle.fields_law.specs.Mapper.{IsEndAnswer, IsEntryAnswer, IsFreedAnswer, IsIdentity};
ghost use Rattle.fields_law.specs.Packet.{IsCall, IsNoCall, IsReject};

/// The answers to calls to unknown interfaces or operations, the acknowledgement of fragments, and the answers of the endpoint mapper.
pub fn answers_are_read_back()
    // A ping is answered by nocall.
    ensures no_call { (call : Head) → IsCall call → IsNoCall (answer_bytes call NoCall) call }
    // A call that nobody serves is answered by reject.
    ensures reject { (call : Head) (rejection : Rejection) → IsCall call → IsReject (answer_bytes call (Reject rejection)) call rejection }
    // Fragments are acknowledged by fack.
    ensures fack { (piece : Piece) (number : ℕ) → IsCall piece.head → number < 65536 → piece.serial < 65536
        → IsFack (fack_bytes piece number) piece.head number piece.serial }
    // A lookup that begins gets the entry of the device.
    ensures entry { (identity : Identity) (address : List ℕ) (call : Head) (asked : Lookup) → IsIdentity identity → length address ≡ 4 → IsCall call
        → asked.most < 256 ^ 4 → gets_entry asked ≡ true → IsEntryAnswer (lookup_bytes identity address call asked) call identity address asked.most }
    // Any other lookup ends.
    ensures end { (identity : Identity) (address : List ℕ) (call : Head) (asked : Lookup) → IsCall call → asked.most < 256 ^ 4
        → gets_entry asked ≡ false → IsEndAnswer (lookup_bytes identity address call asked) call asked.most }
    // A handle is freed.
    ensures freed { (call : Head) → IsCall call → IsFreedAnswer (response call 24 (freed (low_first call))) call }
{}

/// The records of a device that no reader of the product reads.
pub fn records_are_read_back()
    // DiagnosisData that is not cut has the diagnoses of the submodules that are asked for, each submodule in a block of its own.
    ensures diagnosis { (has : ℕ → ℕ → Bool) (diagnoses : List Diagnosis) (real : List RealModule) → length diagnoses ≤ 32
        → AllByRecursion IsDiagnosis diagnoses → AllByRecursion IsModule real → length (record_bytes has diagnoses real) < 1308
        → IsDiagnosisData (record_bytes has diagnoses real) (reported_in has diagnoses real) }
    // ARData has the Connect of the relation, the FrameIDs of its exchange and the fields after the data of its last frames, and the
    // endpoint of the device.
    ensures relation { (units : ℕ) (request : Request) (cyclic : Cyclic) (began : ℕ) (state_sent : StationState) (endpoint : ℕ) → IsRequest request
        → AreNumbers cyclic.route endpoint → IsTail (taken_tail cyclic)
        → IsArData (ar_data units (Some (request, cyclic, began, state_sent, endpoint))) request cyclic.route
        (sent_tail (last_sent began units (request.input.send_clock_factor * request.input.reduction_ratio)) state_sent) (taken_tail cyclic)
        endpoint }
    // It has none without a relation.
    ensures no_relation { (units : ℕ) → IsEmptyArData (ar_data units None) }
    // PDPortDataReal has the neighbour, if one is known.
    ensures port { (peer : Option Peer) → ((known : Peer) → peer ≡ Some known → IsNeighbour known) → IsPort (port_bytes peer) peer }
    // PDInterfaceDataReal has the station.
    ensures interface { (identity : Identity) (settings : Settings) → length (own_chassis identity.mac settings.name) < 256
        → length identity.mac.octets ≡ 6 → IsSuite settings.suite
        → IsInterface (interface_bytes identity settings) (own_chassis identity.mac settings.name) identity.mac settings.suite }
    // PDRealData has both, each if its submodule is plugged.
    ensures network { (identity : Identity) (real : Real) (settings : Settings) (peer : Option Peer)
        → length (own_chassis identity.mac settings.name) < 256 → length identity.mac.octets ≡ 6 → IsSuite settings.suite
        → ((known : Peer) → peer ≡ Some known → IsNeighbour known) → AreMultiple (network_bytes identity real settings peer)
        (block_of real 0x8000 (interface_bytes identity settings) ++ block_of real 0x8001 (port_bytes peer)) }
{}
