//! The FrameID that a device chooses for outputs, and its alarm endpoint.
ghost use Rattle.std.specs.Prelude.{◌<◌, ℕ};
ghost use Rattle.pn_values.specs.declared.identity.Identity.{Identity};
ghost use Rattle.pn_values.specs.declared.real.Real.{Real};
ghost use Rattle.controller_messages.specs.declared.setup.Setup.{Setup};
ghost use Rattle.end_laws.specs.hearing.Stations.{IsDevice, IsSetup};
ghost use Rattle.both_ends.specs.startup.request.Request.{request_for};
ghost use Rattle.relations.specs.Connect.{connect_blocks, differing_of};
ghost use Rattle.both_ends.specs.exchange.Sized.{IsChosenWell};

use block_codec::blocks_are_read;
use connects::blocks_are_found;

/// The blocks of a device's response to the Connect of a plan meet the premise of the law of alarms. This is a law of
/// the definitions.
pub fn answers_choose_well()
    // This holds whatever is plugged in the device, also if a module differs, and for each number that a relation may have.
    ensures { (setup : Setup) (identity : Identity) (real : Real) (number : ℕ) → IsSetup setup → IsDevice identity → number < 14336
        → IsChosenWell (connect_blocks identity number (request_for setup.plan setup.ar) (differing_of (request_for setup.plan setup.ar) real)) }
{
    blocks_are_read();
    blocks_are_found();
}
