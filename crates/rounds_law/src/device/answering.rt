//! What a device answers to the Connect of a plan, whichever number it gives the relation.
ghost use Rattle.rounds_law.specs.Connects.{AreWhole};

use both_ends::connect_answer_is_read;
use controller_messages::Setup;
use pn_values::Identity;

/// The blocks of the response to the Connect have everything that a relation needs, with a FrameID of cyclic data for outputs, for each
/// number of a relation.
pub(crate) fn connect_answers_are_whole(setup: &Setup, identity: &Identity, address: [u8; 4])
    ensures { AreWhole setup.now identity.now 14336 }
{
    for serial in 0..14_336 {
        connect_answer_is_read(setup, identity, address, serial);
    }
}
