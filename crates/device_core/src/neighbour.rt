// The neighbour of the station.
ghost use Rattle.std.specs.Prelude.{◌≡◌, option_map};
ghost use Rattle.lldp.specs.Views.{peer_as};
ghost use Rattle.device_core.specs.Behind.{behind};
ghost use Rattle.device_core.specs.Handled.{handled_met};

use crate::{Device, Note};
use flash_model::Flash;
use lldp::Neighbour;

impl<F: Flash<S>, const S: usize> Device<F, S> {
    /// The neighbour of the station, which its port leads to, if it is known.
    pub fn neighbour(&self) -> Option<&Neighbour>
        ensures { option_map (λ n. peer_as n.now) result ≡ self.now.live.rest.peer }
    {
        match &self.neighbour {
            Some(neighbour) => Some(neighbour),
            None => None,
        }
    }

    // The neighbour that the station has from now on, if one is known. Nothing is sent.
    #[inline(never)]
    pub(crate) fn meet(&mut self, neighbour: &Option<Neighbour>) -> Note
        ensures state { self.new ≡ behind self.old (handled_met self.old.live (option_map peer_as neighbour.now)) }
        ensures note { result ≡ Note.Done }
    {
        self.neighbour = match neighbour {
            Some(neighbour) => Some(neighbour.copy()),
            None => None,
        };
        Note::Done
    }
}
