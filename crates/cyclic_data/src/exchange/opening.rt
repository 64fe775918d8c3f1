//! Opening an end.
ghost use Rattle.std.specs.Prelude.{◌≡◌};
ghost use Rattle.cyclic_data.specs.exchange.Opening.{first_shown, stated};

use crate::image::Image;
use crate::layout::Layout;
use crate::place::PlaceKind;

/// The IOPS and IOCS that are sent, for each place.
pub trait Statuses {
    ghost use Rattle.std.specs.Prelude.{ℕ};
    ghost use Rattle.cyclic_data.specs.declared.place.PlaceKind.{PlaceKind};

    ghost status_of: { Self → PlaceKind → ℕ → ℕ → ℕ };

    /// The status at the place of this kind and submodule.
    fn status(&self, kind: PlaceKind, slot: u16, subslot: u16) -> u8
        ensures { result ≡ status_of self.now kind slot subslot };
}

/// Fills the image with this layout, without data, and with these statuses.
pub(crate) fn fill<S: Statuses>(image: &mut Image, layout: &Layout, statuses: &S)
    ensures { image.new ≡ first_shown (S.status_of statuses.now) layout.now }
{
    image.start(layout);
    state(image, statuses);
}

/// Sets the status at each place. The data stays as it is.
pub(crate) fn state<S: Statuses>(image: &mut Image, statuses: &S)
    ensures { image.new ≡ stated (S.status_of statuses.now) image.old }
{
    for index in 0..image.len() {
        let place = image.place(index);
        let status = statuses.status(place.kind, place.slot, place.subslot);
        image.set_status(place.kind, place.slot, place.subslot, status);
    }
}
