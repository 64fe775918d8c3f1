// The parts that images of cyclic data share: the places, and the octets at them.
ghost use Rattle.std.specs.Prelude.{◌≡◌, [], option_map, replicate};
ghost use Rattle.cyclic_data.specs.Held.{IsReceived};
ghost use Rattle.cyclic_data.specs.Layout.{Table, IsTable};
ghost use Rattle.cyclic_data.specs.Image.{place_at, status_in, value_in};
ghost use Rattle.cyclic_data.specs.declared.place.PlaceKind.TheVariants.{Data};

use crate::layout::Layout;
use crate::octets::{blank, rated_value_at, status_at, value_at};
use crate::place::{Place, PlaceKind};
use arrayvec::ArrayVec;

/// The places of a layout, and octets for the longest frame.
#[derive(Drop)]
pub(crate) struct LaidOut {
    pub(crate) data_length: u16,
    pub(crate) places: ArrayVec<Place, 128>,
    pub(crate) octets: [u8; 1440],
}

impl LaidOut {
    /// Octets with no places: all zeros.
    pub(crate) fn new() -> LaidOut
        ensures length { result.data_length ≡ 0 }
        ensures places { result.places.items ≡ [] }
        ensures octets { result.octets ≡ replicate 1440 0 }
    {
        LaidOut {
            data_length: 0,
            places: ArrayVec::new(),
            octets: blank(),
        }
    }

    /// Starts with the places of a layout, and zeros everywhere.
    pub(crate) fn start(&mut self, layout: &Layout)
        ensures places { layout.now ≡ record { data_length = self.new.data_length; places = self.new.places.items } }
        ensures table { IsTable self.new.data_length self.new.places.items }
        ensures octets { self.new.octets ≡ replicate 1440 0 }
    {
        self.data_length = layout.data_length;
        self.places.clear();
        let _ = self.places.try_extend_from_slice(layout.places.as_slice());
        // Octets outside all places are sent too, so nothing of an earlier relation may be left in them.
        self.octets = blank();
    }

    /// The data of a submodule, or `None` if it has no data here.
    pub(crate) fn value(&self, slot: u16, subslot: u16) -> Option<&[u8]>
        requires { IsReceived self.now.data_length self.now.places.items self.now.octets }
        ensures { option_map (λ value. value.now) result
            ≡ option_map (value_in self.now.octets) (place_at Data slot subslot self.now.places.items) }
    {
        value_at(&self.octets, self.places.as_slice(), slot, subslot)
    }

    /// The data of a submodule and its IOPS, or `None` if it has no data here.
    pub(crate) fn rated_value(&self, slot: u16, subslot: u16) -> Option<(&[u8], u8)>
        requires { IsReceived self.now.data_length self.now.places.items self.now.octets }
        ensures value { option_map (λ rated. rated.0.now) result
            ≡ option_map (value_in self.now.octets) (place_at Data slot subslot self.now.places.items) }
        ensures status { option_map (λ rated. rated.1) result
            ≡ option_map (status_in self.now.octets) (place_at Data slot subslot self.now.places.items) }
    {
        rated_value_at(&self.octets, self.places.as_slice(), slot, subslot)
    }

    /// The status of a place, or `None` if there is no such place.
    pub(crate) fn status(&self, kind: PlaceKind, slot: u16, subslot: u16) -> Option<u8>
        requires { IsReceived self.now.data_length self.now.places.items self.now.octets }
        ensures { result ≡ option_map (status_in self.now.octets) (place_at kind slot subslot self.now.places.items) }
    {
        status_at(&self.octets, self.places.as_slice(), kind, slot, subslot)
    }
}
