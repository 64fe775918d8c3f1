//! Images of the cyclic data to be sent.
ghost use Rattle.std.specs.Prelude.{◌≡◌, ◌+◌, ◌<◌, ◌≤◌, IfSome, Some, slice_get, [], length, map, option_map, is_some, if◌then◌else◌};
ghost use Rattle.cyclic_data.specs.declared.place.PlaceKind.TheVariants.{Data};
ghost use Rattle.cyclic_data.specs.exchange.Opening.{blanked};
ghost use Rattle.cyclic_data.specs.Image.{zero_cell, cell_at, changed, with_value, with_status, has_size, octets_of, IsFrame};

use crate::laid_out::LaidOut;
use crate::layout::Layout;
use crate::octets::{place_at, write_at};
use crate::place::{Place, PlaceKind};
use crate::zero_octets::zeros;
use std::marker::Model;

/// The content of the frames of a layout that are sent: the data and the status at each place, as octets on the wire.
#[derive(Drop)]
pub struct Image {
    laid_out: LaidOut,
}

// In clauses an image is a list with a cell for each place.
impl Model for Image {
    ghost use Rattle.cyclic_data.specs.Image.{Shown};

    ghost Value = { Shown };

    ghost use Rattle.std.specs.Prelude.{map};
    ghost use Rattle.cyclic_data.specs.Image.{cell_of};
    ghost use Rattle.cyclic_data.specs.Held.{IsImage};

    ghost view = { λ image. record {
      data_length = image.laid_out.data_length;
      cells = map (cell_of image.laid_out.octets) image.laid_out.places.items;
    } };

    ghost invariant = { λ image. IsImage image.laid_out.data_length image.laid_out.places.items image.laid_out.octets };
}

impl Image {
    /// An image with no places.
    pub fn new() -> Image
        ensures { result ≡ record { data_length = 0; cells = [] } }
    {
        Image {
            laid_out: LaidOut::new(),
        }
    }

    /// Starts the image of a layout: zeros everywhere.
    pub fn start(&mut self, layout: &Layout)
        ensures { self.new ≡ record { data_length = layout.now.data_length; cells = map zero_cell layout.now.places } }
    {
        self.laid_out.start(layout);
    }

    /// The number of places.
    pub(crate) fn len(&self) -> usize
        ensures { result ≡ length self.now.cells }
    {
        self.laid_out.places.len()
    }

    /// The place with this index.
    pub(crate) fn place(&self, index: usize) -> Place
        requires { index < length self.now.cells }
        ensures { slice_get (map (λ cell. cell.place) self.now.cells) index ≡ Some result }
    {
        self.laid_out.places.as_slice()[index]
    }

    /// Sets the data of a submodule. Returns whether the submodule has data of this length in these frames; if not,
    /// nothing changes.
    pub fn put(&mut self, slot: u16, subslot: u16, value: &[u8]) -> bool
        ensures done { result ≡ has_size (length value.now) (cell_at Data slot subslot self.old.cells) }
        ensures state { self.new ≡ (if result then changed Data slot subslot (with_value value.now) self.old else self.old) }
    {
        let Some(place) = place_at(
            self.laid_out.places.as_slice(),
            PlaceKind::Data,
            slot,
            subslot,
        ) else {
            return false;
        };
        // The IOPS follows the data, in the same place.
        if place.size as usize != value.len() + 1 {
            return false;
        }
        write_at(&mut self.laid_out.octets, place.offset as usize, value);
        true
    }

    /// Sets the data of a submodule to zeros, if it has data in these frames.
    pub fn clear(&mut self, slot: u16, subslot: u16)
        ensures { self.new ≡ blanked slot subslot self.old }
    {
        let Some(place) = place_at(
            self.laid_out.places.as_slice(),
            PlaceKind::Data,
            slot,
            subslot,
        ) else {
            return;
        };
        // The IOPS follows the data, in the same place.
        let size = place.size as usize - 1;
        write_at(
            &mut self.laid_out.octets,
            place.offset as usize,
            zeros(size),
        );
    }

    /// Sets the status of a place: the IOPS of data, or an IOCS. Returns whether there is such a place; if not, nothing
    /// changes.
    pub fn set_status(&mut self, kind: PlaceKind, slot: u16, subslot: u16, status: u8) -> bool
        ensures done { result ≡ is_some (cell_at kind slot subslot self.old.cells) }
        ensures state { self.new ≡ (if result then changed kind slot subslot (with_status status) self.old else self.old) }
    {
        let Some(place) = place_at(self.laid_out.places.as_slice(), kind, slot, subslot) else {
            return false;
        };
        let last = place.offset as usize + place.size as usize - 1;
        write_at(&mut self.laid_out.octets, last, &[status]);
        true
    }

    /// The data of a submodule, or `None` if it has no data in these frames.
    pub fn get(&self, slot: u16, subslot: u16) -> Option<&[u8]>
        ensures value { option_map (λ value. value.now) result
            ≡ option_map (λ cell. cell.value) (cell_at Data slot subslot self.now.cells) }
        ensures short { IfSome result (λ value. length value.now ≤ 1440) }
    {
        self.laid_out.value(slot, subslot)
    }

    /// The status of a place, or `None` if there is no such place.
    pub fn status(&self, kind: PlaceKind, slot: u16, subslot: u16) -> Option<u8>
        ensures { result ≡ option_map (λ cell. cell.status) (cell_at kind slot subslot self.now.cells) }
    {
        self.laid_out.status(kind, slot, subslot)
    }

    /// The octets of a frame, as many as DataLength counts.
    pub fn bytes(&self) -> &[u8]
        ensures value { result.now ≡ octets_of self.now }
        ensures frame { IsFrame self.now result.now }
        ensures few { length result.now ≤ 1440 }
    {
        &self.laid_out.octets[..self.laid_out.data_length as usize]
    }
}
