//! Images of cyclic data that is received.
ghost use Rattle.std.specs.Prelude.{◌≡◌, ◌≤◌, [], length, map, option_map, IfSome};
ghost use Rattle.cyclic_data.specs.declared.place.PlaceKind.TheVariants.{Data};
ghost use Rattle.cyclic_data.specs.Image.{zero_cell, cell_at, with_frame, output_of};

use crate::laid_out::LaidOut;
use crate::layout::Layout;
use crate::octets::write_at;
use crate::place::PlaceKind;
use crate::status::GOOD;
use crate::zero_octets::zeros;
use std::marker::Model;

/// The content of the last accepted frame of a layout: the data and the status at each place. It is separate from the
/// data to be sent, so that no received octet is ever sent.
#[derive(Drop)]
pub struct ReceivedImage {
    laid_out: LaidOut,
}

// In clauses an image is a list with a cell for each place.
impl Model for ReceivedImage {
    ghost use Rattle.cyclic_data.specs.Image.{Shown};

    ghost Value = { Shown };

    ghost use Rattle.std.specs.Prelude.{map};
    ghost use Rattle.cyclic_data.specs.Image.{cell_of};
    ghost use Rattle.cyclic_data.specs.Held.{IsReceived};

    ghost view = { λ image. record {
      data_length = image.laid_out.data_length;
      cells = map (cell_of image.laid_out.octets) image.laid_out.places.items;
    } };

    ghost invariant = { λ image. IsReceived image.laid_out.data_length image.laid_out.places.items image.laid_out.octets };
}

impl ReceivedImage {
    /// An image with no places.
    pub fn new() -> ReceivedImage
        ensures { result ≡ record { data_length = 0; cells = [] } }
    {
        ReceivedImage {
            laid_out: LaidOut::new(),
        }
    }

    /// Starts the image of a layout of which no frame was accepted yet: zeros everywhere.
    pub fn start(&mut self, layout: &Layout)
        ensures { self.new ≡ record { data_length = layout.now.data_length; cells = map zero_cell layout.now.places } }
    {
        self.laid_out.start(layout);
    }

    /// DataLength, in octets.
    pub fn data_length(&self) -> u16
        ensures value { result ≡ self.now.data_length }
        ensures few { result ≤ 1440 }
    {
        self.laid_out.data_length
    }

    /// Stores the octets of a frame, as many as DataLength counts. The octets after them are ignored.
    #[inline(always)]
    pub fn accept(&mut self, octets: &[u8])
        requires { self.old.data_length ≤ length octets.now }
        ensures { self.new ≡ with_frame octets.now self.old }
    {
        let size = self.laid_out.data_length as usize;
        write_at(&mut self.laid_out.octets, 0, &octets[..size]);
    }

    /// The data of a submodule with any IOPS, or `None` if it has no data in these frames.
    pub fn get(&self, slot: u16, subslot: u16) -> Option<&[u8]>
        ensures value { option_map (λ value. value.now) result
            ≡ option_map (λ cell. cell.value) (cell_at Data slot subslot self.now.cells) }
        ensures short { IfSome result (λ value. length value.now ≤ 1440) }
    {
        self.laid_out.value(slot, subslot)
    }

    /// The status of a place, or `None` if there is no such place.
    pub fn status(&self, kind: PlaceKind, slot: u16, subslot: u16) -> Option<u8>
        ensures { result ≡ option_map (λ cell. cell.status) (cell_at kind slot subslot self.now.cells) }
    {
        self.laid_out.status(kind, slot, subslot)
    }

    /// The output of a submodule: its data in the last accepted frame, or zeros if no frame was accepted yet or its IOPS
    /// is not GOOD. `None` if it has no data in these frames.
    pub fn output(&self, slot: u16, subslot: u16) -> Option<&[u8]>
        ensures value { option_map (λ value. value.now) result ≡ option_map output_of (cell_at Data slot subslot self.now.cells) }
        ensures short { IfSome result (λ value. length value.now ≤ 1440) }
    {
        match self.rated_output(slot, subslot) {
            Some((value, _)) => Some(value),
            None => None,
        }
    }

    /// The same, and its IOPS.
    pub(crate) fn rated_output(&self, slot: u16, subslot: u16) -> Option<(&[u8], u8)>
        ensures value { option_map (λ rated. rated.0.now) result ≡ option_map output_of (cell_at Data slot subslot self.now.cells) }
        ensures status { option_map (λ rated. rated.1) result ≡ option_map (λ cell. cell.status) (cell_at Data slot subslot self.now.cells) }
        ensures short { IfSome result (λ rated. length rated.0.now ≤ 1440) }
    {
        let (value, iops) = self.rated_value(slot, subslot)?;
        if iops == GOOD {
            return Some((value, iops));
        }
        // With a bad IOPS the data has no meaning, and outputs fall back to zeros.
        Some((zeros(value.len()), iops))
    }

    /// The data of a submodule with any IOPS, and its IOPS, or `None` if it has no data in these frames.
    fn rated_value(&self, slot: u16, subslot: u16) -> Option<(&[u8], u8)>
        ensures value { option_map (λ rated. rated.0.now) result
            ≡ option_map (λ cell. cell.value) (cell_at Data slot subslot self.now.cells) }
        ensures status { option_map (λ rated. rated.1) result
            ≡ option_map (λ cell. cell.status) (cell_at Data slot subslot self.now.cells) }
        ensures short { IfSome result (λ rated. length rated.0.now ≤ 1440) }
    {
        self.laid_out.rated_value(slot, subslot)
    }
}
