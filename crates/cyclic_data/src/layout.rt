//! The layout of the frames of a communication relation.
ghost use Rattle.std.specs.Prelude.{◌≡◌, ◌≤◌, [], length, IfOk, IfErr, IsOk};
ghost use Rattle.cyclic_data.specs.Places.{asked};
ghost use Rattle.cyclic_data.specs.Layout.{IsLayout, IsFirstFault, Table};

use crate::fault::LayoutFault;
use crate::judge::Judge;
use crate::octets::has_overlap;
use crate::place::{ExpectedData, Place, PlaceKind, rises};
use arrayvec::ArrayVec;
use connect_blocks::{IoObjects, IocrType};
use std::marker::Model;

/// The places in the frames of a communication relation: exactly those that the submodules need, inside the frame and
/// without overlap. The data objects come first, then the IOCS, each in the order of the request.
#[derive(Drop)]
pub struct Layout {
    pub(crate) data_length: u16,
    pub(crate) places: ArrayVec<Place, 128>,
}

impl Model for Layout {
    ghost use Rattle.cyclic_data.specs.Layout.{Table, IsTable};

    ghost Value = { Table };

    ghost view = { λ layout. record { data_length = layout.data_length; places = layout.places.items } };

    ghost invariant = { λ layout. IsTable layout.data_length layout.places.items };
}

impl Layout {
    /// A layout with no places, for frames with no octets.
    pub fn new() -> Layout
        ensures { result ≡ record { data_length = 0; places = [] } }
    {
        Layout {
            data_length: 0,
            places: ArrayVec::new(),
        }
    }

    /// Checks the places that a communication relation requests: its direction, its DataLength (at most 1,440 octets),
    /// its IODataObjects and its IOCS, against the submodules that are expected, at most 64 (IEC 61158-6-10, 5.2.4.3).
    ///
    /// A submodule with input, or with no data, has a data object in the input frames and an IOCS in the output frames. A
    /// submodule with output has a data object in the output frames and an IOCS in the input frames.
    #[inline(never)]
    pub fn check(
        direction: IocrType,
        data_length: u16,
        objects: &IoObjects,
        iocs: &IoObjects,
        expected: &[ExpectedData],
    ) -> Result<Layout, LayoutFault>
        requires short { data_length ≤ 1440 }
        requires few { length expected.now ≤ 64 }
        ensures valid { IfOk result (λ layout. IsLayout data_length direction expected.now
            (asked direction expected.now objects.now iocs.now)) }
        ensures value { IfOk result (λ layout. layout
            ≡ record { data_length = data_length; places = asked direction expected.now objects.now iocs.now }) }
        ensures fault { IfErr result (λ fault. IsFirstFault fault data_length direction expected.now
            (asked direction expected.now objects.now iocs.now)) }
        ensures only { IsLayout data_length direction expected.now (asked direction expected.now objects.now iocs.now) → IsOk result }
    {
        let judge = Judge {
            direction,
            data_length,
            expected,
            rising: rises(expected),
        };
        let mut places = ArrayVec::new();
        judge.place_all(PlaceKind::Data, objects, &mut places)?;
        judge.place_all(PlaceKind::Iocs, iocs, &mut places)?;
        if has_overlap(places.as_slice()) {
            return Err(LayoutFault::Overlap);
        }
        let mut seen = [false; 128];
        if judge.has_unknown(places.as_slice(), &mut seen) {
            return Err(LayoutFault::Unknown);
        }
        if judge.has_missing(&seen) {
            return Err(LayoutFault::Missing);
        }
        let mut kept = ArrayVec::new();
        let _ = kept.try_extend_from_slice(places.as_slice());
        Ok(Layout {
            data_length,
            places: kept,
        })
    }

    /// DataLength, in octets.
    pub fn data_length(&self) -> u16
        ensures { result ≡ self.now.data_length }
    {
        self.data_length
    }

    /// The places.
    pub fn places(&self) -> &[Place]
        ensures value { result.now ≡ self.now.places }
        ensures few { length result.now ≤ 128 }
    {
        self.places.as_slice()
    }
}
