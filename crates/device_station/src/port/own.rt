//! What the services of a port made in the last step.
ghost use Rattle.std.specs.Prelude.{◌≡◌, ◌+◌, ◌<◌, ◌≤◌, [], ◌∷◌, Some, false, drop, length, map, slice_get, take};
ghost use Rattle.device_frames.specs.declared.event.Event.TheVariants.{Frame as Framed};
ghost use Rattle.device_station.specs.Beside.{beside, is_dropped, joined_beside};
ghost use Rattle.device_station.specs.Leaps.{services_due};
ghost use Rattle.device_station.specs.Serving.{disputes};
ghost use Rattle.device_station.specs.Views.{joined_in, note_in};
ghost use Rattle.device_station.specs.port.Pace.{TicksBeside};

use crate::{Attended, DeviceServices, JoinedCall, RecordedFlash, follow_frame, follow_units};
use device_core::{Device, Note};
use frame_codec::{Frame, Outbox};
use std::marker::Model;

/// What the services made in the last step: the frames that they sent, at most two, or the call that they joined. They send nothing in a
/// step that completes a call, so one room is enough for both.
#[derive(Drop)]
pub(crate) struct OwnFrames {
    room: JoinedCall,
    /// The number of frames, which lie one after the other. It is all that most calls of a port ask for.
    count: usize,
    /// The number of octets of the first one, if there are two.
    first: usize,
}

impl Model for OwnFrames {
    ghost use Rattle.device_station.specs.Views.{call_octets};
    ghost use Rattle.device_station.specs.port.Own.{Own, AreFrames, kept_in};

    ghost Value = { Own };

    ghost view = { λ own. record { frames = kept_in own.count own.first (call_octets own.room); call = own.room } };

    ghost invariant = { λ own. AreFrames own.count own.first (call_octets own.room) };
}

impl OwnFrames {
    // No frame, and no call.
    #[inline(always)]
    pub(crate) fn new() -> OwnFrames
        ensures { result.frames ≡ [] }
    {
        OwnFrames {
            room: JoinedCall::new(),
            count: 0,
            first: 0,
        }
    }

    // The number of frames.
    pub(crate) fn len(&self) -> usize
        ensures { result ≡ length self.now.frames }
    {
        self.count
    }

    // The octets of the frame at this position.
    pub(crate) fn frame(&self, index: usize) -> &[u8]
        requires { index < length self.now.frames }
        ensures at { slice_get self.now.frames index ≡ Some result.now }
        ensures short { length result.now ≤ 1518 }
    {
        if self.count == 1 {
            return self.room.octets();
        }
        one_of(self.room.octets(), self.first, index)
    }

    // The call that was joined, if one was.
    pub(crate) fn call(&self) -> &JoinedCall
        ensures { result.now ≡ self.now.call }
    {
        &self.room
    }

    // Removes all frames.
    pub(crate) fn clear(&mut self)
        ensures frames { self.new.frames ≡ [] }
        ensures call { self.new.call ≡ self.old.call }
    {
        self.count = 0;
    }

    // Keeps these frames; a call that was kept there is lost. Without frames a call stays.
    fn keep(&mut self, frames: &[Frame])
        requires few { length frames.now ≤ 2 }
        ensures frames { self.new.frames ≡ map (λ frame. frame.items) frames.now }
        ensures call { frames.now ≡ [] → self.new.call ≡ self.old.call }
    {
        match frames {
            [] => self.clear(),
            [one] => self.keep_one(one),
            [one, two, ..] => self.keep_two(one, two),
        }
    }

    // Keeps a frame.
    fn keep_one(&mut self, one: &Frame)
        ensures { self.new.frames ≡ one.now.items ∷ [] }
    {
        self.count = 0;
        self.room.put(one.as_slice(), &[]);
        self.count = 1;
    }

    // Keeps two frames.
    fn keep_two(&mut self, one: &Frame, two: &Frame)
        ensures { self.new.frames ≡ one.now.items ∷ two.now.items ∷ [] }
    {
        self.count = 0;
        self.room.put(one.as_slice(), two.as_slice());
        self.first = one.len();
        self.count = 2;
    }

    // What the services do with a frame that the device has handled, and that left no frame in its outbox: they write theirs there, and it is
    // moved from there.
    pub(crate) fn attend(
        &mut self,
        device: &Device<RecordedFlash<4096>, 4096>,
        services: &mut DeviceServices,
        octets: &[u8],
        note: Note,
        outbox: &mut Outbox,
    ) -> Attended
        requires { is_dropped note ≡ false → disputes services.old octets.now ≡ false }
        ensures beside { record { services = services.new; sent = self.new.frames; note = note_in result }
            ≡ beside device.now.station.identity services.old device.now.live.values note (Framed (record { items = octets.now })) }
        ensures call { joined_in result self.new.call
            ≡ joined_beside services.old device.now.live.values note (Framed (record { items = octets.now })) }
    {
        self.count = 0;
        let attended = follow_frame(
            device,
            services,
            octets,
            note,
            false,
            outbox,
            &mut self.room,
        );
        self.keep(outbox.as_slice());
        attended
    }

    // What the services do in a unit of time that passes at the device, whose outbox has no frame: they write theirs there, and it is moved
    // from there.
    pub(crate) fn follow_unit(
        &mut self,
        device: &Device<RecordedFlash<4096>, 4096>,
        services: &mut DeviceServices,
        outbox: &mut Outbox,
    )
        requires { 1 ≤ services_due device.now.live.values services.old }
        ensures { TicksBeside 1 device.now.station.identity device.now.live.values services.old services.new self.new.frames }
    {
        follow_units(device, services, 1, outbox);
        self.keep(outbox.as_slice());
    }
}

// The first of two parts of these octets, which ends at this place, or the second one.
fn one_of(octets: &[u8], first: usize, index: usize) -> &[u8]
    requires fits { (first ≤ 1518) × (first ≤ length octets.now) × (length octets.now ≤ first + 1518) }
    requires there { index < 2 }
    ensures at { slice_get (take first octets.now ∷ drop first octets.now ∷ []) index ≡ Some result.now }
    ensures short { length result.now ≤ 1518 }
{
    if index == 0 {
        &octets[..first]
    } else {
        &octets[first..]
    }
}
