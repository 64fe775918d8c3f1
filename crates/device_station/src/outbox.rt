//! The frames that one event of a station sends.
ghost use Rattle.std.specs.Prelude.{◌≡◌, ◌≤◌, length, map};
ghost use Rattle.frame_codec.specs.Outbox.{boxed};
ghost use Rattle.device_station.specs.State.{no_frames};

use crate::JoinedCall;
use frame_codec::{Frame, Outbox};
use std::marker::Model;

/// The frames that one event sends, at most eight: at most four of the device, and then at most four of the services.
/// Clauses see it as two lists of frames.
#[derive(Drop)]
pub struct StationOutbox {
    pub(crate) device: Outbox,
    pub(crate) services: Outbox,
    // The place of a call that is joined in a step.
    pub(crate) call: JoinedCall,
}

impl Model for StationOutbox {
    ghost use Rattle.frame_codec.specs.Outbox.{boxed};
    ghost use Rattle.device_station.specs.State.{Frames};

    ghost Value = { Frames };

    ghost view = { λ outbox. record { device = boxed outbox.device; services = boxed outbox.services } };
}

impl StationOutbox {
    /// An empty outbox.
    pub fn new() -> StationOutbox
        ensures { result ≡ no_frames }
    {
        StationOutbox {
            device: Outbox::new(),
            services: Outbox::new(),
            call: JoinedCall::new(),
        }
    }

    /// The frames of the device, in order. They are sent first.
    pub fn device(&self) -> &[Frame]
        // The result is the frames of the device.
        ensures value { map (λ frame. frame.items) result.now ≡ self.now.device }
        // There are at most four frames.
        ensures most { length result.now ≤ 4 }
    {
        self.device.as_slice()
    }

    /// The frames of the services, in order. They are sent after those of the device.
    pub fn services(&self) -> &[Frame]
        // The result is the frames of the services.
        ensures value { map (λ frame. frame.items) result.now ≡ self.now.services }
        // There are at most four frames.
        ensures most { length result.now ≤ 4 }
    {
        self.services.as_slice()
    }
}
