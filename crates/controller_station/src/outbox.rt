//! The frames that one event of a controller in a station sends.
ghost use Rattle.std.specs.Prelude.{◌≡◌, ◌==◌, ◌≤◌, length, map, option_map};
ghost use Rattle.controller_station.specs.Served.{IsFrameAt, in_order, no_frames};

use frame_codec::{Frame, Outbox};
use std::marker::Model;

/// The frames that one event sends: at most four of the controller, and then at most four of what is beside it. Clauses see
/// it as two lists of frames.
#[derive(Drop)]
pub struct ServedOutbox {
    pub(crate) controller: Outbox,
    pub(crate) services: Outbox,
}

impl Model for ServedOutbox {
    ghost use Rattle.frame_codec.specs.Outbox.{boxed};
    ghost use Rattle.controller_station.specs.Served.{Frames};

    ghost Value = { Frames };

    ghost view = { λ outbox. record { controller = boxed outbox.controller; services = boxed outbox.services } };
}

impl ServedOutbox {
    /// An empty outbox.
    pub fn new() -> ServedOutbox
        ensures { result ≡ no_frames }
    {
        ServedOutbox {
            controller: Outbox::new(),
            services: Outbox::new(),
        }
    }

    /// The frames of the controller, in order. They are sent first.
    pub fn controller(&self) -> &[Frame]
        // The result is the frames of the controller.
        ensures value { map (λ frame. frame.items) result.now ≡ self.now.controller }
        // There are at most four frames.
        ensures most { length result.now ≤ 4 }
    {
        self.controller.as_slice()
    }

    /// The frames of what is beside the controller, in order. They are sent after those of the controller.
    pub fn services(&self) -> &[Frame]
        // The result is the frames of what is beside.
        ensures value { map (λ frame. frame.items) result.now ≡ self.now.services }
        // There are at most four frames.
        ensures most { length result.now ≤ 4 }
    {
        self.services.as_slice()
    }

    /// Whether there are no frames, of either.
    pub fn is_empty(&self) -> bool
        ensures { result ≡ (length (in_order self.now) == 0) }
    {
        self.len() == 0
    }

    /// The number of frames, of both.
    pub fn len(&self) -> usize
        ensures { result ≡ length (in_order self.now) }
    {
        self.controller.len() + self.services.len()
    }

    /// The frame at a place, in the order in which they are sent.
    pub fn get(&self, place: usize) -> Option<&Frame>
        ensures { IsFrameAt (in_order self.now) place (option_map (λ frame. frame.now.items) result) }
    {
        let first = self.controller.len();
        if place < first {
            return Some(&self.controller.as_slice()[place]);
        }
        if place - first < self.services.len() {
            return Some(&self.services.as_slice()[place - first]);
        }
        None
    }
}
