//! All that is beside a controller in a station.
ghost use Rattle.std.specs.Prelude.{◌≡◌, ◌+◌, ◌<◌, ◌≤◌, ◌++◌, [], ◌∷◌, if◌then◌else◌, option_map};
ghost use Rattle.arrayvec.specs.ArrayVec.{array_vec_len};
ghost use Rattle.frame_codec.specs.Outbox.{boxed};
ghost use Rattle.lldp.specs.Announcement.{announcement as announcement_of};
ghost use Rattle.lldp.specs.State.{Known, is_sending};
ghost use Rattle.lldp.specs.Views.{peer_as};
ghost use Rattle.services.specs.Answer.{answer_to};
ghost use Rattle.services.specs.State.{frames_in};
ghost use Rattle.controller_station.specs.Beside.{NoneSends, aged, beside_at, due_in, heard, met, overheard, said_of, sent_by_tick, ticked, ticks_of};

use frame_codec::{Outbox, read_real_time};
use lldp::{Neighbour, Neighbours, announcement};
use plans::Controller;
use pn_values::StationName;
use services::{Role, Services};
use std::marker::Model;

/// All that is beside a controller: the services of its IP address, and its neighbour by LLDP. Clauses see it as one machine.
#[derive(Drop)]
pub struct ControllerServices {
    ip: Services,
    near: Neighbours,
    // The name of the controller.
    name: StationName,
}

impl Model for ControllerServices {
    ghost use Rattle.controller_station.specs.Beside.{Beside};

    ghost Value = { Beside };

    ghost view = { λ beside. record { ip = beside.ip; near = beside.near; name = beside.name } };
}

impl ControllerServices {
    /// What is beside this controller at its start. It announces the IP address, and itself by LLDP.
    pub fn new(controller: &Controller) -> ControllerServices
        ensures { result ≡ beside_at controller.now }
    {
        ControllerServices {
            ip: Services::new(Role::Controller, controller.mac, controller.address),
            near: Neighbours::new(controller.mac),
            name: controller.name.copy(),
        }
    }

    /// How many frames of ARP came from another station that uses the controller's address.
    pub fn conflicts(&self) -> u64
        ensures { result ≡ self.now.ip.conflicts }
    {
        self.ip.conflicts()
    }

    /// The neighbour that is known.
    pub fn neighbour(&self) -> Option<&Neighbour>
        ensures { option_map (λ n. peer_as n.now) result ≡ option_map (λ (k : Known). k.peer) self.now.near.known }
    {
        self.near.neighbour()
    }

    // ---- frames

    /// It hears a frame that the controller did not answer, and appends its answer to an empty outbox.
    #[inline(always)]
    pub fn hear(&mut self, bytes: &[u8], outbox: &mut Outbox)
        requires empty { outbox.old.items ≡ [] }
        ensures state { self.new ≡ heard self.old bytes.now }
        ensures frames { boxed outbox.new ≡ frames_in (answer_to self.old.ip bytes.now) }
    {
        match read_real_time(bytes) {
            // Most frames are cyclic data, which concerns none of these: they are not read twice.
            Some(_) => {}
            None => self.serve(bytes, outbox),
        }
    }

    /// It hears a frame that is not of real-time data.
    #[inline(never)]
    fn serve(&mut self, bytes: &[u8], outbox: &mut Outbox)
        requires empty { outbox.old.items ≡ [] }
        ensures state { self.new ≡ overheard (met self.old bytes.now) bytes.now }
        ensures frames { boxed outbox.new ≡ frames_in (answer_to self.old.ip bytes.now) }
    {
        self.meet(bytes);
        self.answer(bytes, outbox);
    }

    /// It hears a message of a neighbour, if the frame carries one.
    fn meet(&mut self, bytes: &[u8])
        ensures { self.new ≡ met self.old bytes.now }
    {
        let _ = self.near.hear(bytes);
    }

    /// The services of the IP address hear a frame, and their answer is appended.
    fn answer(&mut self, bytes: &[u8], outbox: &mut Outbox)
        requires empty { outbox.old.items ≡ [] }
        ensures state { self.new ≡ overheard self.old bytes.now }
        ensures frames { boxed outbox.new ≡ frames_in (answer_to self.old.ip bytes.now) }
    {
        if let Some(frame) = self.ip.hear(bytes) {
            outbox.put_copy(&frame);
        }
    }

    // ---- ticks

    /// Handles a tick, which is 31.25 microseconds. Appends the frames to send to the outbox: at most one of the IP address,
    /// and LLDP.
    pub fn tick(&mut self, outbox: &mut Outbox)
        requires room { array_vec_len outbox.old ≤ 2 }
        ensures state { self.new ≡ ticked self.old }
        ensures frames { boxed outbox.new ≡ boxed outbox.old ++ sent_by_tick self.old }
    {
        let announces = self.near.is_sending();
        self.ip.tick(outbox);
        self.announce_if(announces, outbox);
        self.age();
    }

    /// A tick passes at the neighbour: it is forgotten if its time is over.
    fn age(&mut self)
        ensures { self.new ≡ aged self.old }
    {
        let _ = self.near.tick();
    }

    /// Appends the frame of LLDP to the outbox, if it is due.
    fn announce_if(&self, announces: bool, outbox: &mut Outbox)
        requires { array_vec_len outbox.old < 4 }
        ensures { boxed outbox.new ≡ boxed outbox.old ++ (if announces then announcement_of (said_of self.now) ∷ [] else []) }
    {
        if announces {
            self.announce(outbox);
        }
    }

    /// Appends the frame of LLDP to the outbox.
    #[inline(never)]
    fn announce(&self, outbox: &mut Outbox)
        requires { array_vec_len outbox.old < 4 }
        ensures { boxed outbox.new ≡ boxed outbox.old ++ announcement_of (said_of self.now) ∷ [] }
    {
        let frame = announcement(self.near.mac(), &self.name, self.ip.address(), None);
        outbox.put_copy(&frame);
    }

    /// The number of ticks up to and including the next one that sends a frame or forgets the neighbour, unless something is heard.
    pub fn due_in(&self) -> u32
        ensures value { result ≡ due_in self.now }
        ensures some { 0 < result }
    {
        self.ip.due_in().min(self.near.due_in())
    }

    /// Lets ticks pass that send nothing and forget no neighbour: fewer than `due_in` returns.
    pub fn pass(&mut self, ticks: u32)
        requires { ticks < due_in self.old }
        // It has the same effect as that many ticks, one by one, and none of them sends a frame.
        ensures state { self.new ≡ ticks_of ticks self.old }
        ensures none { NoneSends ticks self.old }
        // What is due comes nearer by at most these ticks.
        ensures due { due_in self.old ≤ ticks + due_in self.new }
    {
        self.ip.pass(ticks);
        self.near.pass(ticks);
    }
}
