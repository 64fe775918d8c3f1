//! What a port reports.
ghost use Rattle.std.specs.Prelude.{◌≡◌, ◌≤◌, None, Some, IfOk, IfSome, MatchResult, length, option_map};
ghost use Rattle.relations.specs.Exchanged.{output_in, provider_in};
ghost use Rattle.relations.specs.RelationState.{passed_of, phase_of, taken_of};
ghost use Rattle.relations.specs.Outputs.{output_of};
ghost use Rattle.asked_records.specs.Asked.{seen, seen_in};
ghost use Rattle.device_station.specs.port.State.{IsRead, IsUnreported, closed};

use crate::port::{Port, Refusal};
use asked_records::AskedRecord;
use expected_places::ExpectedPlace;
use pn_values::Settings;
use records::TakenRecord;
use relations::{Phase, ProviderStatus, ReceivedValue};

impl Port {
    /// The running settings.
    pub fn running(&self) -> Result<&Settings, Refusal>
        ensures { IsRead (closed self.now.port.stage) (λ settings. settings.now ≡ self.now.port.device.live.values.running) result }
    {
        match self.open() {
            Ok(device) => Ok(device.running()),
            Err(refusal) => Err(refusal),
        }
    }

    /// The settings that a restart finds, once all work is fetched and carried out.
    pub fn stored(&self) -> Result<&Settings, Refusal>
        ensures { IsRead (closed self.now.port.stage) (λ settings. settings.now ≡ self.now.port.device.live.values.stored) result }
    {
        match self.open() {
            Ok(device) => Ok(device.stored()),
            Err(refusal) => Err(refusal),
        }
    }

    /// The number of remaining commits, once all work is fetched and carried out: that many further ones are accepted.
    /// With 0 the chip stores nothing more.
    pub fn left(&self) -> Result<u32, Refusal>
        ensures { IsRead (closed self.now.port.stage) (λ left. left ≡ self.now.port.device.live.values.room) result }
    {
        match self.open() {
            Ok(device) => Ok(device.left()),
            Err(refusal) => Err(refusal),
        }
    }

    /// The phase of the application relation, if there is one.
    pub fn phase(&self) -> Result<Option<Phase>, Refusal>
        ensures { IsRead (closed self.now.port.stage) (λ phase. phase ≡ phase_of self.now.port.device.live.rest.link) result }
    {
        match self.open() {
            Ok(device) => Ok(device.phase()),
            Err(refusal) => Err(refusal),
        }
    }

    /// The places of the relation: the submodules that its Connect expects, in its order, and how far each is since something was
    /// pulled or plugged there. `None` if there is no relation.
    pub fn expected(&self) -> Result<Option<&[ExpectedPlace]>, Refusal>
        ensures { IsRead (closed self.now.port.stage) (λ expected. option_map (λ places. places.now) expected
            ≡ option_map (λ link. link.plugs.places) self.now.port.device.live.rest.link) result }
    {
        match self.open() {
            Ok(device) => Ok(device.expected()),
            Err(refusal) => Err(refusal),
        }
    }

    /// The number of units for which the lamp still flashes.
    pub fn lamp(&self) -> Result<u32, Refusal>
        ensures { IsRead (closed self.now.port.stage) (λ lamp. lamp ≡ self.now.port.device.live.rest.lamp) result }
    {
        match self.open() {
            Ok(device) => Ok(device.lamp()),
            Err(refusal) => Err(refusal),
        }
    }

    /// The parameter records that the relation accepted, in order.
    pub fn taken(&self) -> Result<&[TakenRecord], Refusal>
        ensures { IsRead (closed self.now.port.stage) (λ taken. taken.now ≡ taken_of self.now.port.device.live.rest.link) result }
    {
        match self.open() {
            Ok(device) => Ok(device.taken()),
            Err(refusal) => Err(refusal),
        }
    }

    /// The last parameter records that the relation passed on and does not keep, at most 16, the oldest first.
    pub fn passed(&self) -> Result<&[TakenRecord], Refusal>
        ensures { IsRead (closed self.now.port.stage) (λ passed. passed.now ≡ (passed_of self.now.port.device.live.rest.link).last) result }
    {
        match self.open() {
            Ok(device) => Ok(device.passed()),
            Err(refusal) => Err(refusal),
        }
    }

    /// How many parameter records the relation passed on and does not keep, modulo 2^32.
    pub fn passed_on(&self) -> Result<u32, Refusal>
        ensures { IsRead (closed self.now.port.stage) (λ count. count ≡ (passed_of self.now.port.device.live.rest.link).count) result }
    {
        match self.open() {
            Ok(device) => Ok(device.passed_on()),
            Err(refusal) => Err(refusal),
        }
    }

    /// What is asked of the application, if something is.
    pub fn asked(&self) -> Result<Option<AskedRecord<'_>>, Refusal>
        ensures { IsRead (closed self.now.port.stage) (λ asked. option_map seen asked ≡ seen_in self.now.port.device.live.rest.asked) result }
    {
        match self.open() {
            Ok(device) => Ok(device.asked()),
            Err(refusal) => Err(refusal),
        }
    }

    /// What the controller says of the output of a submodule in its last accepted frame. `None` if there is no relation, if
    /// the output has no place in it, or if no frame was accepted yet.
    pub fn provider(&self, slot: u16, subslot: u16) -> Result<Option<ProviderStatus>, Refusal>
        ensures { IsRead (closed self.now.port.stage) (λ status. status ≡ provider_in slot subslot self.now.port.device.live.rest.link) result }
    {
        match self.open() {
            Ok(device) => Ok(device.provider(slot, subslot)),
            Err(refusal) => Err(refusal),
        }
    }

    /// The output of a submodule in the controller's last accepted frame, and what the controller says of it. `None` if there is no
    /// relation, if the output has no place in it, or if no frame was accepted yet.
    pub fn received_value(
        &self,
        slot: u16,
        subslot: u16,
    ) -> Result<Option<ReceivedValue<'_>>, Refusal>
        ensures status { MatchResult result (λ found. (closed self.now.port.stage ≡ None)
            × (option_map (λ value. value.status) found ≡ provider_in slot subslot self.now.port.device.live.rest.link))
            (λ refusal. closed self.now.port.stage ≡ Some refusal) }
        ensures octets { IfOk result (λ found. IfSome found (λ value. output_in slot subslot self.now.port.device.live.rest.link ≡ Some value.octets.now)) }
        ensures short { IfOk result (λ found. IfSome found (λ value. length value.octets.now ≤ 1440)) }
    {
        match self.open() {
            Ok(device) => Ok(device.received_value(slot, subslot)),
            Err(refusal) => Err(refusal),
        }
    }

    /// The output of a submodule. Returns NoSlot if no submodule with an output is plugged there.
    pub fn output(&self, slot: u16, subslot: u16) -> Result<&[u8], Refusal>
        ensures value { let value = output_of self.now.port.device.live.rest.real slot subslot
            (output_in slot subslot self.now.port.device.live.rest.link) in
            MatchResult result (λ reported. (closed self.now.port.stage ≡ None)
            × (value ≡ Some reported.now)) (λ refusal. IsUnreported (closed self.now.port.stage) value refusal) }
        ensures short { IfOk result (λ value. length value.now ≤ 1440) }
    {
        match self.open() {
            Ok(device) => match device.output(slot, subslot) {
                Some(value) => Ok(value),
                None => Err(Refusal::NoSlot),
            },
            Err(refusal) => Err(refusal),
        }
    }
}
