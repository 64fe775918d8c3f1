//! The fields of each block that are used.
ghost use Rattle.std.specs.Prelude.{◌≡◌, ◌≤◌, ◌*◌};
ghost use Rattle.connects.specs.requests.Request.{alarm_of, ar_of, given_id, iocr_of, leaves_choice, IsAlarmCr, IsAr, IsIocr};

use arrayvec::ArrayVec;
use block_codec::{AlarmCrBlockReq, ArBlockReq, IocrBlockReq, IocrType, RtClass};
use cyclic_data::Layout;
use pn_values::Mac;
use wire::Uuid;

/// The application relation that a Connect asks for.
#[derive(Drop)]
pub struct Ar {
    /// ARUUID.
    pub uuid: Uuid,
    /// SessionKey.
    pub session_key: u16,
    /// CMInitiatorMacAdd: the MAC address of the controller.
    pub initiator: Mac,
    /// CMInitiatorObjectUUID.
    pub object: Uuid,
    /// ARProperties.
    pub properties: u32,
    /// CMInitiatorActivityTimeoutFactor, 1 to 1,000, in units of 100 ms.
    pub timeout_factor: u16,
    /// CMInitiatorStationName.
    pub name: ArrayVec<u8, 240>,
}

/// A communication relation of cyclic frames.
#[derive(Drop)]
pub struct Iocr {
    /// IOCRReference.
    pub reference: u16,
    /// The real-time class in IOCRProperties.
    pub class: RtClass,
    /// The FrameID that is assigned, one of cyclic frames. If an output leaves the choice to the device, it is one of
    /// its class.
    pub frame_id: u16,
    /// Whether the Connect leaves the choice of the FrameID to the device: of outputs, by 0xFFFF.
    pub device_chooses: bool,
    /// SendClockFactor, 1 to 128, in units of 31.25 microseconds.
    pub send_clock_factor: u16,
    /// ReductionRatio, 1 to 512.
    pub reduction_ratio: u16,
    /// DataHoldFactor, 1 to 7,680.
    pub data_hold_factor: u16,
    /// IOCRTagHeader.
    pub tag: u16,
    /// The place of each submodule.
    pub layout: Layout,
}

/// The communication relation of alarms.
#[derive(Clone, Copy)]
pub struct AlarmCr {
    /// RTATimeoutFactor, at least 1, in units of 100 ms.
    pub timeout_factor: u16,
    /// RTARetries, 1 to 15.
    pub retries: u16,
    /// LocalAlarmReference: the controller's endpoint.
    pub reference: u16,
    /// AlarmCRTagHeaderHigh.
    pub tag_high: u16,
    /// AlarmCRTagHeaderLow.
    pub tag_low: u16,
}

impl Ar {
    /// An empty value, to be overwritten.
    pub(crate) fn blank() -> Ar
        ensures { IsAr result }
    {
        Ar {
            uuid: Uuid::from_bytes([0; 16]),
            session_key: 0,
            initiator: Mac { octets: [0; 6] },
            object: Uuid::from_bytes([0; 16]),
            properties: 0,
            timeout_factor: 1,
            name: ArrayVec::new(),
        }
    }
}

impl AlarmCr {
    /// An empty value, to be overwritten.
    pub(crate) fn blank() -> AlarmCr
        ensures { IsAlarmCr result }
    {
        AlarmCr {
            timeout_factor: 1,
            retries: 1,
            reference: 0,
            tag_high: 0,
            tag_low: 0,
        }
    }
}

/// The fields of an ARBlockReq that are used.
pub(crate) fn ar_of(block: ArBlockReq) -> Ar
    ensures { result ≡ ar_of block }
{
    Ar {
        uuid: block.ar_uuid,
        session_key: block.session_key,
        initiator: block.cm_initiator_mac_add,
        object: block.cm_initiator_object_uuid,
        properties: block.ar_properties,
        timeout_factor: block.cm_initiator_activity_timeout_factor,
        name: block.cm_initiator_station_name,
    }
}

/// The fields of an AlarmCRBlockReq that are used.
pub(crate) fn alarm_of(block: &AlarmCrBlockReq) -> AlarmCr
    ensures { result ≡ alarm_of block.now }
{
    AlarmCr {
        timeout_factor: block.rta_timeout_factor,
        retries: block.rta_retries,
        reference: block.local_alarm_reference,
        tag_high: block.tag_header_high,
        tag_low: block.tag_header_low,
    }
}

/// The FrameID that is assigned if an IOCRBlockReq of this type and class asks for `id`.
fn given_id(iocr_type: IocrType, class: RtClass, id: u16) -> u16
    ensures { result ≡ given_id iocr_type class id }
{
    match (iocr_type, class) {
        // 0xFFFF leaves the FrameID of outputs to the device, which chooses the first of the class.
        (IocrType::Output, RtClass::Class1) if id == 0xFFFF => 0xC000,
        (IocrType::Output, RtClass::Class2) if id == 0xFFFF => 0x8000,
        _ => id,
    }
}

/// Whether an IOCRBlockReq of this type that asks for `id` leaves the choice of the FrameID to the device.
fn leaves_choice(iocr_type: IocrType, id: u16) -> bool
    ensures { result ≡ leaves_choice iocr_type id }
{
    match iocr_type {
        IocrType::Input => false,
        IocrType::Output => id == 0xFFFF,
    }
}

impl Iocr {
    /// An empty value, to be overwritten.
    pub(crate) fn blank() -> Iocr
        ensures { IsIocr result }
    {
        Iocr {
            reference: 0,
            class: RtClass::Class1,
            frame_id: 0x8000,
            device_chooses: false,
            send_clock_factor: 1,
            reduction_ratio: 1,
            data_hold_factor: 1,
            tag: 0,
            layout: Layout::new(),
        }
    }

    /// Takes all fields of an IOCRBlockReq except the layout, which is not changed.
    pub(crate) fn fill(&mut self, block: &IocrBlockReq)
        ensures { self.new ≡ iocr_of block.now self.old.layout }
    {
        self.reference = block.iocr_reference;
        self.class = block.iocr_properties;
        self.frame_id = given_id(block.iocr_type, block.iocr_properties, block.frame_id);
        self.device_chooses = leaves_choice(block.iocr_type, block.frame_id);
        self.send_clock_factor = block.send_clock_factor;
        self.reduction_ratio = block.reduction_ratio;
        self.data_hold_factor = block.data_hold_factor;
        self.tag = block.iocr_tag_header;
    }

    /// The interval from one frame to the next, SendClockFactor times ReductionRatio, in units of 31.25 microseconds:
    /// at most 65,536.
    #[tactic(auto, using(crate::proofs::RequestsAccepted::interval_few))]
    pub fn interval(&self) -> u32
        requires { IsIocr self.now }
        ensures value { result ≡ self.now.send_clock_factor * self.now.reduction_ratio }
        ensures few { result ≤ 65536 }
    {
        u32::from(self.send_clock_factor) * u32::from(self.reduction_ratio)
    }
}
