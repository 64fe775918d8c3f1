use crate::Mac;
use arrayvec::ArrayVec;

/// The fixed identity of a device: its DCP identity (IEC 61158-6-10, 4.3.1.4) and its I&M0 (5.2.3.22).
#[derive(Drop)]
pub struct Identity {
    /// The MAC address.
    pub mac: Mac,
    /// DeviceVendorValue: the station type, at most 25 bytes of text.
    pub station_type: ArrayVec<u8, 25>,
    pub vendor_id: u16,
    pub device_id: u16,
    /// DeviceInstance.
    pub instance: u16,
    /// OrderID, padded with spaces.
    pub order_id: [u8; 20],
    /// SerialNumber, padded with spaces.
    pub serial_number: [u8; 16],
    pub hardware_revision: u16,
    /// SoftwareRevision: a letter and three numbers.
    pub software_revision: [u8; 4],
    pub profile_id: u16,
    pub profile_specific_type: u16,
}
