//! I&M0: the identification of a device, set at the factory.
ghost use Rattle.std.specs.Prelude.{◌≡◌, ◌+◌, ◌≤◌, ◌++◌, List, ℕ};
ghost use Rattle.arrayvec.specs.ArrayVec.{array_vec_len};
ghost use Rattle.wire.specs.Codec.{Gives};
ghost use Rattle.wire.specs.blocks.Fields.{body};
ghost use Rattle.record_blocks.specs.Im0.{im0, im0_order, im0_revision};

use arrayvec::ArrayVec;
use wire::{BlockFault, ended, len_fields, put_fields, read_fields, version_at};

/// 0x0020: I&M0 (IEC 61158-6-10, 5.2.3.22), with IM_RevisionCounter 0, IM_Version 1.1 and an IM_Supported of I&M1 to
/// I&M4.
#[derive(Clone, Copy)]
pub struct Im0 {
    /// VendorIDHigh and VendorIDLow.
    pub vendor_id: u16,
    /// OrderID, padded with spaces.
    pub order_id: [u8; 20],
    /// IM_Serial_Number, padded with spaces.
    pub im_serial_number: [u8; 16],
    /// IM_Hardware_Revision.
    pub im_hardware_revision: u16,
    /// IM_Software_Revision: a letter and three numbers.
    pub im_software_revision: [u8; 4],
    /// IM_Profile_ID.
    pub im_profile_id: u16,
    /// IM_Profile_Specific_Type.
    pub im_profile_specific_type: u16,
}

/// The vendor, order and serial number of a device.
#[derive(Clone, Copy)]
struct Im0Order {
    vendor_id: u16,
    order_id: [u8; 20],
    im_serial_number: [u8; 16],
}

macro_rules! im0_order_fields {
    ($with:ident $args:tt) => {
        $with! { $args Im0Order {
            vendor_id: u16,
            order_id: octets 20,
            im_serial_number: octets 16,
        } }
    };
}

/// The revisions and the profile of a device.
#[derive(Clone, Copy)]
struct Im0Revision {
    im_hardware_revision: u16,
    im_software_revision: [u8; 4],
    im_profile_id: u16,
    im_profile_specific_type: u16,
}

macro_rules! im0_revision_fields {
    ($with:ident $args:tt) => {
        $with! { $args Im0Revision {
            im_hardware_revision: u16,
            im_software_revision: octets 4,
            _: fixed 0 9,
            im_profile_id: u16,
            im_profile_specific_type: u16,
            _: fixed 0x0101 12,
            _: fixed 0x003E 13,
        } }
    };
}

/// Reads the fields from VendorIDHigh to IM_Serial_Number. Returns them and the rest.
#[tactic(auto, unfolding(crate::specs::Im0::im0_order))]
fn im0_order_at(bytes: &[u8]) -> Result<(Im0Order, &[u8]), BlockFault>
    ensures { Gives (λ x. (x.0, x.1.now)) result (im0_order.read bytes.now) }
{
    im0_order_fields!(read_fields[bytes])
}

/// Reads the fields from IM_Hardware_Revision to IM_Supported. Returns them and the rest.
#[tactic(auto, unfolding(crate::specs::Im0::im0_revision))]
fn im0_revision_at(bytes: &[u8]) -> Result<(Im0Revision, &[u8]), BlockFault>
    ensures { Gives (λ x. (x.0, x.1.now)) result (im0_revision.read bytes.now) }
{
    im0_revision_fields!(read_fields[bytes])
}

/// Reads the part of an I&M0 that BlockLength counts: the version and the fields, to the last octet.
#[tactic(auto, unfolding(wire::specs::blocks::Fields::body, crate::specs::Im0::im0))]
pub fn im0_at(bytes: &[u8]) -> Result<Im0, BlockFault>
    ensures { Gives (λ x. x) result ((body im0).read bytes.now) }
{
    let rest = version_at(bytes)?;
    let (order, rest) = im0_order_at(rest)?;
    let (revision, rest) = im0_revision_at(rest)?;
    ended(rest)?;
    let order_id = order.order_id;
    let im_serial_number = order.im_serial_number;
    let im_software_revision = revision.im_software_revision;
    Ok(Im0 {
        vendor_id: order.vendor_id,
        order_id,
        im_serial_number,
        im_hardware_revision: revision.im_hardware_revision,
        im_software_revision,
        im_profile_id: revision.im_profile_id,
        im_profile_specific_type: revision.im_profile_specific_type,
    })
}

/// Appends the fields of an I&M0. There must be room.
#[tactic(auto, unfolding(crate::specs::Im0::im0, crate::specs::Im0::im0_order, crate::specs::Im0::im0_revision))]
pub fn put_im0<const N: usize>(out: &mut ArrayVec<u8, N>, value: &Im0)
    requires { array_vec_len out.old + im0.size value.now ≤ N }
    ensures items { (tail : List ℕ) → out.new.items ++ tail ≡ out.old.items ++ im0.write value.now tail }
    ensures len { array_vec_len out.new ≡ array_vec_len out.old + im0.size value.now }
    ensures fits { im0.Fits value.now }
{
    im0_order_fields!(put_fields [out, value]);
    im0_revision_fields!(put_fields [out, value]);
}

/// The number of octets that the fields of an I&M0 take.
#[tactic(auto, unfolding(crate::specs::Im0::im0, crate::specs::Im0::im0_order, crate::specs::Im0::im0_revision))]
pub fn im0_len(value: &Im0) -> usize
    ensures size { result ≡ im0.size value.now }
    ensures few { result ≡ 54 }
{
    let order = im0_order_fields!(len_fields[value]);
    order + im0_revision_fields!(len_fields[value])
}
