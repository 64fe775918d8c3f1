//! The bodies of the answers.
ghost use Rattle.std.specs.Prelude.{◌≡◌, ◌+◌, ◌≤◌, ◌++◌};
ghost use Rattle.arrayvec.specs.ArrayVec.{array_vec_len};
ghost use Rattle.rpc_services.specs.endpoint_mapper.Entry.{counts, ended, entry, found, freed, object_of, sent_object, told_handle, tower};

use crate::endpoint_mapper::annotation::put_annotation;
use crate::endpoint_mapper::mapper::MapperAnswer;
use pn_values::Identity;
use rpc_core::{Uuid, put_long, sent_uuid};
use wire::append;

/// The floors of the tower, up to the address: the device interface in version 1, the transfer syntax NDR
/// (8A885D04-1CEB-11C9-9FE8-08002B104860) in version 2, connectionless RPC, UDP port 34964, and IP.
static FLOORS: [u8; 71] = [
    0x05, 0x00, 0x13, 0x00, 0x0D, 0x01, 0x00, 0xA0, 0xDE, 0x97, 0x6C, 0xD1, 0x11, 0x82, 0x71, 0x00,
    0xA0, 0x24, 0x42, 0xDF, 0x7D, 0x01, 0x00, 0x02, 0x00, 0x00, 0x00, 0x13, 0x00, 0x0D, 0x04, 0x5D,
    0x88, 0x8A, 0xEB, 0x1C, 0xC9, 0x11, 0x9F, 0xE8, 0x08, 0x00, 0x2B, 0x10, 0x48, 0x60, 0x02, 0x00,
    0x02, 0x00, 0x00, 0x00, 0x01, 0x00, 0x0A, 0x02, 0x00, 0x00, 0x00, 0x01, 0x00, 0x08, 0x02, 0x00,
    0x88, 0x94, 0x01, 0x00, 0x09, 0x04, 0x00,
];

/// The status of a lookup that ended: `ept_s_not_registered`.
const NOT_REGISTERED: u32 = 0x16C9_A0D6;

/// The object UUID of a device: DEA00000-6C97-11D1-8271, then its instance, DeviceID and VendorID.
#[tactic(auto, unfolding(crate::specs::endpoint_mapper::Entry::object_of))]
fn object_of(identity: &Identity) -> Uuid
    ensures { result ≡ object_of identity.now }
{
    let instance = identity.instance.to_be_bytes();
    let device = identity.device_id.to_be_bytes();
    let vendor = identity.vendor_id.to_be_bytes();
    Uuid::from_bytes([
        0xDE,
        0xA0,
        0x00,
        0x00,
        0x6C,
        0x97,
        0x11,
        0xD1,
        0x82,
        0x71,
        instance[0],
        instance[1],
        device[0],
        device[1],
        vendor[0],
        vendor[1],
    ])
}

/// The object UUID as it is sent.
fn sent_object(little: bool, identity: &Identity) -> [u8; 16]
    ensures { result ≡ sent_object little identity.now }
{
    sent_uuid(little, object_of(identity))
}

/// Appends the handle of a lookup that was answered with the entry.
fn put_handle(out: &mut MapperAnswer, little: bool, identity: &Identity)
    requires { array_vec_len out.old + 20 ≤ 296 }
    ensures items { out.new.items ≡ out.old.items ++ told_handle little identity.now }
    ensures len { array_vec_len out.new ≡ array_vec_len out.old + 20 }
{
    put_long(out, little, 0);
    append(out, &sent_object(little, identity));
}

/// Appends the number of entries, MaxEntries, the offset and the number of entries again.
#[tactic(auto, unfolding(crate::specs::endpoint_mapper::Entry::counts))]
fn put_counts(out: &mut MapperAnswer, little: bool, count: u32, most: u32)
    requires { array_vec_len out.old + 16 ≤ 296 }
    ensures items { out.new.items ≡ out.old.items ++ counts little count most }
    ensures len { array_vec_len out.new ≡ array_vec_len out.old + 16 }
{
    put_long(out, little, count);
    put_long(out, little, most);
    put_long(out, little, 0);
    put_long(out, little, count);
}

/// Appends the entry.
#[tactic(auto, unfolding(crate::specs::endpoint_mapper::Entry::entry))]
fn put_entry(out: &mut MapperAnswer, little: bool, identity: &Identity)
    requires { array_vec_len out.old + 92 ≤ 296 }
    ensures items { out.new.items ≡ out.old.items ++ entry little identity.now }
    ensures len { array_vec_len out.new ≡ array_vec_len out.old + 92 }
{
    append(out, &sent_object(little, identity));
    put_long(out, little, 3);
    put_long(out, little, 0);
    put_long(out, little, 64);
    put_annotation(out, identity);
}

/// Appends the tower with its lengths and its padding.
#[tactic(auto, unfolding(crate::specs::endpoint_mapper::Entry::tower))]
fn put_tower(out: &mut MapperAnswer, little: bool, address: [u8; 4])
    requires { array_vec_len out.old + 84 ≤ 296 }
    ensures items { out.new.items ≡ out.old.items ++ tower little address }
    ensures len { array_vec_len out.new ≡ array_vec_len out.old + 84 }
{
    put_long(out, little, 75);
    put_long(out, little, 75);
    append(out, &FLOORS);
    append(out, &address);
    append(out, &[0]);
}

/// Appends the body of an answer with the entry.
#[tactic(auto, unfolding(crate::specs::endpoint_mapper::Entry::found))]
pub(crate) fn put_found(
    out: &mut MapperAnswer,
    little: bool,
    identity: &Identity,
    address: [u8; 4],
    most: u32,
)
    requires { array_vec_len out.old + 216 ≤ 296 }
    ensures items { out.new.items ≡ out.old.items ++ found little identity.now address most }
{
    put_handle(out, little, identity);
    put_counts(out, little, 1, most);
    put_entry(out, little, identity);
    put_tower(out, little, address);
    put_long(out, little, 0);
}

/// Appends the body of an answer without an entry.
#[tactic(auto, unfolding(crate::specs::endpoint_mapper::Entry::ended))]
pub(crate) fn put_ended(out: &mut MapperAnswer, little: bool, most: u32)
    requires { array_vec_len out.old + 40 ≤ 296 }
    ensures items { out.new.items ≡ out.old.items ++ ended little most }
{
    append(out, &[0; 20]);
    put_counts(out, little, 0, most);
    put_long(out, little, NOT_REGISTERED);
}

/// Appends the body of the answer to a handle that is freed.
#[tactic(auto, unfolding(crate::specs::endpoint_mapper::Entry::freed))]
pub(crate) fn put_freed(out: &mut MapperAnswer, little: bool)
    requires { array_vec_len out.old + 24 ≤ 296 }
    ensures items { out.new.items ≡ out.old.items ++ freed little }
{
    append(out, &[0; 20]);
    put_long(out, little, 0);
}
