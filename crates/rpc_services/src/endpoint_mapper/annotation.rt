//! The annotation of the entry: what the device is, as text.
ghost use Rattle.std.specs.Prelude.{◌≡◌, ◌+◌, ◌≤◌, ◌<◌, ◌∷◌, [], ◌++◌};
ghost use Rattle.arrayvec.specs.ArrayVec.{array_vec_len};
ghost use Rattle.rpc_services.specs.endpoint_mapper.Annotation.{annotation, digit, in_five, in_three, software_text, type_text};

use crate::endpoint_mapper::mapper::MapperAnswer;
use pn_values::Identity;
use wire::append;

/// As many spaces as the longest station type has octets.
static SPACES: [u8; 25] = [b' '; 25];

/// The decimal digit of this unit, or a space if the number is less than the unit.
fn digit(unit: u16, number: u16) -> u8
    requires { 0 < unit }
    ensures { result ≡ digit unit number }
{
    if number < unit {
        b' '
    } else {
        48 + (number / unit % 10) as u8
    }
}

/// A number as decimal text, right-aligned in three places.
fn in_three(number: u8) -> [u8; 3]
    ensures { result ≡ in_three number }
{
    let wide = u16::from(number);
    [digit(100, wide), digit(10, wide), 48 + number % 10]
}

/// A number as decimal text, right-aligned in five places.
fn in_five(number: u16) -> [u8; 5]
    ensures { result ≡ in_five number }
{
    [
        digit(10_000, number),
        digit(1_000, number),
        digit(100, number),
        digit(10, number),
        48 + (number % 10) as u8,
    ]
}

/// Appends the station type, padded with spaces to 25.
fn put_type(out: &mut MapperAnswer, identity: &Identity)
    requires { array_vec_len out.old + 25 ≤ 296 }
    ensures items { out.new.items ≡ out.old.items ++ type_text identity.now }
    ensures len { array_vec_len out.new ≡ array_vec_len out.old + 25 }
{
    append(out, identity.station_type.as_slice());
    append(out, &SPACES[identity.station_type.len()..]);
}

/// Appends SoftwareRevision as text.
fn put_software(out: &mut MapperAnswer, revision: [u8; 4])
    requires { array_vec_len out.old + 10 ≤ 296 }
    ensures items { out.new.items ≡ out.old.items ++ software_text revision }
    ensures len { array_vec_len out.new ≡ array_vec_len out.old + 10 }
{
    append(out, &[revision[0]]);
    append(out, &in_three(revision[1]));
    append(out, &in_three(revision[2]));
    append(out, &in_three(revision[3]));
}

/// Appends the annotation.
#[tactic(auto, unfolding(crate::specs::endpoint_mapper::Annotation::annotation))]
pub(crate) fn put_annotation(out: &mut MapperAnswer, identity: &Identity)
    requires { array_vec_len out.old + 64 ≤ 296 }
    ensures items { out.new.items ≡ out.old.items ++ annotation identity.now }
    ensures len { array_vec_len out.new ≡ array_vec_len out.old + 64 }
{
    put_type(out, identity);
    append(out, b" ");
    append(out, &identity.order_id);
    append(out, b" ");
    append(out, &in_five(identity.hardware_revision));
    append(out, b" ");
    put_software(out, identity.software_revision);
    append(out, &[0]);
}
