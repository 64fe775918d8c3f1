//! A submodule as a host describes it where it plugs it.
ghost use Rattle.std.specs.Prelude.{◌≡◌, ◌+◌, ◌≤◌, IfSome, drop, length, option_map};
ghost use Rattle.byteorder.specs.Endian.{big_number};
ghost use Rattle.device_abi.specs.Submodules.{plug_in, record_at, records_in};

use arrayvec::ArrayVec;
use byteorder::{BigEndian, ByteOrder};
use pn_values::{ParameterRecord, RealSubmodule};

// The ident number of the module and the submodule in this subslot that these octets describe, if they describe one.
pub(crate) fn plug_in(subslot: u16, given: &[u8]) -> Option<(u32, RealSubmodule)>
    ensures { result ≡ plug_in subslot given.now }
{
    let parameters = records_in(given)?;
    Some((
        BigEndian::read_u32(given),
        RealSubmodule {
            subslot,
            ident: BigEndian::read_u32(&given[4..]),
            input: number_at(given, 8),
            output: number_at(given, 10),
            parameters,
        },
    ))
}

// Its parameter records, if there are as many octets as a submodule with none, one or two of them has.
fn records_in(given: &[u8]) -> Option<ArrayVec<ParameterRecord, 2>>
    ensures records { option_map (λ records. records.items) result ≡ records_in given.now }
    ensures long { IfSome result (λ _. 12 ≤ length given.now) }
{
    let mut records = ArrayVec::new();
    match given.len() {
        12 => {}
        16 => records.push(record_at(given, 12)),
        20 => {
            records.push(record_at(given, 12));
            records.push(record_at(given, 16));
        }
        _ => return None,
    }
    Some(records)
}

// The parameter record in four octets from this place on.
fn record_at(given: &[u8], place: usize) -> ParameterRecord
    requires { place + 4 ≤ length given.now }
    ensures { result ≡ record_at (drop place given.now) }
{
    ParameterRecord {
        index: number_at(given, place),
        length: number_at(given, place + 2),
    }
}

// The number in two octets from this place on.
fn number_at(given: &[u8], place: usize) -> u16
    requires { place + 2 ≤ length given.now }
    ensures { result ≡ big_number 2 (drop place given.now) }
{
    BigEndian::read_u16(&given[place..])
}
