// Identify: whether a station responds, and with what.
ghost use Rattle.std.specs.Prelude.{◌≡◌, ◌+◌, ◌≤◌, ◌%◌, [], ◌∷◌, ◌++◌, None, length, is_some, option_map};
ghost use Rattle.dcp_core.specs.Request.{asked};
ghost use Rattle.arrayvec.specs.ArrayVec.{array_vec_len};
ghost use Rattle.dcp_core.specs.Identify.{matches, is_value, kind_matches, value_of, valued, most_of, named_block, identify_bytes, suite_bytes, suite_info, known_options};
ghost use Rattle.dcp_core.specs.Bytes.{block_bytes};
ghost use Rattle.std.specs.Int.{w16, to_be_bytes};

use crate::bytes::{Answer, Blocks, put_block, put_header};
use crate::{Block, Kind, Request};
use arrayvec::ArrayVec;
use pn_values::{Identity, IpSuite, Settings};

/// BlockInfo without information.
const NO_INFO: [u8; 2] = [0, 0];

/// 2/4: an IO device.
const ROLE: [u8; 2] = [1, 0];

/// 2/5: the options that the device knows, each with its suboption.
const KNOWN_OPTIONS: [u8; 24] = [
    1, 1, 1, 2, 2, 1, 2, 2, 2, 3, 2, 4, 2, 5, 2, 7, 5, 3, 5, 4, 5, 5, 5, 6,
];

/// The name of a station by its place (AliasName, IEC 61158-6-10, 4.3.1.4.16): that of the port that its cable leads to.
pub type AliasName = ArrayVec<u8, 511>;

/// Whether a station with this identity, these running settings and this name by its place, if it has one, responds to an
/// Identify request: the request has at least one block, and each block matches.
pub fn identify_matches(
    identity: &Identity,
    settings: &Settings,
    alias: Option<&AliasName>,
    request: &Request<'_>,
) -> bool
    ensures { result ≡ matches identity.now settings.now (option_map (λ alias. alias.now.items) alias.entry) (asked request.now) }
{
    // A request without blocks asks for no station. A request to all stations has a block 255/255.
    !request.blocks.is_empty()
        && request
            .blocks
            .as_slice()
            .iter()
            .all(|block| matches_block(identity, settings, alias, block))
}

/// Whether one block matches.
#[inline(always)]
fn matches_block(
    identity: &Identity,
    settings: &Settings,
    alias: Option<&AliasName>,
    block: &Block<'_>,
) -> bool
    ensures { result ≡ kind_matches identity.now settings.now (option_map (λ alias. alias.now.items) alias.entry)
        block.now.kind block.now.contents.now }
{
    // Most requests ask for all stations. The values of this one are looked at for the others alone.
    match block.kind {
        Kind::All => block.contents.is_empty(),
        _ => matches_value(identity, settings, alias, block),
    }
}

/// The same of a block of any kind.
#[inline(never)]
fn matches_value(
    identity: &Identity,
    settings: &Settings,
    alias: Option<&AliasName>,
    block: &Block<'_>,
) -> bool
    ensures { result ≡ kind_matches identity.now settings.now (option_map (λ alias. alias.now.items) alias.entry)
        block.now.kind block.now.contents.now }
{
    let contents = block.contents;
    match block.kind {
        Kind::All => contents.is_empty(),
        Kind::MacAddress => contents == identity.mac.octets.as_slice(),
        Kind::IpSuite => contents == octets_of(&settings.suite).as_slice(),
        Kind::StationType => contents == identity.station_type.as_slice(),
        // No station matches an empty name. Otherwise each station without a name would, and that is what an Identify
        // of all is for.
        Kind::NameOfStation => !contents.is_empty() && contents == settings.name.as_bytes(),
        Kind::DeviceId => contents == device_id_of(identity).as_slice(),
        Kind::DeviceRole => contents == ROLE.as_slice(),
        Kind::AliasName => is_alias(alias, contents),
        Kind::DeviceInstance => contents == identity.instance.to_be_bytes().as_slice(),
        Kind::DeviceOptions
        | Kind::Signal
        | Kind::Response
        | Kind::FactoryReset
        | Kind::ResetToFactory
        | Kind::Other { .. } => false,
    }
}

/// Whether this is the name of the station by its place. It may have none.
fn is_alias(alias: Option<&AliasName>, contents: &[u8]) -> bool
    ensures { result ≡ is_value (option_map (λ alias. alias.now.items) alias.entry) contents.now }
{
    match alias {
        Some(alias) => alias.as_slice() == contents,
        None => false,
    }
}

/// VendorID and DeviceID.
fn device_id_of(identity: &Identity) -> ArrayVec<u8, 4>
    ensures value { result.items ≡ to_be_bytes w16 identity.now.vendor_id ++ to_be_bytes w16 identity.now.device_id }
    ensures length { length result.items ≡ 4 }
{
    let mut octets = ArrayVec::new();
    let _ = octets.try_extend_from_slice(&identity.vendor_id.to_be_bytes());
    let _ = octets.try_extend_from_slice(&identity.device_id.to_be_bytes());
    octets
}

/// Address, mask and gateway.
fn octets_of(suite: &IpSuite) -> ArrayVec<u8, 12>
    ensures value { result.items ≡ suite_bytes suite.now }
    ensures length { length result.items ≡ 12 }
{
    let mut octets = ArrayVec::new();
    let _ = octets.try_extend_from_slice(&suite.address());
    let _ = octets.try_extend_from_slice(&suite.mask());
    let _ = octets.try_extend_from_slice(&suite.gateway());
    octets
}

/// The response to an Identify request.
#[inline(always)]
#[tactic(auto, unfolding(crate::specs::Identify::identify_bytes))]
pub fn identify_answer(identity: &Identity, settings: &Settings, xid: u32) -> Answer
    // The response has exactly the octets of the definition.
    ensures items { result.items ≡ identify_bytes identity.now settings.now xid }
    // The response has at most 1223 octets.
    ensures length { length result.items ≤ 1223 }
{
    let mut answer = Answer::new();
    put_identify(&mut answer, identity, settings, xid);
    answer
}

/// Puts the response to an Identify request into an empty list, in which it stays: the caller of `identify_answer` has it
/// without a copy. So its length is computed before its blocks.
#[inline(never)]
#[tactic(auto, unfolding(crate::specs::Identify::identify_bytes))]
fn put_identify(answer: &mut Answer, identity: &Identity, settings: &Settings, xid: u32)
    requires { answer.old.items ≡ [] }
    ensures items { answer.new.items ≡ identify_bytes identity.now settings.now xid }
    ensures length { array_vec_len answer.new ≤ 1223 }
{
    let size = size_of(identity, settings);
    put_header(answer, 5, xid, size);
    put_blocks(answer, identity, settings);
}

/// The octets that the blocks of the response to an Identify request take.
#[inline(always)]
fn size_of(identity: &Identity, settings: &Settings) -> u16
    ensures value { result ≡ length identity.now.station_type.items + length identity.now.station_type.items % 2
        + length settings.now.name + length settings.now.name % 2 + 86 }
    ensures most { result ≤ 400 }
{
    let station_type = identity.station_type.len();
    let name = settings.name.as_bytes().len();
    (station_type + station_type % 2 + name + name % 2 + 86) as u16
}

/// Appends the blocks of the response to an Identify request. There must be room.
#[inline(always)]
fn put_blocks(answer: &mut Answer, identity: &Identity, settings: &Settings)
    requires { array_vec_len answer.old ≤ 10 }
    ensures items { answer.new.items ≡ answer.old.items
        ++ (valued identity.now settings.now None Kind.StationType ++ valued identity.now settings.now None Kind.NameOfStation
        ++ valued identity.now settings.now None Kind.DeviceId ++ valued identity.now settings.now None Kind.DeviceRole
        ++ valued identity.now settings.now None Kind.DeviceOptions ++ valued identity.now settings.now None Kind.DeviceInstance
        ++ valued identity.now settings.now None Kind.IpSuite) }
    ensures len { array_vec_len answer.new ≡ array_vec_len answer.old + length identity.now.station_type.items
        + length identity.now.station_type.items % 2 + length settings.now.name + length settings.now.name % 2 + 86 }
{
    let station_type = identity.station_type.as_slice();
    let name = settings.name.as_bytes();
    put_block(answer, Kind::StationType, NO_INFO, station_type);
    put_block(answer, Kind::NameOfStation, NO_INFO, name);
    put_numbers(answer, identity);
    put_suite(answer, &settings.suite);
}

/// Appends the blocks that have the same length at every station but the IP suite, as one piece: DeviceId, DeviceRole,
/// DeviceOptions and DeviceInstance. There must be room.
#[inline(always)]
fn put_numbers(answer: &mut Answer, identity: &Identity)
    requires { array_vec_len answer.old ≤ 1000 }
    ensures items { answer.new.items ≡ answer.old.items
        ++ (block_bytes Kind.DeviceId (0 ∷ 0 ∷ (to_be_bytes w16 identity.now.vendor_id ++ to_be_bytes w16 identity.now.device_id))
        ++ block_bytes Kind.DeviceRole (0 ∷ 0 ∷ 1 ∷ 0 ∷ [])
        ++ block_bytes Kind.DeviceOptions (0 ∷ 0 ∷ known_options)
        ++ block_bytes Kind.DeviceInstance (0 ∷ 0 ∷ to_be_bytes w16 identity.now.instance)) }
    ensures len { array_vec_len answer.new ≡ array_vec_len answer.old + 56 }
{
    let _ = answer.try_extend_from_slice(&numbers_of(identity));
}

/// The octets of these blocks.
#[inline(always)]
fn numbers_of(identity: &Identity) -> [u8; 56]
    ensures { result ≡ block_bytes Kind.DeviceId (0 ∷ 0 ∷ (to_be_bytes w16 identity.now.vendor_id ++ to_be_bytes w16 identity.now.device_id))
        ++ block_bytes Kind.DeviceRole (0 ∷ 0 ∷ 1 ∷ 0 ∷ [])
        ++ block_bytes Kind.DeviceOptions (0 ∷ 0 ∷ known_options)
        ++ block_bytes Kind.DeviceInstance (0 ∷ 0 ∷ to_be_bytes w16 identity.now.instance) }
{
    let [vendor, vendor_low] = identity.vendor_id.to_be_bytes();
    let [device, device_low] = identity.device_id.to_be_bytes();
    let [instance, instance_low] = identity.instance.to_be_bytes();
    [
        2,
        3,
        0,
        6,
        0,
        0,
        vendor,
        vendor_low,
        device,
        device_low, // DeviceId
        2,
        4,
        0,
        4,
        0,
        0,
        1,
        0, // DeviceRole: ROLE
        2,
        5,
        0,
        26,
        0,
        0, // DeviceOptions: KNOWN_OPTIONS
        1,
        1,
        1,
        2,
        2,
        1,
        2,
        2,
        2,
        3,
        2,
        4,
        2,
        5,
        2,
        7,
        5,
        3,
        5,
        4,
        5,
        5,
        5,
        6, //
        2,
        7,
        0,
        4,
        0,
        0,
        instance,
        instance_low, // DeviceInstance
    ]
}

/// Appends the block of a kind's value, and returns whether the station has one. There must be room.
pub(crate) fn put_value(
    blocks: &mut Blocks,
    identity: &Identity,
    settings: &Settings,
    alias: Option<&AliasName>,
    kind: Kind,
) -> bool
    requires { array_vec_len blocks.old + most_of kind ≤ 1213 }
    ensures found { result ≡ is_some (value_of identity.now settings.now (option_map (λ alias. alias.now.items) alias.entry) kind) }
    ensures items { blocks.new.items ≡ blocks.old.items ++ valued identity.now settings.now (option_map (λ alias. alias.now.items) alias.entry) kind }
    ensures most { array_vec_len blocks.new ≤ array_vec_len blocks.old + most_of kind }
{
    match kind {
        Kind::MacAddress => put_block(blocks, kind, NO_INFO, &identity.mac.octets),
        Kind::IpSuite => put_suite(blocks, &settings.suite),
        Kind::StationType => put_block(blocks, kind, NO_INFO, identity.station_type.as_slice()),
        Kind::NameOfStation => put_block(blocks, kind, NO_INFO, settings.name.as_bytes()),
        Kind::DeviceId => put_block(blocks, kind, NO_INFO, device_id_of(identity).as_slice()),
        Kind::DeviceRole => put_block(blocks, kind, NO_INFO, &ROLE),
        Kind::DeviceOptions => put_block(blocks, kind, NO_INFO, &KNOWN_OPTIONS),
        Kind::AliasName => return put_alias(blocks, alias),
        Kind::DeviceInstance => put_block(blocks, kind, NO_INFO, &identity.instance.to_be_bytes()),
        Kind::Signal
        | Kind::Response
        | Kind::FactoryReset
        | Kind::ResetToFactory
        | Kind::All
        | Kind::Other { .. } => {
            return false;
        }
    }
    true
}

/// Appends the block of the name by the place, and returns whether the station has one. There must be room.
fn put_alias(blocks: &mut Blocks, alias: Option<&AliasName>) -> bool
    requires { array_vec_len blocks.old + 518 ≤ 1213 }
    ensures found { result ≡ is_some (option_map (λ alias. alias.now.items) alias.entry) }
    ensures items { blocks.new.items ≡ blocks.old.items ++ named_block (option_map (λ alias. alias.now.items) alias.entry) }
    ensures most { array_vec_len blocks.new ≤ array_vec_len blocks.old + 518 }
{
    let Some(alias) = alias else {
        return false;
    };
    put_block(blocks, Kind::AliasName, NO_INFO, alias.as_slice());
    true
}

/// Appends the block of the IP suite. There must be room.
#[inline(always)]
fn put_suite<const N: usize>(blocks: &mut ArrayVec<u8, N>, suite: &IpSuite)
    requires room { array_vec_len blocks.old + 19 ≤ N }
    requires most { N ≤ 1223 }
    ensures items { blocks.new.items ≡ blocks.old.items
        ++ block_bytes Kind.IpSuite (suite_info (suite_bytes suite.now) ++ suite_bytes suite.now) }
    ensures most { array_vec_len blocks.new ≤ array_vec_len blocks.old + 19 }
    ensures len { array_vec_len blocks.new ≡ array_vec_len blocks.old + 18 }
{
    let octets = octets_of(suite);
    put_block(
        blocks,
        Kind::IpSuite,
        info_of(octets.as_slice()),
        octets.as_slice(),
    );
}

/// BlockInfo of an IP suite: whether an address is set.
#[inline(always)]
fn info_of(octets: &[u8]) -> [u8; 2]
    ensures { result ≡ suite_info octets.now }
{
    if octets.iter().all(|octet| *octet == 0) {
        [0, 0]
    } else {
        [0, 1]
    }
}
