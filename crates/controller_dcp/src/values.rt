//! What a controller tells of itself.
ghost use Rattle.std.specs.Prelude.{◌≡◌, ◌+◌, ◌≤◌, ◌++◌, is_some, length};
ghost use Rattle.arrayvec.specs.ArrayVec.{array_vec_len};
ghost use Rattle.dcp_core.specs.Bytes.{block_bytes};
ghost use Rattle.controller_dcp.specs.Answers.{kind_matches};
ghost use Rattle.controller_dcp.specs.Values.{ids_of, most_of, suite_of, value_of, valued};

use crate::blocks::{Blocks, put_block};
use arrayvec::ArrayVec;
use dcp_core::{Block, Kind};
use plans::{ControllerIdentity, Plan};
use pn_values::IpSuite;

/// BlockInfo of all values but the IP suite.
const NO_INFO: [u8; 2] = [0, 0];

/// BlockInfo of an IP suite that is set.
const IS_SET: [u8; 2] = [0, 1];

/// 2/4: an IO controller.
const ROLE: [u8; 2] = [2, 0];

/// 2/5: the options that a controller knows, each with its suboption.
const KNOWN_OPTIONS: [u8; 16] = [1, 1, 1, 2, 2, 1, 2, 2, 2, 3, 2, 4, 2, 5, 2, 7];

/// 2/7: DeviceInstance, the first one.
const INSTANCE: [u8; 2] = [0, 1];

/// VendorID and DeviceID.
fn ids_of(own: &ControllerIdentity) -> ArrayVec<u8, 4>
    ensures value { result.items ≡ ids_of own.now }
    ensures length { length result.items ≡ 4 }
{
    let mut octets = ArrayVec::new();
    let _ = octets.try_extend_from_slice(&own.vendor_id().to_be_bytes());
    let _ = octets.try_extend_from_slice(&own.device_id().to_be_bytes());
    octets
}

/// The controller's address, and mask and gateway of the project.
fn suite_of(plan: &Plan) -> ArrayVec<u8, 12>
    ensures value { result.items ≡ suite_of plan.now }
    ensures length { length result.items ≡ 12 }
{
    joined(plan.controller().address, &plan.station().suite)
}

/// This address, and mask and gateway of a suite.
fn joined(address: [u8; 4], suite: &IpSuite) -> ArrayVec<u8, 12>
    ensures value { result.items ≡ address ++ suite.now.mask ++ suite.now.gateway }
    ensures length { length result.items ≡ 12 }
{
    let mut octets = ArrayVec::new();
    let _ = octets.try_extend_from_slice(&address);
    let _ = octets.try_extend_from_slice(&suite.mask());
    let _ = octets.try_extend_from_slice(&suite.gateway());
    octets
}

/// Whether one block of an Identify request matches.
pub(crate) fn matches_block(plan: &Plan, own: &ControllerIdentity, block: &Block<'_>) -> bool
    ensures { result ≡ kind_matches plan.now own.now block.now.kind block.now.contents.now }
{
    let contents = block.contents;
    match block.kind {
        Kind::All => contents.is_empty(),
        Kind::MacAddress => contents == plan.controller().mac.octets.as_slice(),
        Kind::IpSuite => contents == suite_of(plan).as_slice(),
        Kind::StationType => contents == own.station_type(),
        Kind::NameOfStation => contents == plan.controller().name.as_bytes(),
        Kind::DeviceId => contents == ids_of(own).as_slice(),
        Kind::DeviceRole => contents == ROLE.as_slice(),
        Kind::DeviceInstance => contents == INSTANCE.as_slice(),
        Kind::DeviceOptions
        | Kind::AliasName
        | Kind::Signal
        | Kind::Response
        | Kind::FactoryReset
        | Kind::ResetToFactory
        | Kind::Other { .. } => false,
    }
}

/// Appends the block of a kind's value, and returns whether the controller has one. There must be room.
pub(crate) fn put_value(
    blocks: &mut Blocks,
    plan: &Plan,
    own: &ControllerIdentity,
    kind: Kind,
) -> bool
    requires { array_vec_len blocks.old + most_of kind ≤ 1213 }
    ensures found { result ≡ is_some (value_of plan.now own.now kind) }
    ensures items { blocks.new.items ≡ blocks.old.items ++ valued plan.now own.now kind }
    ensures most { array_vec_len blocks.new ≤ array_vec_len blocks.old + most_of kind }
{
    match kind {
        Kind::MacAddress => put_block(blocks, kind, NO_INFO, &plan.controller().mac.octets),
        Kind::IpSuite => put_block(blocks, kind, IS_SET, suite_of(plan).as_slice()),
        Kind::StationType => put_block(blocks, kind, NO_INFO, own.station_type()),
        Kind::NameOfStation => put_block(blocks, kind, NO_INFO, plan.controller().name.as_bytes()),
        Kind::DeviceId => put_block(blocks, kind, NO_INFO, ids_of(own).as_slice()),
        Kind::DeviceRole => put_block(blocks, kind, NO_INFO, &ROLE),
        Kind::DeviceOptions => put_block(blocks, kind, NO_INFO, &KNOWN_OPTIONS),
        Kind::DeviceInstance => put_block(blocks, kind, NO_INFO, &INSTANCE),
        Kind::AliasName
        | Kind::Signal
        | Kind::Response
        | Kind::FactoryReset
        | Kind::ResetToFactory
        | Kind::All
        | Kind::Other { .. } => {
            return false;
        }
    }
    true
}
