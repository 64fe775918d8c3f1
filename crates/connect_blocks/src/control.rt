//! PrmEnd, ApplicationReady and Release: their requests and their responses.
ghost use Rattle.std.specs.Prelude.{◌≡◌, ◌+◌, ◌≤◌, ◌++◌, List, ℕ, Option, None, true};
ghost use Rattle.arrayvec.specs.ArrayVec.{array_vec_len};
ghost use Rattle.wire.specs.Codec.{Gives};
ghost use Rattle.wire.specs.blocks.Fields.{body};
ghost use Rattle.connect_blocks.specs.Control.{command, control, is_command};

use arrayvec::ArrayVec;
use wire::blocks::u16_at;
use wire::{BlockFault, Uuid, len_fields, put_fields, read_body};

/// IODControl, IOXControl and IODRelease: the requests 0x0110, 0x0112 and 0x0114 and the responses 0x8110, 0x8112 and
/// 0x8114.
#[derive(Clone, Copy)]
pub struct ControlBlock {
    /// ARUUID.
    pub ar_uuid: Uuid,
    /// SessionKey.
    pub session_key: u16,
    /// ControlCommand: 1 PrmEnd, 2 ApplicationReady, 4 Release, 8 Done.
    pub control_command: u16,
    /// ControlBlockProperties.
    pub control_block_properties: u16,
}

macro_rules! control_fields {
    ($with:ident $args:tt $wanted:ident) => {
        $with! { $args ControlBlock {
            _: blank 2,
            ar_uuid: uuid,
            session_key: u16,
            _: blank 2,
            control_command: u16 by command_at($wanted),
            control_block_properties: u16,
        } }
    };
}

/// Reads a ControlCommand (field 8): the wanted one, or any if `wanted` is `None`.
#[tactic(auto, unfolding(crate::specs::Control::command))]
fn command_at(bytes: &[u8], wanted: Option<u16>) -> Result<(u16, &[u8]), BlockFault>
    ensures { Gives (λ x. (x.0, x.1.now)) result ((command wanted).read bytes.now) }
{
    let (number, rest) = u16_at(bytes)?;
    match wanted {
        Some(value) if value != number => Err(BlockFault::Field(8)),
        _ => Ok((number, rest)),
    }
}

/// Reads the part of a control block that BlockLength counts: the version and the fields, to the last octet. `wanted` is
/// the only ControlCommand that is accepted; `None` accepts any.
#[tactic(auto, unfolding(wire::specs::blocks::Fields::body, crate::specs::Control::control))]
pub fn control_at(bytes: &[u8], wanted: Option<u16>) -> Result<ControlBlock, BlockFault>
    ensures { Gives (λ x. x) result ((body (control wanted)).read bytes.now) }
{
    control_fields!(read_body [bytes] wanted)
}

/// Appends the fields of a control block. There must be room.
#[tactic(auto, unfolding(crate::specs::Control::control, crate::specs::Control::command))]
pub fn put_control<const N: usize>(out: &mut ArrayVec<u8, N>, value: &ControlBlock)
    requires { array_vec_len out.old + (control None).size value.now ≤ N }
    ensures items { (wanted : Option ℕ) (tail : List ℕ) → out.new.items ++ tail ≡ out.old.items ++ (control wanted).write value.now tail }
    ensures len { array_vec_len out.new ≡ array_vec_len out.old + (control None).size value.now }
    ensures fits { (wanted : Option ℕ) → is_command wanted value.now.control_command ≡ true → (control wanted).Fits value.now }
{
    control_fields!(put_fields [out, value] any);
}

/// The number of octets that the fields of a control block take.
#[tactic(auto, unfolding(crate::specs::Control::control, crate::specs::Control::command))]
pub fn control_len(value: &ControlBlock) -> usize
    ensures size { (wanted : Option ℕ) → result ≡ (control wanted).size value.now }
    ensures few { result ≡ 26 }
{
    control_fields!(len_fields [value] any)
}
