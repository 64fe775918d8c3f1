//! PrmEnd and ApplicationReady after a plug, as a controller sends and reads them (IEC 61158-6-10, 5.2.4.5): whole blocks, with
//! BlockType and BlockLength. `connect_blocks` has those of the device.
ghost use Rattle.std.specs.Prelude.{◌≡◌, ◌+◌, ◌≤◌, ◌++◌, List, ℕ};
ghost use Rattle.arrayvec.specs.ArrayVec.{array_vec_len};
ghost use Rattle.wire.specs.Codec.{Gives};
ghost use Rattle.connect_blocks.specs.PlugControl.{plug_control};

use arrayvec::ArrayVec;
use connect_blocks::PlugControlBlock;
use wire::{BlockFault, put_fields, read_fields};

macro_rules! plug_control_fields {
    ($with:ident $args:tt $number:tt) => {
        $with! { $args PlugControlBlock {
            _: fixed $number 0,
            _: fixed 28 1,
            _: fixed_one 1 2,
            _: fixed_one 0 3,
            _: blank 2,
            ar_uuid: uuid,
            session_key: u16,
            alarm_sequence_number: u16,
            control_command: u16,
            control_block_properties: u16,
        } }
    };
}

/// Appends a PrmEnd after a plug. There must be room for its 32 octets.
#[tactic(auto, unfolding(connect_blocks::specs::PlugControl::plug_control))]
pub(crate) fn put_plug_prm_end<const N: usize>(out: &mut ArrayVec<u8, N>, value: &PlugControlBlock)
    requires { array_vec_len out.old + 32 ≤ N }
    // The octets of the block are appended.
    ensures items { (tail : List ℕ) → out.new.items ++ tail ≡ out.old.items ++ (plug_control 0x0111).write value.now tail }
    // They are 32.
    ensures len { array_vec_len out.new ≡ array_vec_len out.old + 32 }
{
    plug_control_fields!(put_fields [out, value] 0x0111);
}

/// Reads the ApplicationReady for a plug at the start of the octets, with any ControlCommand. Returns it and the rest.
#[tactic(auto, unfolding(connect_blocks::specs::PlugControl::plug_control))]
pub(crate) fn plug_ready_at(bytes: &[u8]) -> Result<(PlugControlBlock, &[u8]), BlockFault>
    ensures { Gives (λ x. (x.0, x.1.now)) result ((plug_control 0x0113).read bytes.now) }
{
    plug_control_fields!(read_fields [bytes] 0x0113)
}

/// Appends the answer to an ApplicationReady for a plug. There must be room for its 32 octets.
#[tactic(auto, unfolding(connect_blocks::specs::PlugControl::plug_control))]
pub(crate) fn put_plug_ready_res<const N: usize>(
    out: &mut ArrayVec<u8, N>,
    value: &PlugControlBlock,
)
    requires { array_vec_len out.old + 32 ≤ N }
    // The octets of the block are appended.
    ensures items { (tail : List ℕ) → out.new.items ++ tail ≡ out.old.items ++ (plug_control 0x8113).write value.now tail }
    // They are 32.
    ensures len { array_vec_len out.new ≡ array_vec_len out.old + 32 }
{
    plug_control_fields!(put_fields [out, value] 0x8113);
}
