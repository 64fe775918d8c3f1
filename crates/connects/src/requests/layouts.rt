//! The layouts of the two communication relations.
ghost use Rattle.std.specs.Prelude.{◌≡◌, ◌≤◌, length};
ghost use Rattle.wire.specs.Codec.{Gives};
ghost use Rattle.connects.specs.requests.Layouts.{fault_of, in_order, layout_of};

use block_codec::IocrBlockReq;
use cyclic_data::{ExpectedData, Layout, LayoutFault};
use records::CallFault;

/// The fault of a Connect if its places have this fault.
fn fault_of(fault: LayoutFault) -> CallFault
    ensures { result ≡ fault_of fault }
{
    match fault {
        LayoutFault::Outside => CallFault::LayoutOutside,
        LayoutFault::Overlap => CallFault::LayoutOverlap,
        LayoutFault::Unknown => CallFault::LayoutUnknown,
        LayoutFault::Missing => CallFault::LayoutMissing,
    }
}

/// Fills the layout that an IOCRBlockReq asks for, from what the expected submodules have in cyclic frames.
#[inline(never)]
fn fill_layout(
    block: &IocrBlockReq,
    parts: &[ExpectedData],
    layout: &mut Layout,
) -> Result<(), CallFault>
    requires short { block.now.data_length ≤ 1440 }
    requires few { length parts.now ≤ 64 }
    ensures { Gives (λ _. layout.new) result (layout_of parts.now block.now) }
{
    let checked = Layout::check(
        block.iocr_type,
        block.data_length,
        &block.io_data_objects,
        &block.iocs,
        parts,
    );
    match checked {
        Ok(asked) => {
            *layout = asked;
            Ok(())
        }
        Err(fault) => Err(fault_of(fault)),
    }
}

/// Fills the layouts of inputs and of outputs, that of the first IOCRBlockReq before that of the second.
pub(crate) fn fill_layouts(
    input_first: bool,
    input: &IocrBlockReq,
    output: &IocrBlockReq,
    parts: &[ExpectedData],
    inputs: &mut Layout,
    outputs: &mut Layout,
) -> Result<(), CallFault>
    requires short { (input.now.data_length ≤ 1440) × (output.now.data_length ≤ 1440) }
    requires few { length parts.now ≤ 64 }
    ensures { Gives (λ _. (inputs.new, outputs.new)) result
        (in_order input_first (layout_of parts.now input.now) (layout_of parts.now output.now)) }
{
    // The first fault in the order of the blocks counts, so the layout that was asked for first is filled first.
    if input_first {
        fill_layout(input, parts, inputs)?;
        fill_layout(output, parts, outputs)?;
    } else {
        fill_layout(output, parts, outputs)?;
        fill_layout(input, parts, inputs)?;
    }
    Ok(())
}
