//! PROFINET blocks (IEC 61158-6-10, 5.2): octets to blocks and back. All that a controller and a device say to each other
//! beyond DCP is blocks: a BlockType, a BlockLength, a version, and the fields of the kind.
//!
//! ```text
//! let mut reader = BlockReader::new(octets);
//! while let Some(block) = reader.next() {
//!     match block? {
//!         Block::ArBlockReq(request) => self.asked_by(&request.cm_initiator_mac_add),
//!         Block::IocrBlockReq(request) => self.places(&request.io_data_objects),
//!         _ => {}
//!     }
//! }
//! ```
//!
//! A block borrows its lists from the octets that were read, or from the lists of its writer. No block is
//! large, and any number of them can be held at once.
//!
//! Laws of blocks: a written block is read back, also if several follow one another.
#![tactic(auto)]

mod apart;
mod block;
mod block_law;
mod block_reader;
mod block_type;
mod law;
mod reading;
mod writing;

pub use block::Block;
pub use block_law::blocks_are_read;
pub use block_reader::BlockReader;
pub use block_type::BlockType;
pub use connect_blocks::{
    AlarmCrBlockReq, AlarmCrBlockRes, ArBlockReq, ArBlockRes, ControlBlock, DiffModule,
    DiffModules, DiffSubmodule, ExpectedModule, ExpectedModules, ExpectedSubmodule,
    ExpectedSubmoduleBlockReq, IoObject, IoObjects, IocrBlockReq, IocrBlockRes, IocrType,
    ModuleDiffBlock, RtClass, SubmoduleData,
};
pub use law::fitting_blocks_are_read;
pub use reading::{read_alarm_ack, read_block, read_expected};
pub use record_blocks::{
    AlarmAck, AlarmData, AlarmNotification, FilterModule, FilterModules, FilterSubmodule, Im0, Im1,
    Im2, Im3, Im4, ImFilterData, IodReadReq, IodReadRes, IodWriteReq, IodWriteRes, RecordHeader,
};
pub use wire::BlockFault;
pub use writing::{block_len, notification_front, write_block};
