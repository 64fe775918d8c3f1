//! One operation, as it lies in the memory of the host.
ghost use Rattle.std.specs.Prelude.{◌≡◌, ◌+◌, ◌≤◌, ◌++◌, ℕ, List, drop, length, take};
ghost use Rattle.c_layout.specs.Places.{place_in};
ghost use Rattle.c_layout.specs.Reported.{with_octets};

/// One operation: what is asked, and what is returned. Each field has one meaning, whichever operation uses it;
/// `include/nandutable.h` has the table of the operations with the fields of each.
#[repr(C)]
#[derive(Drop)]
pub struct Op {
    /// The number of the operation.
    pub what: u32,
    pub slot: u32,
    pub subslot: u32,
    /// The index of a record.
    pub index: u32,
    /// The place of an item in a list, from 0 on; or the number of what is asked of the application, from 1 on.
    pub number: u32,
    /// ChannelNumber of a diagnosis.
    pub channel: u32,
    /// ChannelErrorType of a diagnosis.
    pub error: u32,
    /// 0: the diagnosis disappears.
    pub appears: u32,
    /// 0: the inputs or the output of a submodule are bad.
    pub is_good: u32,
    /// 0: the link is down.
    pub is_up: u32,
    /// 0: the priority of an alarm is high.
    pub is_low: u32,
    /// Units of time: the number that must pass, then the number that remains.
    pub units: u32,
    /// Units of time up to and including the next one with which anything is due.
    pub due: u32,
    /// The outcome of an event.
    pub note: u32,
    /// Why an event of the application was refused.
    pub reason: u32,
    /// The phase of the application relation, 0 without a relation; the state of a controller; or that of a place of its plan.
    pub phase: u32,
    /// Why a controller ended.
    pub cause: u32,
    /// The number of units for which the lamp still flashes.
    pub lamp: u32,
    /// The IOPS of the data of a submodule.
    pub iops: u32,
    /// The DataStatus of the frame that it came in.
    pub data_status: u32,
    /// The number of items that there are.
    pub count: u32,
    /// The number of diagnoses for which the list had no room.
    pub left_out: u32,
    /// The number of commits that the flash still accepts.
    pub commits: u32,
    /// The status of an answer, 0 if the request succeeded.
    pub status: u32,
    /// The BlockError of an answer of DCP, 0 if the request succeeded.
    pub block_error: u32,
    pub alarm_type: u32,
    /// AlarmSpecifier of an alarm.
    pub specifier: u32,
    /// UserStructureIdentifier of an alarm, 65,536 if it has none.
    pub structure: u32,
    /// SendSeqNum of an alarm.
    pub sequence: u32,
    /// What became of the open process alarm of a device in an event.
    pub confirmed: u32,
    /// How far a place of the relation is.
    pub progress: u32,
    /// What is wanted of a record that the application answers.
    pub wanted: u32,
    /// RecordDataLength of a Read.
    pub read_length: u32,
    /// The number of octets of a PortID.
    pub port_length: u32,
    /// The number of octets of a ChassisID.
    pub chassis_length: u32,
    /// The kind of a piece of work: after an event the next one, otherwise the one that was handed out.
    pub work: u32,
    /// The kind of the piece of work after the one that was handed out.
    pub more: u32,
    /// A sector of the flash, 0 or 1.
    pub sector: u32,
    /// The first octet of a program call in its sector.
    pub place: u32,
    /// The number of octets that are returned.
    pub length: u32,
    pub octets: [u8; 1520],
}

/// The slot and subslot that are asked for, if both are numbers of 16 bits.
pub fn place_of(op: &Op) -> Option<(u16, u16)>
    ensures { result ≡ place_in op.now.slot op.now.subslot }
{
    pair_of(op.slot, op.subslot)
}

/// Two numbers, if both have 16 bits.
pub fn pair_of(first: u32, second: u32) -> Option<(u16, u16)>
    ensures { result ≡ place_in first second }
{
    if first < 65536 && second < 65536 {
        Some((first as u16, second as u16))
    } else {
        None
    }
}

/// Sets the octets that an operation returns. Those after them are unchanged.
pub fn put(op: &mut Op, octets: &[u8])
    requires { length octets.now ≤ 1520 }
    ensures { op.new ≡ with_octets octets.now op.old }
{
    op.length = 0;
    put_more(op, octets);
}

/// Appends octets to those that an operation returns already.
pub fn put_more(op: &mut Op, octets: &[u8])
    requires { op.old.length + length octets.now ≤ 1520 }
    ensures { (before : List ℕ) (asked : Op) → op.old ≡ with_octets before asked → op.new ≡ with_octets (before ++ octets.now) asked }
{
    let start = op.length as usize;
    let end = start + octets.len();
    write_at(&mut op.octets, start, octets);
    op.length = end as u32;
}

// Writes octets at a position, and leaves those before and after them.
fn write_at(room: &mut [u8], start: usize, octets: &[u8])
    requires { start + length octets.now ≤ length room.old }
    ensures { room.new ≡ (take start room.old ++ octets.now) ++ drop (start + length octets.now) room.old }
{
    room[start..start + octets.len()].copy_from_slice(octets);
}
