//! The octets of a cyclic frame after its FrameID.
ghost use Rattle.std.specs.Prelude.{◌≡◌, ◌+◌, ◌<◌, ◌≤◌, ◌++◌, [], List, ℕ, Ok, length, IfOk, MatchResult};
ghost use Rattle.arrayvec.specs.ArrayVec.{array_vec_len};
ghost use Rattle.wire.specs.Codec.{Gives};
ghost use Rattle.cyclic_data.specs.declared.tail.CyclicTail.{CyclicTail};
ghost use Rattle.cyclic_data.specs.exchange.Frames.{tail_at as tail_of};
ghost use Rattle.cyclic_data.specs.Tail.{cyclic_tail, IsCyclic, cyclic_of, cyclic_bytes};

use crate::status::{DataStatus, StationState};
use arrayvec::ArrayVec;
use wire::{append, append_u8, append_u16, split, u8_at, u16_at};

/// The fields after the data of a cyclic frame (IEC 61158-6-10, 4.7.2.1).
#[derive(Clone, Copy, Debug, PartialEq, Eq)]
pub struct CyclicTail {
    /// CycleCounter, in units of 31.25 microseconds.
    pub counter: u16,
    /// DataStatus.
    pub data_status: DataStatus,
    /// TransferStatus: 0 for a frame that arrived without errors.
    pub transfer_status: u8,
}

/// A cyclic frame is too short: it has fewer octets than DataLength counts and the four octets after them.
#[derive(Clone, Copy, Debug, PartialEq, Eq)]
pub struct ShortFrame;

impl CyclicTail {
    /// The tail that a provider in this state sends with this CycleCounter.
    pub fn of(counter: u16, state: StationState) -> CyclicTail
        ensures { result ≡ tail_of state counter }
    {
        CyclicTail {
            counter,
            data_status: state.data_status(),
            transfer_status: 0,
        }
    }
}

impl CyclicTail {
    /// The four octets of the tail.
    #[tactic(auto, unfolding(crate::specs::Tail::cyclic_frame, crate::specs::Tail::cyclic_tail))]
    pub fn octets(self) -> ArrayVec<u8, 4>
        ensures value { result.items ≡ cyclic_tail.write self [] }
        // Data followed by these octets is what is written after the FrameID.
        ensures behind { (octets : List ℕ) → octets ++ result.items ≡ cyclic_bytes octets self [] }
        ensures len { array_vec_len result ≡ 4 }
        ensures fits { cyclic_tail.Fits self }
    {
        let mut octets = ArrayVec::new();
        append_u16(&mut octets, self.counter);
        append_u8(&mut octets, self.data_status.0);
        append_u8(&mut octets, self.transfer_status);
        octets
    }
}

/// Reads the fields after the data. Returns them and the rest.
#[tactic(auto, unfolding(crate::specs::Tail::cyclic_tail))]
fn tail_at(bytes: &[u8]) -> Result<(CyclicTail, &[u8]), ShortFrame>
    ensures { Gives (λ x. (x.0, x.1.now)) result (cyclic_tail.read bytes.now) }
{
    let (counter, rest) = u16_at(bytes, ShortFrame)?;
    let (data_status, rest) = u8_at(rest, ShortFrame)?;
    let (transfer_status, rest) = u8_at(rest, ShortFrame)?;
    let tail = CyclicTail {
        counter,
        data_status: DataStatus(data_status),
        transfer_status,
    };
    Ok((tail, rest))
}

/// Reads `data_length` octets of data and the fields after them.
#[tactic(auto, unfolding(crate::specs::Tail::cyclic_frame))]
fn cyclic_at(bytes: &[u8], data_length: u16) -> Result<(&[u8], CyclicTail), ShortFrame>
    ensures { Gives (λ x. (x.0.now, x.1)) result (cyclic_of data_length bytes.now) }
{
    let (octets, rest) = split(bytes, data_length as usize, ShortFrame)?;
    let (tail, _) = tail_at(rest)?;
    Ok((octets, tail))
}

/// Reads all octets after the FrameID of a cyclic frame: the data, as many octets as DataLength counts, and the fields
/// after it. Padding is ignored.
pub fn read_cyclic(bytes: &[u8], data_length: u16) -> Result<(&[u8], CyclicTail), ShortFrame>
    // If data and fields are returned, the octets are theirs, followed by any padding.
    ensures found { IfOk result (λ x. IsCyclic data_length bytes.now (x.0.now, x.1)) }
    // If the octets are those of data and fields followed by any padding, that data and these fields are returned.
    ensures only { (value : List ℕ × CyclicTail) → IsCyclic data_length bytes.now value → Gives (λ x. (x.0.now, x.1)) result (Ok value) }
    ensures exact { Gives (λ x. (x.0.now, x.1)) result (cyclic_of data_length bytes.now) }
    // The call fails exactly if there are fewer octets than DataLength and four more.
    ensures short { MatchResult result (λ _. data_length + 4 ≤ length bytes.now) (λ _. length bytes.now < data_length + 4) }
    ensures size { IfOk result (λ x. length x.0.now ≡ data_length) }
{
    cyclic_at(bytes, data_length)
}

/// Appends the data of a cyclic frame and the fields after it. There must be room.
#[tactic(auto, unfolding(crate::specs::Tail::cyclic_frame))]
pub fn put_cyclic<const N: usize>(out: &mut ArrayVec<u8, N>, octets: &[u8], tail: CyclicTail)
    requires { array_vec_len out.old + length octets.now + 4 ≤ N }
    ensures items { out.new.items ≡ out.old.items ++ cyclic_bytes octets.now tail [] }
    ensures len { array_vec_len out.new ≡ array_vec_len out.old + length octets.now + 4 }
    // The octets of this data and these fields, followed by any octets, are read as the same data and fields.
    ensures again { (rest : List ℕ) → cyclic_of (length octets.now) (cyclic_bytes octets.now tail [] ++ rest) ≡ Ok (octets.now, tail) }
{
    append(out, octets);
    append(out, tail.octets().as_slice());
}
