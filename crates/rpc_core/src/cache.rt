//! The cache of responses: for each of the last activities, the response to its last call (C706, 9.5.5).
ghost use Rattle.std.specs.Prelude.{◌≡◌, ◌+◌, ◌-◌, ◌<◌, ◌≤◌, ℕ, true, false, List, [], ◌∷◌, length, take, slice_index, Some, IfSome};
ghost use Rattle.std.specs.Prelude.{IfNone};
ghost use Rattle.std.specs.List.{remove};
ghost use Rattle.arrayvec.specs.ArrayVec.{array_vec_len};
ghost use Rattle.rpc_core.specs.Cache.{Kept, is_of, looked, kept_more, behind_call, behind_calls, answer_of, HoldsThrough, IsFaithful};
ghost use Rattle.rpc_core.specs.Reported.{reported};
ghost use Rattle.rpc_core.specs.Slots.{kept_in, kept_at, IsTidy};

use arrayvec::ArrayVec;
use frame_codec::Frame;
use std::array;
use std::marker::Model;
use uuid::Uuid;

/// What a cache knows of a call.
#[derive(Clone, Copy)]
pub enum Looked<'a> {
    /// The call is new and must be answered.
    New,
    /// The call was answered by this frame, which must be sent again.
    Again(&'a Frame),
    /// A later call of its activity was already answered. No answer is sent.
    Old,
}

/// A response, and the call that it answers.
#[derive(Drop)]
struct Slot {
    activity: [u8; 16],
    sequence: u32,
    frame: Frame,
}

impl Slot {
    /// An empty slot.
    fn new() -> Self {
        Slot {
            activity: [0; 16],
            sequence: 0,
            frame: Frame::new(),
        }
    }

    /// Stores a response in the slot.
    fn fill(&mut self, activity: &[u8; 16], sequence: u32, frame: &Frame)
        ensures { kept_in self.new ≡ record { activity = activity.now; sequence = sequence; frame = frame.now.items } }
    {
        self.activity = *activity;
        self.sequence = sequence;
        self.frame.copy(frame);
    }
}

/// The responses to the last calls of at most `N` activities.
#[derive(Drop)]
pub struct CallCache<const N: usize> {
    slots: [Slot; N],
    /// The slots in use, the newest response first.
    order: ArrayVec<usize, N>,
}

// Clauses see the responses, the newest first.
impl<const N: usize> Model for CallCache<N> {
    ghost use Rattle.std.specs.Prelude.{◌≡◌, ◌≤◌, List, length};
    ghost use Rattle.rpc_core.specs.Cache.{Kept};

    ghost Value = { List Kept };

    ghost use Rattle.rpc_core.specs.Slots.{shown, IsTidy};

    ghost view = { λ c. shown c.slots c.order.items };

    ghost invariant = { λ c. (length c.slots ≡ N) × (length c.order.items ≤ N) × IsTidy (length c.order.items) c.order.items };
}

/// The position in the order of the response to an activity.
fn place_of(slots: &[Slot], order: &[usize], activity: &[u8; 16]) -> Option<usize>
    requires { (k : ℕ) → k < length order.now → slice_index order.now k < length slots.now }
    ensures before { IfSome result (λ place. (k : ℕ) → k < place →
        is_of activity.now (kept_at slots.now (slice_index order.now k)) ≡ false) }
    ensures there { IfSome result (λ place. place < length order.now) }
    ensures found { IfSome result (λ place. is_of activity.now (kept_at slots.now (slice_index order.now place)) ≡ true) }
    ensures none { IfNone result ((k : ℕ) → k < length order.now →
        is_of activity.now (kept_at slots.now (slice_index order.now k)) ≡ false) }
{
    for (place, index) in order.iter().enumerate() {
        if slots[*index].activity == *activity {
            return Some(place);
        }
    }
    None
}

/// Removes from the order the slot that is written next: the one at this position, or an unused one, or the oldest.
fn take_slot<const N: usize>(order: &mut ArrayVec<usize, N>, place: Option<usize>) -> usize
    requires some { 0 < N }
    requires fits { array_vec_len order.old ≤ N }
    requires tidy { IsTidy (array_vec_len order.old) order.old.items }
    requires there { IfSome place (λ place. place < array_vec_len order.old) }
    ensures tidy { IsTidy (array_vec_len order.new + 1) (result ∷ order.new.items) }
    ensures room { array_vec_len order.new < N }
    ensures found { IfSome place (λ place. order.new.items ≡ remove order.old.items place) }
    ensures none { IfNone place (order.new.items ≡ take (N - 1) order.old.items) }
{
    match place {
        Some(place) => order.remove(place),
        None if order.is_full() => order.remove(N - 1),
        None => order.len(),
    }
}

impl<const N: usize> CallCache<N> {
    /// An empty cache.
    pub fn new() -> Self
        ensures { result ≡ [] }
    {
        CallCache {
            slots: array::from_fn(|_| Slot::new()),
            order: ArrayVec::new(),
        }
    }

    /// What the cache knows of the call with this number within an activity.
    pub fn look(&self, activity: &Uuid, sequence: u32) -> Looked<'_>
        // The result is what the stored responses say of the call.
        ensures reported { looked activity.now sequence self.now ≡ reported result }
        // If an answered call comes again, after any calls during which its activity is held, the result is the same
        // frame or, if a later call of its activity was answered, no answer.
        ensures faithful { (cache calls : List Kept) (call : Kept) (frame : List ℕ) → call.activity ≡ activity.now →
            call.sequence ≡ sequence →
            answer_of call cache ≡ Some frame → HoldsThrough N call.activity calls (behind_call N call cache) →
            self.now ≡ behind_calls N calls (behind_call N call cache) → IsFaithful frame (reported result) }
    {
        let place = place_of(&self.slots, self.order.as_slice(), &activity.into_bytes());
        let Some(place) = place else {
            return Looked::New;
        };
        let slot = &self.slots[self.order.as_slice()[place]];
        if sequence == slot.sequence {
            return Looked::Again(&slot.frame);
        }
        // To answer it again would hand its caller the response to another call.
        if sequence < slot.sequence {
            return Looked::Old;
        }
        Looked::New
    }

    /// Stores the response to a call as its frame, so that a repeated call gets the same response whatever has changed
    /// since. It replaces the response of its activity or, if none is stored and the cache is full, the response that
    /// was stored longest ago.
    pub fn keep(&mut self, activity: &Uuid, sequence: u32, frame: &Frame)
        requires { 0 < N }
        ensures { self.new ≡ kept_more N (record { activity = activity.now; sequence = sequence; frame = frame.now.items }) self.old }
    {
        let activity = activity.into_bytes();
        let place = place_of(&self.slots, self.order.as_slice(), &activity);
        let index = take_slot(&mut self.order, place);
        let slot = &mut self.slots[index];
        slot.fill(&activity, sequence, frame);
        self.order.insert(0, index);
    }
}
