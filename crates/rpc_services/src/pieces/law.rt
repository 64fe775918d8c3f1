//! Laws of fragments. No code is involved.
ghost use Rattle.std.specs.Prelude.{◌≡◌, ◌≢◌, ◌+◌, ◌<◌, ◌≤◌, ℕ, Bool, List, length, get_or, map, slice_index, Some, false, true};
ghost use Rattle.std.specs.List.{All, list_any};
ghost use Rattle.wire.specs.Codec.{IsSound};
ghost use Rattle.rpc_core.specs.declared.call_headers.call.Head.{Head};
ghost use Rattle.rpc_core.specs.call_headers.Call.{head};
ghost use Rattle.rpc_services.specs.declared.pieces.piece.Kind.{Kind};
ghost use Rattle.rpc_services.specs.pieces.Piece.{Piece, piece_of};
ghost use Rattle.rpc_services.specs.pieces.State.{Joined, State, after_piece, at_place, blank, heard_as, holds, is_live, is_of, is_unfinished, older_than, place_in, place_of, starts};
ghost use Rattle.rpc_services.specs.pieces.Leaps.{due_in, ticks_of};
ghost use Rattle.rpc_services.specs.pieces.Split.{IsSendable, piece_bytes, piece_in, pieces_in, whole_of};
ghost use Rattle.rpc_services.specs.pieces.Run.{Arrival, BeginsNone, CanJoin, Event, IsCompleted, StartsNone, after, events_of, next_of, since, ticks_in};

/// Reading, writing and spelling of headers agree.
pub fn headers_are_sound()
    // The format of the header is sound.
    ensures { IsSound head }
{}

/// What is joined, for any fragments.
pub fn joined_calls_are_their_fragments()
    // A whole consists of the octets of the fragments of one activity and sequence, from the first one to the last one, in the
    // order of their numbers, each once. Nothing else is joined.
    ensures { (kind : Kind) (past : List Event) (bytes whole : List ℕ) → heard_as (since kind past) bytes ≡ Joined whole →
        IsCompleted kind past bytes whole }
{}

/// Which call makes room for one of another activity.
pub fn finished_calls_make_room()
    // An unfinished call makes room only if all places have unfinished calls.
    ensures finished { (state : State) (h : Head) → All (λ age. age ≤ 3) state.ages → list_any (is_of h) state.calls ≡ false →
        is_unfinished (get_or state.calls (place_of h state.ages state.calls) blank) ≡ true → All (λ u. is_unfinished u ≡ true) state.calls }
    // Then it is the one that began first, also among those that began in one tick: no other place has a greater age.
    ensures order { (state : State) (h : Head) (place : ℕ) → All (λ age. age ≤ 3) state.ages → list_any (is_of h) state.calls ≡ false →
        is_unfinished (get_or state.calls (place_of h state.ages state.calls) blank) ≡ true → place < length state.calls →
        slice_index state.ages place ≤ slice_index state.ages (place_of h state.ages state.calls) }
    // A call that begins is the youngest.
    ensures youngest { (state : State) (p : Piece) → starts (at_place state p) p ≡ true → place_in state p < length state.ages →
        slice_index (after_piece state (Some p)).ages (place_in state p) ≡ 0 }
    // Those that began after the call that made room are older by one place, and those that began before it are as old as before.
    ensures others { (state : State) (p : Piece) (place : ℕ) → starts (at_place state p) p ≡ true → place ≢ place_in state p →
        place < length state.ages → slice_index (after_piece state (Some p)).ages place
        ≡ older_than (slice_index state.ages (place_in state p)) (slice_index state.ages place) }
{}

/// How long fragments may be missing.
pub fn unfinished_calls_are_dropped()
    // 64,000 ticks after a call began it is not unfinished any more, whatever is heard, unless it begins again.
    ensures dropped { (state : State) (h : Head) (events : List Event) → All (λ u. u.left ≤ 64000) state.calls → BeginsNone state.kind h events →
        64000 ≤ ticks_in events → list_any (holds h) (after state events).calls ≡ false }
    // Its first fragment may come again: while the call is there, a repeat does not begin it again, and gives it no more time.
    ensures repeated { (state : State) (h : Head) (events : List Event) → All (λ u. u.left ≤ 64000) state.calls → StartsNone state h events →
        64000 ≤ ticks_in events → list_any (holds h) (after state events).calls ≡ false }
{}

/// When a call is dropped, unless its last fragment comes.
pub fn calls_are_kept_until_due()
    // Before the tick that `Joiner::due_in` tells, each unfinished call stays in its place.
    ensures kept { (state : State) (ticks : ℕ) (h : Head) → ticks < due_in state →
        map (holds h) (ticks_of ticks state).calls ≡ map (holds h) state.calls }
    // With that tick a call is dropped.
    ensures dropped { (state : State) → due_in state < 4294967295 →
        map is_live (ticks_of (due_in state) state).calls ≢ map is_live state.calls }
{}

/// Fragments that are written are read.
pub fn fragments_are_read()
    // What is read of a fragment is its header and its part of the body.
    ensures { (kind : Kind) (h : Head) (wanted : Bool) (number : ℕ) (body : List ℕ) → IsSendable kind h → length body ≤ 4152 →
        number < pieces_in (length body) → piece_of kind (piece_bytes h wanted number body) ≡ Some (piece_in h wanted number body) }
{}

/// A call that is split and joined.
pub fn joined_is_what_was_split()
    // The fragments of a call come in any order, each any number of times, in fewer than 64,000 ticks. If those before the last
    // one came in their order too, with others between them, the last one completes the call, and what is joined is the call.
    ensures whole { (state : State) (h : Head) (wanted : Bool) (body : List ℕ) (arrivals : List Arrival) (number : ℕ) →
        CanJoin state h wanted body arrivals → number + 1 ≡ pieces_in (length body) →
        next_of (pieces_in (length body)) 0 arrivals ≡ number →
        heard_as (after state (events_of h wanted body arrivals)) (piece_bytes h wanted number body) ≡ Joined (whole_of h wanted body) }
    // Until then nothing is joined.
    ensures none { (state : State) (h : Head) (wanted : Bool) (body whole : List ℕ) (arrivals : List Arrival) (number : ℕ) →
        CanJoin state h wanted body arrivals → number < pieces_in (length body) →
        heard_as (after state (events_of h wanted body arrivals)) (piece_bytes h wanted number body) ≡ Joined whole →
        (number + 1 ≡ pieces_in (length body)) × (next_of (pieces_in (length body)) 0 arrivals ≡ number) }
{}
