// Get: the values asked for.
ghost use Rattle.std.specs.Prelude.{◌≡◌, ◌+◌, ◌≤◌, ◌++◌, length, map, option_map};
ghost use Rattle.std.specs.List.{list_any};
ghost use Rattle.arrayvec.specs.ArrayVec.{array_vec_len};
ghost use Rattle.dcp_core.specs.Kinds.{is_same};
ghost use Rattle.dcp_core.specs.Request.{asked};
ghost use Rattle.dcp_core.specs.Identify.{most_of};
ghost use Rattle.dcp_core.specs.Get.{get_bytes, got};

use crate::bytes::{Answer, Blocks, put_answer, put_response};
use crate::identify::{AliasName, put_value};
use crate::{Block, Kind, Request};
use pn_values::{Identity, Settings};

/// The response to a Get of a station with this name by its place, if it has one: for each pair, in order, its value or why
/// it has none. A repeated pair is answered at its first position only.
pub fn get_answer(
    identity: &Identity,
    settings: &Settings,
    alias: Option<&AliasName>,
    request: &Request<'_>,
) -> Answer
    // The response has exactly the octets of the definition: for each pair, in order, its value or why it has none.
    ensures items { result.items ≡ get_bytes identity.now settings.now (option_map (λ alias. alias.now.items) alias.entry) (asked request.now) }
    // The response has at most 1223 octets.
    ensures length { length result.items ≤ 1223 }
{
    let asked_for = request.blocks.as_slice();
    let mut blocks = Blocks::new();
    for (index, block) in asked_for.iter().enumerate() {
        // A repeated pair is answered once, so that a response never has more than 16 values.
        if !is_among(&asked_for[..index], block.kind) {
            put_pair(&mut blocks, identity, settings, alias, block.kind);
        }
    }
    let mut answer = Answer::new();
    put_answer(&mut answer, 3, request.xid, &blocks);
    answer
}

/// Whether one of these blocks is about this kind.
fn is_among(earlier: &[Block<'_>], kind: Kind) -> bool
    ensures { result ≡ list_any (is_same kind) (map (λ block. block.kind) earlier.now) }
{
    earlier.iter().any(|block| kind.is_same(block.kind))
}

/// Appends the value of a kind, or the error that says why it has none. There must be room.
fn put_pair(
    blocks: &mut Blocks,
    identity: &Identity,
    settings: &Settings,
    alias: Option<&AliasName>,
    kind: Kind,
)
    requires { array_vec_len blocks.old + most_of kind ≤ 1213 }
    ensures items { blocks.new.items ≡ blocks.old.items ++ got identity.now settings.now (option_map (λ alias. alias.now.items) alias.entry) kind }
    ensures most { array_vec_len blocks.new ≤ array_vec_len blocks.old + most_of kind }
{
    if !put_value(blocks, identity, settings, alias, kind) {
        put_response(blocks, kind, kind.blame());
    }
}
