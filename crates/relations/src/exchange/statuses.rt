//! The statuses that the application of a device gives to its inputs.
ghost use Rattle.std.specs.Prelude.{◌≡◌, is_some, unwrap_or};
ghost use Rattle.std.specs.List.{list_any};
ghost use Rattle.module_diff.specs.Plugged.{submodule_ident};
ghost use Rattle.relations.specs.exchange.Statuses.{is_bad, is_for, remaining_statuses, replaced, statuses_at, statuses_with};

use arrayvec::ArrayVec;
use module_diff::{Affected, module_in, part_ident};
use pn_values::Real;

/// The status of the inputs of a submodule, as the application of a device gave it last.
#[derive(Clone, Copy, Default)]
pub struct InputStatus {
    /// SlotNumber.
    pub slot: u16,
    /// SubslotNumber.
    pub subslot: u16,
    /// Whether the inputs are good.
    pub is_good: bool,
}

impl InputStatus {
    /// Whether it is that of this submodule.
    fn is_for(&self, slot: u16, subslot: u16) -> bool
        ensures { result ≡ is_for slot subslot self.now }
    {
        self.slot == slot && self.subslot == subslot
    }
}

/// Whether the inputs of this submodule are bad. They are good as long as no status was given.
pub fn is_bad(statuses: &[InputStatus], slot: u16, subslot: u16) -> bool
    ensures { result ≡ is_bad slot subslot statuses.now }
{
    statuses
        .iter()
        .any(|status| status.is_for(slot, subslot) && !status.is_good)
}

/// Whether a status of this submodule was given.
fn is_known(statuses: &[InputStatus], slot: u16, subslot: u16) -> bool
    ensures { result ≡ list_any (is_for slot subslot) statuses.now }
{
    statuses.iter().any(|status| status.is_for(slot, subslot))
}

/// Puts a status in the place of the one that was given before for the same submodule, or after all others. Returns whether the
/// submodule is plugged and there is room; if not, nothing changes. There is room for 64, as many as submodules can be
/// plugged.
pub fn put_status(
    statuses: &mut ArrayVec<InputStatus, 64>,
    real: &Real,
    status: InputStatus,
) -> bool
    ensures done { result ≡ is_some (statuses_at real.now.modules.items status statuses.old.items) }
    ensures state { statuses.new.items ≡ unwrap_or (statuses_at real.now.modules.items status statuses.old.items) statuses.old.items }
{
    is_plugged(real, status.slot, status.subslot) && put(statuses, status)
}

/// Whether a submodule is plugged there.
pub fn is_plugged(real: &Real, slot: u16, subslot: u16) -> bool
    ensures { result ≡ is_some (submodule_ident real.now.modules.items slot subslot) }
{
    match module_in(real, slot) {
        Some(module) => part_ident(module, subslot).is_some(),
        None => false,
    }
}

/// Puts a status in the place of the one that was given before for the same submodule, or after all others. Returns whether there
/// is room; if not, nothing changes.
fn put(statuses: &mut ArrayVec<InputStatus, 64>, status: InputStatus) -> bool
    ensures done { result ≡ is_some (statuses_with status statuses.old.items) }
    ensures state { statuses.new.items ≡ unwrap_or (statuses_with status statuses.old.items) statuses.old.items }
{
    if !is_known(statuses.as_slice(), status.slot, status.subslot) {
        return statuses.try_push(status).is_ok();
    }
    replace(statuses, status);
    true
}

/// Puts a status in the place of each of the same submodule.
fn replace(statuses: &mut ArrayVec<InputStatus, 64>, status: InputStatus)
    ensures { statuses.new.items ≡ replaced status statuses.old.items }
{
    let mut next = ArrayVec::new();
    for other in statuses.as_slice() {
        next.push(if other.is_for(status.slot, status.subslot) {
            status
        } else {
            *other
        });
    }
    *statuses = next;
}

/// Forgets the statuses of submodules that were pulled.
pub fn forget_statuses(statuses: &mut ArrayVec<InputStatus, 64>, gone: Affected)
    ensures { statuses.new.items ≡ remaining_statuses gone statuses.old.items }
{
    let mut next = ArrayVec::new();
    for status in statuses.as_slice() {
        if !gone.covers(status.slot, status.subslot) {
            next.push(*status);
        }
    }
    *statuses = next;
}
