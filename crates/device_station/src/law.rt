//! Laws of stations. No code is involved.
ghost use Rattle.device_station.specs.Beside.{ConflictsAreNoticed};

/// A device never accepts a conflict of its IP address in silence: it drops the packet of ARP, or it answers it. So what
/// it neither dropped nor answered need not be read again for conflicts.
pub fn conflicts_are_noticed()
    ensures { ConflictsAreNoticed }
{}
