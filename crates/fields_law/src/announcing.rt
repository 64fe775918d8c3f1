//! The announcement of a station, read back.
ghost use Rattle.lldp.specs.Announcement.{IsSayable, Station, announcement};
ghost use Rattle.fields_law.specs.Announcement.{IsAnnouncement};

/// What a station says of itself by LLDP.
pub fn announcements_are_read_back()
    // Its TLVs are those of the station, in their order, and nothing follows them but padding.
    ensures { (station : Station) → IsSayable station → IsAnnouncement (announcement station) station }
{}
