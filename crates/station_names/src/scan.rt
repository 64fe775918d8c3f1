// The facts about the labels of a text, found in one pass over its octets.
ghost use Rattle.std.specs.Prelude.{◌≡◌, ◌≢◌, ◌++◌, ◌+◌, ◌<◌, ◌≤◌, ◌↔◌, ℕ, List, [], ◌∷◌, length, IsTrue};
ghost use Rattle.pn_values.specs.StationName.{IsPort};
ghost use Rattle.station_names.specs.NameFault.{HasFault};
ghost use Rattle.station_names.specs.Found.{Seen, IsFound};

use crate::NameFault;
use crate::label::{has_hyphen_end, is_address_part, is_label_byte, is_letter, is_port};

/// The facts about the labels so far.
#[derive(Clone, Copy)]
struct Labels {
    /// The number of labels.
    count: usize,
    has_empty: bool,
    /// Whether a label has more than 63 bytes.
    has_long: bool,
    has_hyphen_end: bool,
    /// Whether each label has the form of a part of an IP address.
    are_address_parts: bool,
    /// Whether the first label is the name of a port.
    begins_with_port: bool,
}

impl Labels {
    fn none() -> Labels
        ensures seen { Seen [] result }
        ensures count { result.count ≡ 0 }
    {
        Labels {
            count: 0,
            has_empty: false,
            has_long: false,
            has_hyphen_end: false,
            are_address_parts: true,
            begins_with_port: false,
        }
    }

    /// The facts with one more label.
    fn and(self, label: &[u8]) -> Labels
        requires { self.count < 1000 }
        ensures seen { (labels : List (List ℕ)) → Seen labels self → Seen (labels ++ label.now ∷ []) result }
        ensures count { result.count ≡ self.count + 1 }
    {
        Labels {
            count: self.count + 1,
            has_empty: self.has_empty | label.is_empty(),
            has_long: self.has_long | (label.len() > 63),
            has_hyphen_end: self.has_hyphen_end | has_hyphen_end(label),
            are_address_parts: self.are_address_parts & is_address_part(label),
            begins_with_port: self.begins_with_port_before(label),
        }
    }

    /// Whether the first label is the name of a port, if this one is the next.
    fn begins_with_port_before(self, label: &[u8]) -> bool
        ensures first { self.count ≡ 0 → IsTrue result ↔ IsPort label.now }
        ensures later { self.count ≢ 0 → result ≡ self.begins_with_port }
    {
        if self.count == 0 {
            is_port(label)
        } else {
            self.begins_with_port
        }
    }
}

/// The facts about a text.
#[derive(Clone, Copy)]
pub(crate) struct Found {
    labels: Labels,
    has_bad_byte: bool,
}

impl Found {
    /// The facts about a text of at most 240 bytes.
    pub(crate) fn of(bytes: &[u8]) -> Found
        requires { length bytes.now ≤ 240 }
        ensures { IsFound bytes.now result }
    {
        let mut labels = Labels::none();
        let mut has_bad_byte = false;
        let mut start = 0;
        for index in 0..bytes.len() {
            let byte = bytes[index];
            // Most bytes are letters, which need no further test.
            if !is_letter(byte) {
                if byte == b'.' {
                    labels = labels.and(&bytes[start..index]);
                    start = index + 1;
                } else if !is_label_byte(byte) {
                    has_bad_byte = true;
                }
            }
        }
        Found {
            labels: labels.and(&bytes[start..]),
            has_bad_byte,
        }
    }

    /// Whether the text has a fault.
    pub(crate) fn has(&self, fault: NameFault) -> bool
        ensures { (bytes : List ℕ) → IsFound bytes self.now → IsTrue result ↔ HasFault bytes fault }
    {
        match fault {
            NameFault::TooLong => false,
            NameFault::EmptyLabel => self.labels.has_empty,
            NameFault::LabelTooLong => self.labels.has_long,
            NameFault::BadByte => self.has_bad_byte,
            NameFault::HyphenEnd => self.labels.has_hyphen_end,
            NameFault::LooksLikeAddress => self.labels.count == 4 && self.labels.are_address_parts,
            NameFault::PortForm => self.labels.begins_with_port,
        }
    }
}
