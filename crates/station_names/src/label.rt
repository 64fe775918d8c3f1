// The tests of a single label.
ghost use Rattle.std.specs.Prelude.{◌≡◌, ◌&&◌, ◌↔◌, All, IsTrue, nat_le};
ghost use Rattle.pn_values.specs.StationName.{is_digit, is_label_byte as is_allowed, IsAddressPart, IsPort};
ghost use Rattle.station_names.specs.NameFault.{HasHyphenEnd};

/// Whether the byte is one of `a` to `z`.
pub(crate) fn is_letter(byte: u8) -> bool
    ensures { result ≡ (nat_le 97 byte && nat_le byte 122) }
{
    byte.is_ascii_lowercase()
}

/// Whether the byte is one of `a` to `z`, `0` to `9` and `-`.
pub(crate) fn is_label_byte(byte: u8) -> bool
    ensures { result ≡ is_allowed byte }
{
    matches!(byte, b'a'..=b'z' | b'0'..=b'9' | b'-')
}

/// Whether the label begins or ends with `-`.
pub(crate) fn has_hyphen_end(label: &[u8]) -> bool
    ensures { IsTrue result ↔ HasHyphenEnd label.now }
{
    label.starts_with(b"-") || label.ends_with(b"-")
}

/// Whether the label has one to three digits, like each part of an IP address.
pub(crate) fn is_address_part(label: &[u8]) -> bool
    ensures { IsTrue result ↔ IsAddressPart label.now }
{
    matches!(label.len(), 1..=3) && all_digits(label)
}

/// Whether the label is `port-` and three digits, optionally followed by `-` and five digits.
pub(crate) fn is_port(label: &[u8]) -> bool
    ensures { IsTrue result ↔ IsPort label.now }
{
    match label.strip_prefix(b"port-") {
        Some(port) if port.len() == 3 => all_digits(port),
        Some(port) if port.len() == 9 => {
            all_digits(&port[..3]) && port[3] == b'-' && all_digits(&port[4..])
        }
        _ => false,
    }
}

fn all_digits(bytes: &[u8]) -> bool
    ensures { IsTrue result ↔ All (λ byte. IsTrue (is_digit byte)) bytes.now }
{
    bytes.iter().all(|byte| byte.is_ascii_digit())
}
