//! Addresses.
ghost use Rattle.std.specs.Prelude.{◌≡◌, ◌==◌, ◌%◌, nat_eq, slice_index};
ghost use Rattle.std.specs.Cmp.Lexicographic.{pointwise};
ghost use Rattle.pn_values.specs.IpSuite.{is_host as is_host_by, is_zero as is_zero_by};
ghost use Rattle.services.specs.Answer.{is_group as is_group_by};

use pn_values::Mac;

/// The broadcast MAC address.
pub(crate) const BROADCAST: Mac = Mac { octets: [255; 6] };

/// The MAC address that is not known: zeros.
pub(crate) const UNKNOWN: Mac = Mac { octets: [0; 6] };

/// Whether these are the octets of no address.
pub(crate) fn is_zero(address: [u8; 4]) -> bool
    ensures { result ≡ is_zero_by address }
{
    address == [0; 4]
}

/// Whether this is an IP address that a station may have: not 0.0.0.0, 127.0.0.0/8, a group or the broadcast address.
pub(crate) fn is_host(address: [u8; 4]) -> bool
    ensures { result ≡ is_host_by (slice_index address 0) }
{
    matches!(address[0], 1..=126 | 128..=223)
}

/// Whether two IP addresses are the same.
pub(crate) fn is_same(one: [u8; 4], other: [u8; 4]) -> bool
    ensures { result ≡ pointwise nat_eq one other }
{
    one == other
}

/// Whether a MAC address names a group of stations.
pub(crate) fn is_group(mac: Mac) -> bool
    ensures { result ≡ is_group_by mac }
{
    mac.octets[0] % 2 == 1
}
