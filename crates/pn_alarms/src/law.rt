//! The law of the format of PDUs.
ghost use Rattle.std.specs.Prelude.{◌≡◌, ◌+◌, ◌<◌, ◌++◌, List, ℕ, length, true, Ok};
ghost use Rattle.pn_alarms.specs.Format.{Said, header, is_long, pdu_bytes, pdu_of};

/// A PDU that fits the format is read as it was written. This is a law of the definitions; the function has no code.
pub fn fitting_pdus_are_read()
    // A PDU whose header fits the format, and whose body is long enough for its type and shorter than 65,536 octets, is
    // read as it was written, with any octets after it.
    ensures read { (said : Said) (more : List ℕ) → header.Fits said.header → is_long said.header.kind (length said.body) ≡ true →
        length said.body < 65536
        → pdu_of (pdu_bytes said ++ more) ≡ Ok said }
    // A PDU has 12 octets and those of its body.
    ensures long { (said : Said) → length (pdu_bytes said) ≡ 12 + length said.body }
{}
