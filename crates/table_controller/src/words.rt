// The words of a line.
use controller_core::State;
use frame_codec::Bytes;
use std::alloc::{AllocError, Global};
use std::io::{self, ErrorKind};
use uuid::Uuid;

/// The error for an invalid line.
pub(crate) fn wrong() -> io::Error {
    io::Error::from(ErrorKind::InvalidData)
}

/// The first word, and the text after it.
pub(crate) fn two_words(text: &str) -> io::Result<(&str, &str)> {
    text.split_once(' ').ok_or(wrong())
}

/// A decimal number.
pub(crate) fn number(digits: &str) -> io::Result<u32> {
    digits.parse::<u32>().map_err(|_| wrong())
}

/// The number of a slot or of a subslot.
pub(crate) fn place(digits: &str) -> io::Result<u16> {
    u16::try_from(number(digits)?).map_err(|_| wrong())
}

/// The octets that hex digits spell. At most the first 1,519 count.
pub(crate) fn bytes(alloc: Global, digits: &str) -> io::Result<Bytes> {
    let Ok(octets) = hex::decode(alloc, digits) else {
        return Err(wrong());
    };
    let mut bytes = Bytes::new();
    for octet in octets.iter().take(1519) {
        let _is_full = bytes.try_push(*octet).is_err();
    }
    Ok(bytes)
}

/// A UUID.
pub(crate) fn uuid(text: &str) -> io::Result<Uuid> {
    text.parse::<Uuid>().map_err(|_| wrong())
}

/// Appends octets in hex, or `-` if there are none.
pub(crate) fn put_hex(alloc: Global, octets: &[u8], text: &mut String) -> Result<(), AllocError> {
    if octets.is_empty() {
        return text.push_str("-");
    }
    text.push_str(hex::encode(alloc, octets)?.as_str())
}

/// Appends a decimal number.
pub(crate) fn put_number(number: u32, text: &mut String) -> Result<(), AllocError> {
    let mut buffer = itoa::Buffer::new();
    text.push_str(buffer.format(number))
}

/// The word of a state.
pub(crate) fn state_word(state: State) -> &'static str {
    match state {
        State::Looking => "looking",
        State::Addressing => "addressing",
        State::Connecting => "connecting",
        State::Writing => "writing",
        State::Ending => "ending",
        State::Waiting => "waiting",
        State::Exchanging => "exchanging",
        State::Ended(_) => "ended",
    }
}
