//! A call to a station, as its datagram brings it.
use frame_codec::Endpoint;
use pn_values::Mac;

/// A call to a station: the station that sent it, where its answer goes, and the body of its datagram.
#[derive(Clone, Copy)]
pub struct Called<'a> {
    pub source: Mac,
    pub caller: Endpoint,
    pub body: &'a [u8],
}
