use crate::writes::TakenRecord;
use block_codec::IodWriteReq;
use pn_values::ImValue;

/// A Write that passed all checks.
#[derive(Drop)]
pub struct Write {
    /// The header of the request, which the response repeats.
    pub request: IodWriteReq,
    /// The effect that it asks for.
    pub effect: Effect,
}

/// The effect that a Write asks for.
#[derive(Drop)]
pub enum Effect {
    /// An I&M text is stored.
    Stores(ImValue),
    /// A parameter record is stored until the relation ends.
    Keeps(TakenRecord),
}
