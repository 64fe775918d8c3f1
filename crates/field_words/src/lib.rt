//! What the standard says of frames, in words of its own: octets and numbers at fixed places. The laws are stated in these words.
//!
//! The crate has definitions alone. They share nothing with the formats and machines of the product, which are proved to meet them; so a
//! mistake that is alike in code and in its definition is refused by a law.
#![tactic(auto)]
