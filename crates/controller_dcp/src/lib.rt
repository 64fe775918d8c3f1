//! A controller as a DCP station (IEC 61158-6-10, 4.3): tools find it by Identify, read what it is by Get, and get each Set refused, since its
//! name and its address are those of the plan. The answer depends on the plan and the frame alone. Nothing is stored.
#![tactic(auto)]

mod answers;
mod blocks;
mod station;
mod values;

pub use station::answer;
