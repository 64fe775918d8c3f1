//! Scripts and catalogues, from a reader to a writer: the text that a script prints when it is run on a demo device and
//! its controller, and the layouts of a catalogue's plan.
#![tactic(auto)]

mod fault;
mod input;
mod output;
mod plan;
mod play;
mod whole;

pub use fault::RunFault;
pub use plan::plan_text;
pub use whole::run;
