//! What an engineering tool does before a controller starts: it finds the station at a place and gives it its name, and
//! reads records of stations, from which it learns where their cables lead.
//!
//! A station that replaces a broken one has no name, but its neighbour is the same: it answers to the name that it has by its
//! place (AliasName, IEC 61158-6-10, 4.3.1.4.16). A `Search` asks who answers to that name. It then gives a name to the
//! station that answered, if it was the only one and has none.
#![tactic(auto)]

mod law;
mod naming;
mod record;
mod request;
mod search;

pub use law::{a_nameless_station_is_alone, an_answer_belongs_to_its_search};
pub use naming::Unnamed;
pub use record::{RecordPlace, RecordTold, Target, read_record, record_told};
pub use request::identify_by_alias;
pub use search::Search;
