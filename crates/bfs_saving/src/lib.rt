//! A replica as bytes, to be kept over a crash, and read back to what it was: its parts have one text each (this project's profile, in the items of XDR,
//! RFC 4506), and nothing else is read.
#![tactic(auto)]

mod certificates;
mod changes;
mod error;
mod fronts;
mod items;
mod logs;
mod messages;
mod orders;
mod reader;
mod requests;
mod saved;
mod sealing;
mod states;

pub use certificates::put_stable;
pub use changes::put_changes;
pub use error::SavedError;
pub use fronts::{MAGIC, VERSION, put_front, refusal};
pub use items::{Saved, put_long, put_many};
pub use messages::{Carried, put_new_view};
pub use orders::put_order;
pub use reader::SavedReader;
pub use requests::put_requests;
pub use saved::{SavedNode, SavedState, read_saved};
pub use sealing::seal;
pub use states::{begin_long, begin_many, begin_state, end_long};
