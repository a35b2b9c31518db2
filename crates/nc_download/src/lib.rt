//! A file looked for: its metadata, or the lengths of many files, while at most two clouds fail; and its chunks, asked for and judged.
#![tactic(auto)]

mod asks;
mod at_once;
mod fault;
mod finding;
mod inner;
mod judging;
mod listing;
mod short;
mod showing;

pub use asks::{push_ask, wanted};
pub use at_once::{judge_by, judge_frame};
pub use fault::FetchFault;
pub use finding::find;
pub use inner::payload_in;
pub use judging::{Wanted, judge};
pub use listing::{ListStop, find_all};
pub use short::{Bad, How, ShortList, Why};
pub use showing::shown;
