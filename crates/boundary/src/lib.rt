// The boundary of a unit: its edges, listed by the one walk over the caller's corners, and what is asked
// of a list of edges. An edge stands in a list as four numbers: latitude and longitude of its start, then
// of its end.
#![tactic(auto)]

mod asked;
mod walk;

pub use asked::{inside, odd_count};
pub use walk::{list_edges, put_edge};
