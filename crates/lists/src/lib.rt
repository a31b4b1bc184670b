//! Two lists: one whose elements stay where they are, so that little is shifted where one comes or goes; and one of few elements,
//! which lie in the list itself, so that it takes no memory of its own.
#![tactic(auto)]

mod row_list;
mod small_list;

pub use row_list::RowList;
pub use small_list::SmallList;
