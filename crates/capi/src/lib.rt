// The C interface, declared in include/zovunelith.h: each call of the other crates under a plain name, its answer as one number.
// Any values may come in: the calls refuse what is out of range.
#![tactic(auto)]

pub mod checking;
pub mod coding;
pub mod dyadics;
pub mod elements;
pub mod essences;
pub mod gear_rows;
pub mod listings;
pub mod repairing;
pub mod riding;
pub mod selections;
pub mod senders;
