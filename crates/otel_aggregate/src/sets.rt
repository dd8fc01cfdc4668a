//! Attributes that are looked up: those of a list in any order, and what an allow-list keeps of them.

pub mod allowed_keys;
pub mod forms;
pub mod listed;
pub mod references;
