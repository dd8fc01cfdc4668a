//! Attributes and sets of them, resources, instrumentation scopes, faults, and what all metrics share.
//!
//! Contracts see each type as plain data: a string as its bytes, a list as its items. So `≡` between two values of
//! these types says that their contents are equal.
#![tactic(auto)]

pub mod attributes;
pub mod bounds;
pub mod canonical;
pub mod common;
mod display;
pub mod faults;
pub mod keys;
pub mod laws;
pub mod lists;
pub mod metrics;
pub mod outside;
pub mod resource;
mod resource_builder;
mod resource_iter;
pub mod scopes;
mod sets;
pub mod strings;
mod words;
