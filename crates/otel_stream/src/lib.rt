//! Kinds of instruments, readers, views, callbacks, and the settings of streams.
#![tactic(auto)]

pub mod answers;
pub mod boxed;
pub mod boxed_callback;
mod by_kind;
pub mod callback;
pub mod compatible;
pub mod demand;
pub mod each_reader;
pub mod instrument;
pub mod laws;
pub mod limit;
pub mod manual_reader;
pub mod no_callback;
pub mod observation;
mod patterns;
pub mod reader;
pub mod registered;
pub mod selector;
pub mod stream;
pub mod stream_fault;
pub mod stream_spec;
pub mod units;
pub mod view;
mod wants;
