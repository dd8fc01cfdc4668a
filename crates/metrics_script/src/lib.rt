//! Reads a script of calls of a metrics pipeline, runs it, and prints the replies, or its collections as exporters do; or
//! says what is wrong with it.
#![tactic(auto)]

mod aggregations;
mod attributes;
mod boundaries;
mod calls;
pub mod commands;
pub mod explain;
pub mod exports;
pub mod failures;
mod keys;
mod kinds;
mod named;
mod numbers;
mod options;
pub mod points;
mod printing;
mod readers;
mod reasons;
mod refusals;
mod rows;
pub mod script;
pub mod script_lines;
mod streams;
mod texts;
mod verbs;
pub mod views;
