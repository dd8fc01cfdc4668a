//! Worked rows as scripts, each with what it prints.

mod awkward;
mod counters;
mod handles;
mod histograms;
mod observed;
mod readers;
mod views;
