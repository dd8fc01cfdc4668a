//! Whole runs of a provider where no script can say what is done: typed instruments, handles and callbacks as values, readers
//! of a program's own, other identities, scopes and resources in full; and of a provider that threads share.

mod callbacks;
mod cases;
mod kept;
mod metered;
mod numbers;
mod readers;
mod refusing;
mod resources;
mod seeds;
mod shared;
mod shown;
mod shutdowns;
mod support;
mod texts;
mod turns;
mod typed;
mod vectors;
mod wholes;
