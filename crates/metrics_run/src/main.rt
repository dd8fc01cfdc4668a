//! Reads a script of calls of a metrics pipeline from standard input, runs it, and prints the replies. With an argument
//! it prints each collection instead, as `prometheus`, `openmetrics` or `otlp`; with `last` behind it, the last one of
//! reader 0 alone. With `explain` it runs nothing, and says of each bad line which word is wrong and why.
#![tactic(auto)]

use metrics_script::commands::obey;
use std::env;
use std::process::ExitCode;

fn main(rt: HostRuntime) -> ExitCode {
    let arguments = env::args(&rt);
    ExitCode::from(obey(rt.alloc(), arguments, rt.reader(), rt.stdout(), rt.stderr()))
}
