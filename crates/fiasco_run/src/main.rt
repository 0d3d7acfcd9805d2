//! `fiasco_run`: runs a script of thread programs on a kernel core with helping locks, or judges a history of one.
//!
//! The program is one call, [`top`], between the outside and the rest of the house. It looks at the words and reads the source.
//! For `run` the source has a script: `top` runs its schedule, and puts the report into the sink. For `check` it has a script, a
//! line that is `--`, and the lines of a history: `top` judges the history by the script, and puts the verdict. For `big N` it
//! runs a generated script, and puts the totals. Its contract is what the whole project promises: the report is that of the run of
//! the schedule of the script that the source's bytes spell, and its history is a legal, playing, finished one of that script;
//! `legal` is said exactly of such a history; and every other status has its cause.
//!
//! [`serve_arguments`] gives `top` the words behind the program's name, and [`serve_flushed`] does so over a writer, and sends on
//! what the writer has held back. `main` gives it what the system tells of the command line, standard input, and standard output
//! through a buffer, and ends with the number of its status.
//!
//! A run makes one atomic step after the other, by the carrier that the script's schedule says (k_dispatch). A check makes the
//! events of its history on the machine of the sequential specification, in the history's order.
#![tactic(auto)]

mod arguments;
mod call;
mod check;
mod due;
mod exit;
mod laws;
mod number;
mod run;
mod serve;

pub use arguments::{serve_arguments, serve_flushed};
pub use call::Call;
pub use exit::Exit;
use k_outside::{StdSink, StdSource};
pub use laws::{bytes_call_for_one_status, what_is_served_is_accepted};
pub use serve::top;
use std::io::BufWriter;
use std::process::ExitCode;
use std::{env, io};

fn main(rt: HostRuntime) -> ExitCode {
    let (alloc, mut source) = (rt.alloc(), StdSource::of(rt.reader()));
    let exit = match BufWriter::new(alloc, io::writer(&rt)) {
        Ok(writer) => serve_flushed(alloc, env::args(&rt), &mut source, &mut StdSink::of(writer)),
        Err(_) => Exit::NoMemory.put(&mut StdSink::of(io::writer(&rt))),
    };
    ExitCode::from(exit.number())
}

#[cfg(test)]
mod tests;
