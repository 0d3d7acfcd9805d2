// From the arguments of the command line to a call.
ghost use Rattle.std.specs.Prelude.{◌≡◌, ◌≢◌, ◌≤◌, drop, map, string_bytes, Err, IfErr, IfOk, MatchResult};
ghost use Rattle.std.specs.IoError.{error_kind};
ghost use Rattle.std.specs.declared.io.ErrorKind.TheVariants.{OutOfMemory};
ghost use Rattle.std.specs.Vec.Iter.{into_iter_items};
ghost use Rattle.fiasco_run.specs.Served.{IsPutAlone};
ghost use Rattle.fiasco_run.specs.Headline.{IsAnsweredOrShort};

use crate::exit::Exit;
use crate::serve::top;
use k_outside::{Sink, Source, StdSink};
use std::alloc::{AllocError, Global};
use std::env::Args;
use std::io;
use std::io::Write;

/// The words of the call: all arguments but the first, which is the program's name.
fn words_of(alloc: Global, arguments: Args) -> Result<Vec<String>, AllocError>
    ensures { IfOk result (λ words. words.items ≡ drop 1 (into_iter_items arguments)) }
{
    arguments.skip(1).collect(alloc)
}

/// The status where the system doesn't tell the arguments: want of memory, and else no form of a call, as where one is no text.
fn untold_exit(error: &io::Error) -> Exit
    ensures memory { error_kind error.now ≡ OutOfMemory → result ≡ Exit.NoMemory }
    ensures form { error_kind error.now ≢ OutOfMemory → result ≡ Exit.Usage }
{
    if error.kind() == io::ErrorKind::OutOfMemory {
        Exit::NoMemory
    } else {
        Exit::Usage
    }
}

/// The words of the call, or the status where they aren't had.
fn words_told(alloc: Global, arguments: io::Result<Args>) -> Result<Vec<String>, Exit>
    ensures told { IfOk arguments (λ all. MatchResult result (λ words. words.items ≡ drop 1 (into_iter_items all)) (λ e. e ≡ Exit.NoMemory)) }
    ensures memory { IfErr arguments (λ error. error_kind error ≡ OutOfMemory → result ≡ Err Exit.NoMemory) }
    ensures form { IfErr arguments (λ error. error_kind error ≢ OutOfMemory → result ≡ Err Exit.Usage) }
{
    match arguments {
        Ok(all) => words_of(alloc, all).map_err(|_| Exit::NoMemory),
        Err(error) => Err(untold_exit(&error)),
    }
}

/// Serves the arguments of the command line, of which the first is the program's name and the others are the words of a call,
/// as [`top`] serves these words. Where there is no memory for the arguments or for the words, the status is `NoMemory`; where
/// the system doesn't tell the arguments for another reason, as where one is no text, it is `Usage`. Then the status's text is
/// put, and nothing is read.
pub fn serve_arguments<S: Source, K: Sink>(
    alloc: Global,
    arguments: io::Result<Args>,
    source: &mut S,
    sink: &mut K,
) -> Exit
    // The words behind the first argument are served as `top` serves them, or there was no memory for them.
    ensures told { IfOk arguments (λ all. IsAnsweredOrShort (map string_bytes (drop 1 (into_iter_items all))) result
        (record { given = S.left source.old; left = S.left source.new; before = S.faults source.old; now = S.faults source.new })
        (record { held = K.held sink.old; holds = K.held sink.new; before = K.faults sink.old; now = K.faults sink.new })) }

    // The arguments aren't told.
    ensures memory { IfErr arguments (λ error. error_kind error ≡ OutOfMemory → IsPutAlone result Exit.NoMemory
        (record { given = S.left source.old; left = S.left source.new; before = S.faults source.old; now = S.faults source.new })
        (record { held = K.held sink.old; holds = K.held sink.new; before = K.faults sink.old; now = K.faults sink.new })) }
    ensures form { IfErr arguments (λ error. error_kind error ≢ OutOfMemory → IsPutAlone result Exit.Usage
        (record { given = S.left source.old; left = S.left source.new; before = S.faults source.old; now = S.faults source.new })
        (record { held = K.held sink.old; holds = K.held sink.new; before = K.faults sink.old; now = K.faults sink.new })) }
    ensures later { (S.faults source.old ≤ S.faults source.new) × (K.faults sink.old ≤ K.faults sink.new) }
{
    match words_told(alloc, arguments) {
        Ok(words) => top(alloc, &words, source, sink),
        Err(exit) => exit.put(sink),
    }
}

/// Serves the arguments of the command line over a writer, as [`serve_arguments`] does over any sink, and sends on what the
/// writer has held back. Where that fails, the sink has failed, and the status is `WriteFault`.
pub fn serve_flushed<S: Source, W: Write>(
    alloc: Global,
    arguments: io::Result<Args>,
    source: &mut S,
    sink: &mut StdSink<W>,
) -> Exit
    // The words behind the first argument are served as `top` serves them, or there was no memory for them.
    ensures told { IfOk arguments (λ all. IsAnsweredOrShort (map string_bytes (drop 1 (into_iter_items all))) result
        (record { given = S.left source.old; left = S.left source.new; before = S.faults source.old; now = S.faults source.new })
        (record { held = W.contents sink.old.writer; holds = W.contents sink.new.writer; before = sink.old.faults; now = sink.new.faults })) }

    // The arguments aren't told.
    ensures memory { IfErr arguments (λ error. error_kind error ≡ OutOfMemory → IsPutAlone result Exit.NoMemory
        (record { given = S.left source.old; left = S.left source.new; before = S.faults source.old; now = S.faults source.new })
        (record { held = W.contents sink.old.writer; holds = W.contents sink.new.writer; before = sink.old.faults; now = sink.new.faults })) }
    ensures form { IfErr arguments (λ error. error_kind error ≢ OutOfMemory → IsPutAlone result Exit.Usage
        (record { given = S.left source.old; left = S.left source.new; before = S.faults source.old; now = S.faults source.new })
        (record { held = W.contents sink.old.writer; holds = W.contents sink.new.writer; before = sink.old.faults; now = sink.new.faults })) }
    ensures later { (S.faults source.old ≤ S.faults source.new) × (sink.old.faults ≤ sink.new.faults) }
{
    let exit = serve_arguments(alloc, arguments, source, sink);
    match sink.flush() {
        Ok(()) => exit,
        Err(_) => Exit::WriteFault,
    }
}
