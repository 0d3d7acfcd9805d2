// Faults of a source and of a sink, and a source that gives its bytes in pieces.
// What comes out for which input is told by the cases (docs/CASES.md).
mod pieces;

use crate::{Exit, top};
use k_outside::{MemSink, MemSource};
use pieces::Pieces;
use std::alloc::Global;
use std::process::Abort;
use std::test::Fail;

/// A call and its answer: the server is held up by the client, and helps it.
const CALL: &str =
    "kernel 1\ntable 2\nshow steps\nprogram cl\ncall #1 7 8\nend\nprogram sv\nwait\nreply got0 got1\nend\nthread 10 cl\nthread 20 sv\n";

const CALL_REPORT: &str =
    "history\n1.1 1 wait -> waits\n0.1 1 call 1.1 7 8 -> passed\n1.1 2 send 0.1 7 8 -> passed\n1.1 3 wait -> waits\n0.1 2 end\nreplies\nreply 0.1 1 got 1.1 7 8\nreply 1.1 1 got 0.1 7 8\nreply 1.1 2 sent\ncalls\ncall 0.1 1 steps 11 helped 1\ncall 0.1 2 steps 1 helped 0\ncall 1.1 1 steps 7 helped 0\ncall 1.1 2 steps 6 helped 0\ncall 1.1 3 steps 5 helped 0\nwaits\nwait 1.1 3 thread 1 got allowed 1 used 1 chain 0.1 1 1\nend 0.1 ended\nend 1.1 receiving any\ntotal events 5 steps 75 helped 1\n";

const BIG: &str = "big 1\ntotal events 2412 steps 44291 helped 805\n";

/// The smallest script and its history.
const CHECKED: &str = "kernel 1\ntable 1\nprogram a\nend\nthread 5 a\n--\n0.1 1 end\n";

/// What each call says of an input of its own.
const CALLS: [(&str, &str, &str); 3] = [
    ("run", CALL, CALL_REPORT),
    ("check", CHECKED, "legal 1\n"),
    ("big 1", "", BIG),
];

fn words(alloc: Global, text: &str) -> Result<Vec<String>, Fail> {
    let mut words = Vec::new(alloc);
    for word in text.split(' ') {
        words.push(String::from_str(alloc, word)?)?;
    }
    Ok(words)
}

fn source(alloc: Global, text: &str, fails: &[u32]) -> Result<MemSource, Fail> {
    let bytes = Vec::from_slice(alloc, text.as_bytes())?;
    Ok(MemSource::of(bytes, Vec::from_slice(alloc, fails)?))
}

fn sink(alloc: Global, fails: &[u32]) -> Result<MemSink, Fail> {
    let room = vec![in alloc; 0u8; 4096]?;
    Ok(MemSink::of(room, Vec::from_slice(alloc, fails)?))
}

/// The put of this number fails: the lines before it were put.
fn is_write_fault(
    rt: &(impl Abort + AllocGlobal),
    (text, input, output): (&str, &str, &str),
    call: u32,
) -> Result<(), Fail> {
    let alloc = rt.alloc();
    let mut source = source(alloc, input, &[])?;
    let mut sink = sink(alloc, &[call])?;
    let exit = top(alloc, &words(alloc, text)?, &mut source, &mut sink);
    assert_eq!(rt; exit, Exit::WriteFault);
    assert_eq!(rt; sink.faults(), 1);
    let mut front = String::new(alloc);
    for (line, _) in output.split_inclusive('\n').zip(0..call) {
        front.push_str(line)?;
    }
    assert_eq!(rt; sink.bytes(), front.as_bytes());
    Ok(())
}

// Each line is one put: the report has twenty-one, a verdict one, and the totals of a large script have two.
#[test]
fn a_put_that_fails_ends_the_text_there(rt: HostRuntime) -> Result<(), Fail> {
    for call in 0..21 {
        is_write_fault(&rt, CALLS[0], call)?;
    }
    is_write_fault(&rt, CALLS[1], 0)?;
    is_write_fault(&rt, CALLS[2], 0)?;
    is_write_fault(&rt, CALLS[2], 1)
}

// A call takes twice: all bytes, and then none.
#[test]
fn a_take_that_fails_is_a_read_fault(rt: HostRuntime) -> Result<(), Fail> {
    let alloc = rt.alloc();
    for ((text, input, _), call) in [(CALLS[0], 0), (CALLS[0], 1), (CALLS[1], 0), (CALLS[1], 1)] {
        let mut source = source(alloc, input, &[call])?;
        let mut sink = sink(alloc, &[])?;
        let exit = top(alloc, &words(alloc, text)?, &mut source, &mut sink);
        assert_eq!(&rt; exit, Exit::ReadFault);
        assert_eq!(&rt; sink.bytes(), b"read fault\n".as_slice());
        assert_eq!(&rt; source.faults(), 1);
    }
    Ok(())
}

#[test]
fn a_large_script_reads_nothing(rt: HostRuntime) -> Result<(), Fail> {
    let alloc = rt.alloc();
    let mut source = source(alloc, "bytes", &[0])?;
    let mut sink = sink(alloc, &[])?;
    let exit = top(alloc, &words(alloc, "big 1")?, &mut source, &mut sink);
    assert_eq!(&rt; exit, Exit::Done);
    assert_eq!(&rt; sink.bytes(), BIG.as_bytes());
    assert_eq!(&rt; source.faults(), 0);
    Ok(())
}

#[test]
fn a_source_may_give_its_bytes_in_pieces(rt: HostRuntime) -> Result<(), Fail> {
    let alloc = rt.alloc();
    for most in [1usize, 2, 7, 4096] {
        for (text, input, output) in CALLS {
            let mut source = Pieces::of(source(alloc, input, &[])?, most.max(1));
            let mut sink = sink(alloc, &[])?;
            let exit = top(alloc, &words(alloc, text)?, &mut source, &mut sink);
            assert_eq!(&rt; exit, Exit::Done);
            assert_eq!(&rt; sink.bytes(), output.as_bytes());
        }
    }
    Ok(())
}
