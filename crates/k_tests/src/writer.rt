use k_reader::read;
use k_script::big;
use k_writer::text_of;
use std::test::Fail;

// Every kind of line, with whatever a text may have and need not.
const SAID: &str = "; a script with every kind of line

\tkernel   2 ; the version
table 4\r
carriers 2

show steps
aged 3 7
aged 2 1048575
program s
  wait
  repeat 3
    reply got0 got1 now
  again
end ; of s
program c_1
  send #0 1 4294967295
  send made 0 got1 now
  receive #1 now
  receive last
  wait now
  call last 0 got0
  call #3 7 8 now
  reply 1 2
  create s 63
  destroy made
  destroy #2
  work 9
end
thread 5 s
thread 0 c_1
at 0 start 1
at 7 slice 1

turns 0*5
turns 1!   1*10
turns 0!
";

const WRITTEN: &str = "kernel 2
table 4
carriers 2
show steps
aged 2 1048575
aged 3 7
program s
wait
repeat 3
reply got0 got1 now
again
end
program c_1
send #0 1 4294967295
send made 0 got1 now
receive #1 now
receive last
wait now
call last 0 got0
call #3 7 8 now
reply 1 2
create s 63
destroy made
destroy #2
work 9
end
thread 5 s
thread 0 c_1
at 0 start 1
at 7 slice 1
turns 0*5 1! 1*10 0!";

#[test]
fn every_kind_of_line_is_written(rt: HostRuntime) -> Result<(), Fail> {
    let script = read(rt.alloc(), SAID.as_bytes())?;
    let text = text_of(rt.alloc(), &script)?;
    assert_eq!(rt; text.as_slice(), WRITTEN.as_bytes());
    Ok(())
}

// The first and the last bytes, and how many there are, from a transcription of the generator in another language.
#[test]
fn a_large_script_is_written(rt: HostRuntime) -> Result<(), Fail> {
    let first = "kernel 1
table 16
program server
wait
repeat 400
reply got0 got1
again
end
program c0
repeat 100
call #10 153 196
work 7
again
end
program c1
repeat 100
call #10 795 130
";
    let last = "\nat 23501 slice 0\nat 23575 slice 0\nat 23741 slice 0";
    let script = big(rt.alloc(), 1)?;
    let text = text_of(rt.alloc(), &script)?;
    assert_eq!(rt; text.len(), 3996);
    assert!(rt; text.as_slice().starts_with(first.as_bytes()));
    assert!(rt; text.as_slice().ends_with(last.as_bytes()));
    Ok(())
}
