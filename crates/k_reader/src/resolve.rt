// The operations that lines write: their numbers, programs and threads.
ghost use Rattle.std.specs.Prelude.{◌≡◌, ◌≤◌, length};
ghost use Rattle.k_reader.specs.Draft.{program_at};
ghost use Rattle.k_reader.specs.Reading.{below, is_led, who_in, value_in, thread_in, message_in, send_in, receive_in, call_in, destroy_in, reply_in, create_in, work_in, repeat_in, operation_in};

use crate::fault::Why;
use k_lines::{Numeral, OperationLine, ValueWord, WhoWord};
use k_script::{Listing, Name, Operation, Value, Who};

/// The number, if it is below this one.
pub(crate) fn below(size: u8, number: Numeral) -> Option<u8>
    ensures { result ≡ below size number }
{
    if number.value < u64::from(size) {
        Some(number.value as u8)
    } else {
        None
    }
}

fn is_led(who: WhoWord) -> bool
    ensures { result ≡ is_led who }
{
    match who {
        WhoWord::Number(number) => number.led,
        WhoWord::Last | WhoWord::Made => false,
    }
}

fn who_in(table: u8, who: WhoWord) -> Option<Who>
    ensures { result ≡ who_in table who }
{
    match who {
        WhoWord::Number(number) => {
            let number = below(table, number)?;
            Some(Who::Number(number))
        }
        WhoWord::Last => Some(Who::Last),
        WhoWord::Made => Some(Who::Made),
    }
}

fn value_in(word: ValueWord) -> Option<Value>
    ensures { result ≡ value_in word }
{
    match word {
        ValueWord::Number(number) => {
            let number = number.in_range(0, u32::MAX)?;
            Some(Value::Number(number))
        }
        ValueWord::Got0 => Some(Value::Got0),
        ValueWord::Got1 => Some(Value::Got1),
    }
}

#[tactic(auto, unfolding(crate::specs::Reading::thread_in))]
fn thread_in(table: u8, who: WhoWord) -> Result<Who, Why>
    ensures { result ≡ thread_in table who }
{
    if is_led(who) {
        return Err(Why::Number);
    }
    match who_in(table, who) {
        None => Err(Why::Table),
        Some(who) => Ok(who),
    }
}

#[tactic(auto, unfolding(crate::specs::Reading::message_in))]
fn message_in(
    table: u8,
    to: WhoWord,
    low: ValueWord,
    high: ValueWord,
) -> Result<(Who, Value, Value), Why>
    ensures { result ≡ message_in table to low high }
{
    if is_led(to) {
        return Err(Why::Number);
    }
    let Some(low) = value_in(low) else {
        return Err(Why::Number);
    };
    let Some(high) = value_in(high) else {
        return Err(Why::Number);
    };
    match who_in(table, to) {
        None => Err(Why::Table),
        Some(to) => Ok((to, low, high)),
    }
}

pub(crate) fn program_at(programs: &[Listing], name: &Name) -> Option<usize>
    ensures { result ≡ program_at name.now programs.now }
{
    programs.iter().position(|p| p.is_named(name))
}

fn reply_in(low: ValueWord, high: ValueWord, zero: bool) -> Result<Operation, Why>
    ensures { result ≡ reply_in low high zero }
{
    let Some(low) = value_in(low) else {
        return Err(Why::Number);
    };
    let Some(high) = value_in(high) else {
        return Err(Why::Number);
    };
    Ok(Operation::Reply { low, high, zero })
}

#[tactic(auto, using(crate::proofs::Found::found_at))]
fn create_in(programs: &[Listing], name: &Name, priority: Numeral) -> Result<Operation, Why>
    requires { length programs.now ≤ 255 }
    ensures { result ≡ create_in programs.now name.now priority }
{
    let Some(priority) = priority.in_byte_range(0, 63) else {
        return Err(Why::Number);
    };
    match program_at(programs, name) {
        None => Err(Why::Unknown),
        Some(at) => {
            let program = at as u8;
            Ok(Operation::Create { program, priority })
        }
    }
}

fn work_in(count: Numeral) -> Result<Operation, Why>
    ensures { result ≡ work_in count }
{
    match count.in_range(1, u32::MAX) {
        None => Err(Why::Number),
        Some(count) => Ok(Operation::Work { count }),
    }
}

fn repeat_in(count: Numeral) -> Result<Operation, Why>
    ensures { result ≡ repeat_in count }
{
    match count.in_range(1, 65535) {
        None => Err(Why::Number),
        Some(count) => Ok(Operation::Repeat {
            count: count as u16,
        }),
    }
}

fn send_in(
    table: u8,
    to: WhoWord,
    low: ValueWord,
    high: ValueWord,
    zero: bool,
) -> Result<Operation, Why>
    ensures { result ≡ send_in table to low high zero }
{
    let (to, low, high) = message_in(table, to, low, high)?;
    Ok(Operation::Send {
        to,
        low,
        high,
        zero,
    })
}

fn call_in(
    table: u8,
    to: WhoWord,
    low: ValueWord,
    high: ValueWord,
    zero: bool,
) -> Result<Operation, Why>
    ensures { result ≡ call_in table to low high zero }
{
    let (to, low, high) = message_in(table, to, low, high)?;
    Ok(Operation::Call {
        to,
        low,
        high,
        zero,
    })
}

fn receive_in(table: u8, from: WhoWord, zero: bool) -> Result<Operation, Why>
    ensures { result ≡ receive_in table from zero }
{
    let from = Some(thread_in(table, from)?);
    Ok(Operation::Receive { from, zero })
}

fn destroy_in(table: u8, who: WhoWord) -> Result<Operation, Why>
    ensures { result ≡ destroy_in table who }
{
    let who = thread_in(table, who)?;
    Ok(Operation::Destroy { who })
}

/// The operation that a line writes, given the size of the table and the programs before. Condition: there are at most 255.
#[tactic(auto, unfolding(crate::specs::Reading::operation_in))]
pub(crate) fn operation_in(
    table: u8,
    programs: &[Listing],
    line: &OperationLine,
) -> Result<Operation, Why>
    requires { length programs.now ≤ 255 }
    ensures { result ≡ operation_in table programs.now line.now }
{
    match line {
        OperationLine::Send {
            to,
            low,
            high,
            zero,
        } => send_in(table, *to, *low, *high, *zero),
        OperationLine::Receive { from, zero } => receive_in(table, *from, *zero),
        OperationLine::Wait { zero } => Ok(Operation::Receive {
            from: None,
            zero: *zero,
        }),
        OperationLine::Call {
            to,
            low,
            high,
            zero,
        } => call_in(table, *to, *low, *high, *zero),
        OperationLine::Reply { low, high, zero } => reply_in(*low, *high, *zero),
        OperationLine::Create { program, priority } => create_in(programs, program, *priority),
        OperationLine::Destroy { who } => destroy_in(table, *who),
        OperationLine::Work { count } => work_in(*count),
        OperationLine::Repeat { count } => repeat_in(*count),
        OperationLine::Again => Ok(Operation::Again),
    }
}
