// The lines of a script's text, each without its line feed.
ghost use Rattle.std.specs.Prelude.{◌≡◌, ◌+◌, ◌≤◌, ◌++◌, ◌∷◌, [], length, decimal, codes};
ghost use Rattle.k_script.specs.declared.operation.Operation.TheVariants as operation;
ghost use Rattle.k_script.specs.Script.{program_in};
ghost use Rattle.k_lines.specs.Lines.{spelled, spelled_operation, spelled_timeout, spelled_value, spelled_who, spelled_item};
ghost use Rattle.k_text.specs.Texts.{joined, spaced};
ghost use Rattle.k_reader.specs.Grammar.{at_line, item_line, operation_line, thread_line, value_line, who_line};

use k_script::{AtLine, AtWhat, Item, Operation, Script, ThreadLine, Value, Who};
use k_text::Line;

/// The name of a program, at most 16 bytes. A number that is no program's has none.
#[tactic(auto, using(crate::proofs::Names::name_short, crate::proofs::Names::no_name))]
pub(crate) fn name_of(script: &Script, program: u8) -> &[u8]
    ensures name { result.now ≡ (program_in script.now.programs program).name }
    ensures short { length result.now ≤ 16 }
{
    script.holds();
    if program < script.programs() {
        script.name(program)
    } else {
        &[]
    }
}

/// Appends a thread that an operation names: ` #T`, ` last` or ` made`.
fn push_who(line: &mut Line, who: Who)
    requires { length line.old + 5 ≤ 128 }
    ensures text { line.new ≡ line.old ++ spaced (spelled_who (who_line who) ∷ []) }
    ensures short { length line.new ≤ length line.old + 5 }
{
    match who {
        Who::Number(number) => {
            line.push(b" #");
            line.push_small_digits(number);
        }
        Who::Last => line.push_word(b"last"),
        Who::Made => line.push_word(b"made"),
    }
}

/// Appends a word of a message: its number, ` got0` or ` got1`.
fn push_value(line: &mut Line, value: Value)
    requires { length line.old + 11 ≤ 128 }
    ensures text { line.new ≡ line.old ++ spaced (spelled_value (value_line value) ∷ []) }
    ensures short { length line.new ≤ length line.old + 11 }
{
    match value {
        Value::Number(n) => line.push_number(n),
        Value::Got0 => line.push_word(b"got0"),
        Value::Got1 => line.push_word(b"got1"),
    }
}

/// Appends ` now` where the timeout is zero.
fn push_timeout(line: &mut Line, zero: bool)
    requires { length line.old + 4 ≤ 128 }
    ensures text { line.new ≡ line.old ++ spaced (spelled_timeout zero) }
    ensures short { length line.new ≤ length line.old + 4 }
{
    if zero {
        line.push_word(b"now");
    }
}

/// A line of one word, of at most 16 bytes.
pub(crate) fn word_line(word: &[u8]) -> Line
    requires { length word.now ≤ 16 }
    ensures text { result ≡ joined (word.now ∷ []) }
    ensures short { length result ≤ 16 }
{
    let mut line = Line::new();
    line.push(word);
    line
}

/// A line of two words, of at most 16 bytes each.
pub(crate) fn named_line(word: &[u8], name: &[u8]) -> Line
    requires word { length word.now ≤ 16 }
    requires name { length name.now ≤ 16 }
    ensures { result ≡ joined (word.now ∷ name.now ∷ []) }
{
    let mut line = word_line(word);
    line.push_word(name);
    line
}

/// A line of a word, of at most 16 bytes, and a number.
pub(crate) fn numbered_line(word: &[u8], n: u32) -> Line
    requires { length word.now ≤ 16 }
    ensures { result ≡ joined (word.now ∷ decimal n ∷ []) }
{
    let mut line = word_line(word);
    line.push_number(n);
    line
}

/// `aged T V`
pub(crate) fn aged_line(number: u8, version: u32) -> Line
    ensures { result ≡ joined (codes "aged" ∷ decimal number ∷ decimal version ∷ []) }
{
    let mut line = word_line(b"aged");
    line.push_small(number);
    line.push_number(version);
    line
}

/// `send WHO A B`, and `call WHO A B` by another first word, of at most 16 bytes.
fn message_line(word: &[u8], to: Who, low: Value, high: Value, zero: bool) -> Line
    requires { length word.now ≤ 16 }
    ensures { result ≡ joined (word.now ∷ spelled_who (who_line to) ∷ spelled_value (value_line low) ∷ spelled_value (value_line high) ∷ spelled_timeout zero) }
{
    let mut line = word_line(word);
    push_who(&mut line, to);
    push_value(&mut line, low);
    push_value(&mut line, high);
    push_timeout(&mut line, zero);
    line
}

/// `reply A B`
fn reply_line(low: Value, high: Value, zero: bool) -> Line
    ensures { result ≡ joined (codes "reply" ∷ spelled_value (value_line low) ∷ spelled_value (value_line high) ∷ spelled_timeout zero) }
{
    let mut line = word_line(b"reply");
    push_value(&mut line, low);
    push_value(&mut line, high);
    push_timeout(&mut line, zero);
    line
}

/// `receive WHO`, or `wait` where no thread is named.
fn receive_line(from: Option<Who>, zero: bool) -> Line
    ensures { result ≡ joined (spelled_operation (operation_line [] (operation.Receive from zero))) }
{
    let mut line = match from {
        None => word_line(b"wait"),
        Some(from) => {
            let mut line = word_line(b"receive");
            push_who(&mut line, from);
            line
        }
    };
    push_timeout(&mut line, zero);
    line
}

/// `destroy WHO`
fn destroy_line(who: Who) -> Line
    ensures { result ≡ joined (codes "destroy" ∷ spelled_who (who_line who) ∷ []) }
{
    let mut line = word_line(b"destroy");
    push_who(&mut line, who);
    line
}

/// `create NAME PRIO`. Condition: the name is at most 16 bytes.
fn create_line(name: &[u8], priority: u8) -> Line
    requires { length name.now ≤ 16 }
    ensures { result ≡ joined (codes "create" ∷ name.now ∷ decimal priority ∷ []) }
{
    let mut line = word_line(b"create");
    line.push_word(name);
    line.push_small(priority);
    line
}

/// The line of an operation of the script.
pub(crate) fn operation_line(script: &Script, operation: Operation) -> Line
    ensures { result ≡ joined (spelled_operation (operation_line script.now.programs operation)) }
{
    match operation {
        Operation::Send {
            to,
            low,
            high,
            zero,
        } => message_line(b"send", to, low, high, zero),
        Operation::Receive { from, zero } => receive_line(from, zero),
        Operation::Call {
            to,
            low,
            high,
            zero,
        } => message_line(b"call", to, low, high, zero),
        Operation::Reply { low, high, zero } => reply_line(low, high, zero),
        Operation::Create { program, priority } => {
            create_line(name_of(script, program), priority)
        }
        Operation::Destroy { who } => destroy_line(who),
        Operation::Work { count } => numbered_line(b"work", count),
        Operation::Repeat { count } => numbered_line(b"repeat", u32::from(count)),
        Operation::Again => word_line(b"again"),
    }
}

/// `thread PRIO NAME`
pub(crate) fn thread_line(script: &Script, thread: ThreadLine) -> Line
    ensures { result ≡ joined (spelled (thread_line script.now.programs thread)) }
{
    let mut line = word_line(b"thread");
    line.push_small(thread.priority);
    line.push_word(name_of(script, thread.program));
    line
}

/// `at K start T` or `at K slice C`
pub(crate) fn event_line(event: AtLine) -> Line
    ensures { result ≡ joined (spelled (at_line event)) }
{
    let mut line = word_line(b"at");
    line.push_number(event.step);
    match event.what {
        AtWhat::Start(number) => {
            line.push_word(b"start");
            line.push_small(number);
        }
        AtWhat::Slice(carrier) => {
            line.push_word(b"slice");
            line.push_small(carrier);
        }
    }
    line
}

/// ` C*COUNT` or ` C!`: a space, and an item of a `turns` line.
pub(crate) fn item_text(item: Item) -> Line
    ensures { result ≡ codes " " ++ spelled_item (item_line item) }
{
    let mut line = Line::new();
    match item {
        Item::Steps { carrier, count } => {
            line.push_small(carrier);
            line.push(b"*");
            line.push_digits(count);
        }
        Item::Park { carrier } => {
            line.push_small(carrier);
            line.push(b"!");
        }
    }
    line
}
