// A script's text.
ghost use Rattle.std.specs.Prelude.{◌≡◌, ◌<◌, ◌≤◌, List, ℕ, ◌++◌, ◌∷◌, [], length, map, codes, ◌==◌, not, OnOk, IfOk};
ghost use Rattle.std.specs.List.{flat_map};
ghost use Rattle.k_script.specs.Script.{program_in};
ghost use Rattle.k_lines.specs.declared.line.Line.TheVariants as line;
ghost use Rattle.k_lines.specs.Numbers.{exactly};
ghost use Rattle.k_lines.specs.Lines.{spelled};
ghost use Rattle.k_text.specs.Texts.{joined};
ghost use Rattle.k_reader.specs.Grammar.{aged_line, at_line, carriers_lines, operation_lines, program_lines, show_lines, thread_line, turns_line, IsText};
ghost use Rattle.k_writer.specs.Canonical.{ages_from, feeds, one_line, text_of};

use crate::lines::{
    aged_line, event_line, item_text, name_of, named_line, numbered_line, operation_line,
    thread_line, word_line,
};
use k_ids::NoMemory;
use k_script::{AtLine, Item, Operation, Script};
use k_text::Line;
use std::alloc::{AllocError, Global};

/// The version of a number that had no thread.
const NO_VERSION: u32 = 0;

/// Appends a line feed and a line.
fn put_line(text: &mut Vec<u8>, line: &Line) -> Result<(), AllocError>
    ensures { OnOk result (text.new.items ≡ text.old.items ++ (codes "\n" ++ line.now)) }
{
    text.push(b'\n')?;
    text.extend_from_slice(line.as_bytes())?;
    Ok(())
}

/// The first lines: `kernel`, `table`, `carriers` where there are several, and `show steps`.
fn put_head(text: &mut Vec<u8>, script: &Script) -> Result<(), AllocError>
    ensures { OnOk result (text.new.items ≡ text.old.items ++ (joined (spelled (line.Kernel (exactly script.now.version))) ++ feeds (map spelled (line.Table (exactly script.now.table) ∷ carriers_lines (not (script.now.carriers == 1)) script.now.carriers ++ show_lines script.now.show_steps)))) }
{
    let first = numbered_line(b"kernel", u32::from(script.version()));
    text.extend_from_slice(first.as_bytes())?;
    put_line(text, &numbered_line(b"table", u32::from(script.table())))?;
    put_carriers(text, script.carriers())?;
    put_show(text, script.show_steps())
}

fn put_carriers(text: &mut Vec<u8>, carriers: u8) -> Result<(), AllocError>
    ensures { OnOk result (text.new.items ≡ text.old.items ++ feeds (map spelled (carriers_lines (not (carriers == 1)) carriers))) }
{
    if carriers != 1 {
        put_line(text, &numbered_line(b"carriers", u32::from(carriers)))?;
    }
    Ok(())
}

fn put_show(text: &mut Vec<u8>, show_steps: bool) -> Result<(), AllocError>
    ensures { OnOk result (text.new.items ≡ text.old.items ++ feeds (map spelled (show_lines show_steps))) }
{
    if show_steps {
        put_line(text, &named_line(b"show", b"steps"))?;
    }
    Ok(())
}

/// The `aged` lines, in the order of the numbers.
fn put_ages(text: &mut Vec<u8>, script: &Script) -> Result<(), AllocError>
    ensures { OnOk result (text.new.items ≡ text.old.items ++ feeds (map spelled (map aged_line (ages_from 0 script.now.aged)))) }
{
    script.holds();
    for number in 0..script.table() {
        let version = script.aged(number);
        if version != NO_VERSION {
            put_line(text, &aged_line(number, version))?;
        }
    }
    Ok(())
}

fn put_operations(
    text: &mut Vec<u8>,
    script: &Script,
    operations: &[Operation],
) -> Result<(), AllocError>
    ensures { OnOk result (text.new.items ≡ text.old.items ++ feeds (map spelled (operation_lines script.now.programs operations.now))) }
{
    for operation in operations {
        put_line(text, &operation_line(script, *operation))?;
    }
    Ok(())
}

/// `program NAME`, the operations of the program, and `end`. Condition: the program is in the script.
fn put_program(text: &mut Vec<u8>, script: &Script, program: u8) -> Result<(), AllocError>
    requires { program < length script.now.programs }
    ensures { OnOk result (text.new.items ≡ text.old.items ++ feeds (map spelled (program_lines script.now.programs (program_in script.now.programs program)))) }
{
    put_line(text, &named_line(b"program", name_of(script, program)))?;
    put_operations(text, script, script.operations(program))?;
    put_line(text, &word_line(b"end"))
}

fn put_programs(text: &mut Vec<u8>, script: &Script) -> Result<(), AllocError>
    ensures { OnOk result (text.new.items ≡ text.old.items ++ feeds (map spelled (flat_map (program_lines script.now.programs) script.now.programs))) }
{
    for program in 0..script.programs() {
        put_program(text, script, program)?;
    }
    Ok(())
}

fn put_threads(text: &mut Vec<u8>, script: &Script) -> Result<(), AllocError>
    ensures { OnOk result (text.new.items ≡ text.old.items ++ feeds (map spelled (map (thread_line script.now.programs) script.now.threads))) }
{
    for thread in script.threads() {
        put_line(text, &thread_line(script, *thread))?;
    }
    Ok(())
}

fn put_events(text: &mut Vec<u8>, events: &[AtLine]) -> Result<(), AllocError>
    ensures { OnOk result (text.new.items ≡ text.old.items ++ feeds (map spelled (map at_line events.now))) }
{
    for event in events {
        put_line(text, &event_line(*event))?;
    }
    Ok(())
}

/// All turns, in one line. No line where there are none.
fn put_turns(text: &mut Vec<u8>, turns: &[Item]) -> Result<(), AllocError>
    ensures { OnOk result (text.new.items ≡ text.old.items ++ feeds (map turns_line (one_line turns.now))) }
{
    if turns.is_empty() {
        return Ok(());
    }
    put_line(text, &word_line(b"turns"))?;
    for item in turns {
        text.extend_from_slice(item_text(*item).as_bytes())?;
    }
    Ok(())
}

/// The text of a script than which no other is shorter: words with one space between two, lines with one line feed between
/// two, no comment, no `carriers 1`, the `aged` lines in the order of their numbers, and all turns in one line.
///
/// [`k_reader::read`] gives it back as this script, unless it has more than 1,048,576 bytes or the script weighs more than
/// 4,000,000: see the law [`crate::a_written_text_is_the_shortest`].
pub fn text_of(alloc: Global, script: &Script) -> Result<Vec<u8>, NoMemory>
    ensures exact { IfOk result (λ text. text.items ≡ text_of script.now) }
    ensures text { IfOk result (λ text. IsText text.items script.now) }
    ensures shortest { IfOk result (λ text. (bytes : List ℕ) → IsText bytes script.now → length text.items ≤ length bytes) }
{
    script.holds();
    let mut text = Vec::new(alloc);
    put_head(&mut text, script)?;
    put_ages(&mut text, script)?;
    put_programs(&mut text, script)?;
    put_threads(&mut text, script)?;
    put_events(&mut text, script.at_lines())?;
    put_turns(&mut text, script.turns())?;
    Ok(text)
}
