// A script: its programs, its threads and its schedule.
ghost use Rattle.std.specs.Prelude.{◌≡◌, ◌≤◌, ◌<◌, length, slice_index};
ghost use Rattle.k_script.specs.Script.{operations_of, program_in};
ghost use Rattle.k_script.specs.Limits.{IsScript};
ghost use Rattle.k_script.specs.Parts.{script_of};
ghost use Rattle.k_script.specs.Place.{IsNested};
ghost use Rattle.k_script.specs.Skips.{AreSkips};

use crate::lines::{AtLine, Item, ThreadLine};
use crate::listing::Listing;
use crate::operation::Operation;
use std::marker::Model;

/// What a script is made of. Programs and threads are numbered from 0, in their order.
#[derive(Drop)]
pub struct Parts {
    /// 1 or 2.
    pub version: u8,
    /// How many thread numbers there are: 1 to 64.
    pub table: u8,
    /// 1 to 8.
    pub carriers: u8,
    /// The report counts the steps of each call.
    pub show_steps: bool,
    /// For each number the version that it had last, 0 where it had none: at most 1,048,575. Those past the table count for
    /// nothing.
    pub aged: [u32; 64],
    pub programs: Vec<Listing>,
    pub threads: Vec<ThreadLine>,
    pub at_lines: Vec<AtLine>,
    pub turns: Vec<Item>,
}

/// A script within its limits. Its programs are numbered from 0, and thread t is the first of number t.
#[derive(Drop)]
pub struct Script {
    version: u8,
    table: u8,
    carriers: u8,
    show_steps: bool,
    aged: [u32; 64],
    programs: Vec<Listing>,
    threads: Vec<ThreadLine>,
    at_lines: Vec<AtLine>,
    turns: Vec<Item>,
}

impl Model for Script {
    ghost use Rattle.std.specs.Prelude.{take};
    ghost use Rattle.k_script.specs.Script.{Script};
    ghost use Rattle.k_script.specs.Limits.{IsScript};

    ghost Value = { Script };

    ghost view = { λ s. record { version = s.version; table = s.table; carriers = s.carriers; show_steps = s.show_steps; aged = take s.table s.aged; programs = s.programs.items; threads = s.threads.items; at_lines = s.at_lines.items; turns = s.turns.items } };

    ghost invariant = { λ s. IsScript (record { version = s.version; table = s.table; carriers = s.carriers; show_steps = s.show_steps; aged = take s.table s.aged; programs = s.programs.items; threads = s.threads.items; at_lines = s.at_lines.items; turns = s.turns.items }) };
}

/// Closes each program: from now on their empty repeats are passed over. They stay the same programs.
fn close_all(programs: &mut Vec<Listing>)
    ensures { programs.new.items ≡ programs.old.items }
{
    for program in programs.iter_mut() {
        program.close();
    }
}

impl Script {
    /// The script of these parts. Condition: they are within the limits.
    pub fn of(parts: Parts) -> Script
        requires { IsScript (script_of parts) }
        ensures { result ≡ script_of parts }
    {
        let aged = parts.aged;
        let mut programs = parts.programs;
        close_all(&mut programs);
        Script {
            version: parts.version,
            table: parts.table,
            carriers: parts.carriers,
            show_steps: parts.show_steps,
            aged,
            programs,
            threads: parts.threads,
            at_lines: parts.at_lines,
            turns: parts.turns,
        }
    }

    /// Every script is within the limits. It does nothing: it is for proofs.
    pub fn holds(&self)
        ensures { IsScript self.now }
    {
        let _ = &self.version;
    }

    /// The version of the script's language: 1 or 2. In version 2 a reply is one call of the kernel.
    pub fn version(&self) -> u8
        ensures { result ≡ self.now.version }
    {
        self.version
    }

    /// How many thread numbers there are: 1 to 64.
    pub fn table(&self) -> u8
        ensures { result ≡ self.now.table }
    {
        self.table
    }

    /// How many carriers there are: 1 to 8.
    pub fn carriers(&self) -> u8
        ensures { result ≡ self.now.carriers }
    {
        self.carriers
    }

    /// Whether the report counts the steps of each call.
    pub fn show_steps(&self) -> bool
        ensures { result ≡ self.now.show_steps }
    {
        self.show_steps
    }

    /// The version that a number had last: 0 to 1,048,575, 0 where it had none. Condition: the number is in the table.
    pub fn aged(&self, number: u8) -> u32
        requires { number < self.now.table }
        ensures { result ≡ slice_index self.now.aged number }
    {
        self.aged[usize::from(number)]
    }

    /// The versions that the numbers of the table had last, in their order.
    pub fn versions(&self) -> &[u32]
        ensures { result.now ≡ self.now.aged }
    {
        &self.aged[..usize::from(self.table)]
    }

    /// How many programs there are: 1 to 255.
    pub fn programs(&self) -> u8
        ensures { result ≡ length self.now.programs }
    {
        self.programs.len() as u8
    }

    /// The name of a program. Condition: the program is in the script.
    pub fn name(&self, program: u8) -> &[u8]
        requires { program < length self.now.programs }
        ensures { result.now ≡ (program_in self.now.programs program).name }
    {
        self.programs[usize::from(program)].name()
    }

    /// The operations of a program: at most 4,096. Condition: the program is in the script.
    pub fn operations(&self, program: u8) -> &[Operation]
        requires { program < length self.now.programs }
        ensures { result.now ≡ operations_of self.now program }
    {
        self.programs[usize::from(program)].operations()
    }

    /// The operations of a program. A number that is no program's has none.
    pub(crate) fn listed(&self, program: u8) -> &[Operation]
        ensures operations { result.now ≡ operations_of self.now program }
        ensures nested { IsNested result.now }
    {
        match self.programs.get(usize::from(program)) {
            None => &[],
            Some(program) => program.operations(),
        }
    }

    /// The places behind the empty repeats that begin with each operation of a program.
    pub(crate) fn skips(&self, program: u8) -> &[u16]
        ensures { AreSkips (operations_of self.now program) result.now }
    {
        match self.programs.get(usize::from(program)) {
            None => &[],
            Some(program) => program.skips(),
        }
    }

    /// The threads in the order of their numbers: at least one, and at most as many as the table has numbers.
    pub fn threads(&self) -> &[ThreadLine]
        ensures { result.now ≡ self.now.threads }
    {
        &self.threads
    }

    /// The events of the schedule, in their order: at most 10,000.
    pub fn at_lines(&self) -> &[AtLine]
        ensures { result.now ≡ self.now.at_lines }
    {
        &self.at_lines
    }

    /// The turns of the schedule, in their order: at most 10,000.
    pub fn turns(&self) -> &[Item]
        ensures { result.now ≡ self.now.turns }
    {
        &self.turns
    }
}
