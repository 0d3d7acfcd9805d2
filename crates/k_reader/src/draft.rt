// A script that is being read: what its lines so far have said.
ghost use Rattle.std.specs.Prelude.{◌≡◌, ◌≤◌, ◌<◌, length, Some, None, OnOk, Err, MatchResult, Ok, IsSome, ◌+◌, ◌-◌};
ghost use Rattle.std.specs.List.{list_all, list_any};
ghost use Rattle.k_script.specs.Limits.{depth_after};
ghost use Rattle.k_reader.specs.Draft.{opened, is_zero, is_number, free_of_events, free_of_threads, free_of_programs, free_of_aged, free_of_show, is_aged, is_started, falls, carriers_of, script_of};
ghost use Rattle.k_reader.specs.Reading.{misnests, is_late, has_no_number, accept_operation, accept_table, accept_carriers, accept_show, accept_aged, accept_program, accept_end, accept_thread, accept_start, accept_slice, accept};
ghost use Rattle.k_reader.specs.declared.draft.Refusal.TheVariants.{NoMemory};

use crate::fault::Why;
use crate::resolve::{below, operation_in, program_at};
use k_lines::{Line, Numeral, OperationLine};
use k_script::{AtLine, AtWhat, Item, Listing, Name, Operation, ThreadLine};
use std::alloc::{AllocError, AllocFailed, Global};
use std::marker::Model;

const MOST_PROGRAMS: usize = 255;

const MOST_OPERATIONS: usize = 4096;

const MOST_EVENTS: usize = 10_000;

/// Why a line isn't taken in: it is bad, or there was no memory.
#[derive(Clone, Copy, Debug, PartialEq, Eq)]
pub(crate) enum Refusal {
    Bad(Why),
    NoMemory,
}

impl From<AllocError> for Refusal {
    ghost from_gives = { λ _ e. e ≡ NoMemory };

    fn from(_: AllocError) -> Self {
        Refusal::NoMemory
    }
}

impl<T: Drop> From<AllocFailed<T>> for Refusal {
    ghost from_gives = { λ _ e. e ≡ NoMemory };

    fn from(_: AllocFailed<T>) -> Self {
        Refusal::NoMemory
    }
}

/// What the lines so far have said, and what is counted so that no line counts it again.
#[derive(Drop)]
pub(crate) struct Sketch {
    pub(crate) version: u8,
    pub(crate) table: Option<u8>,
    pub(crate) carriers: Option<u8>,
    pub(crate) show_steps: bool,
    pub(crate) aged: [u32; 64],
    pub(crate) programs: Vec<Listing>,
    pub(crate) open_program: Option<Listing>,
    /// How many repeats of the open program are open.
    pub(crate) depth: u8,
    pub(crate) threads: Vec<ThreadLine>,
    pub(crate) at_lines: Vec<AtLine>,
    /// The numbers that are started.
    pub(crate) starts: Vec<u8>,
    pub(crate) turns: Vec<Item>,
    /// The sum of the turns' counts.
    pub(crate) turned: u32,
}

impl Model for Sketch {
    ghost use Rattle.std.specs.Prelude.{◌≡◌, ◌≤◌, ◌+◌, vec_len, length, IfSome, Some};
    ghost use Rattle.std.specs.Option.{option_to_list};
    ghost use Rattle.std.specs.List.{sum_by};
    ghost use Rattle.k_script.specs.Limits.{depth_behind, started, steps_of};
    ghost use Rattle.k_reader.specs.Draft.{Draft};

    ghost Value = { Draft };

    ghost view = { λ s. record { version = s.version; table = s.table; carriers = s.carriers; show_steps = s.show_steps; aged = s.aged; programs = s.programs.items; open_program = s.open_program; threads = s.threads.items; at_lines = s.at_lines.items; turns = s.turns.items } };

    ghost invariant = { λ s. (vec_len s.programs + length (option_to_list s.open_program) ≤ 255)
        × (IfSome s.table (λ n. n ≤ 64))
        × (vec_len s.threads ≤ 64)
        × (IfSome s.open_program (λ p. depth_behind 0 p.operations ≡ Some s.depth))
        × (s.depth ≤ 4)
        × (s.starts.items ≡ started s.at_lines.items)
        × (vec_len s.turns ≤ 10000)
        × (s.turned ≡ sum_by steps_of s.turns.items)
        × (s.turned ≤ 1000000) };
}

/// How many repeats are open behind an operation. Condition: it stands where it may.
fn depth_after(depth: u8, operation: Operation) -> u8
    requires small { depth ≤ 4 }
    requires nests { IsSome (depth_after depth operation) }
    ensures exact { depth_after depth operation ≡ Some result }
    ensures small { result ≤ 4 }
{
    match operation {
        Operation::Repeat { .. } => depth + 1,
        Operation::Again => depth - 1,
        _ => depth,
    }
}

/// Whether an operation is a repeat at a fifth level, or an again without a repeat.
fn misnests(depth: u8, line: &OperationLine) -> bool
    ensures { result ≡ misnests (Some depth) line.now }
{
    match line {
        OperationLine::Repeat { .. } => 4 <= depth,
        OperationLine::Again => depth == 0,
        _ => false,
    }
}

impl Sketch {
    pub(crate) fn new(alloc: Global, version: u8) -> Sketch
        ensures { result ≡ opened version }
    {
        let aged = [0u32; 64];
        Sketch {
            version,
            table: None,
            carriers: None,
            show_steps: false,
            aged,
            programs: Vec::new(alloc),
            open_program: None,
            depth: 0,
            threads: Vec::new(alloc),
            at_lines: Vec::new(alloc),
            starts: Vec::new(alloc),
            turns: Vec::new(alloc),
            turned: 0,
        }
    }

    fn free_of_events(&self) -> bool
        ensures { result ≡ free_of_events self.now }
    {
        self.at_lines.is_empty() && self.turns.is_empty()
    }

    fn free_of_threads(&self) -> bool
        ensures { result ≡ free_of_threads self.now }
    {
        self.threads.is_empty() && self.free_of_events()
    }

    fn free_of_programs(&self) -> bool
        ensures { result ≡ free_of_programs self.now }
    {
        self.programs.is_empty() && self.open_program.is_none() && self.free_of_threads()
    }

    fn free_of_aged(&self) -> bool
        ensures { result ≡ free_of_aged self.now }
    {
        has_zeros(&self.aged) && self.free_of_programs()
    }

    fn free_of_show(&self) -> bool
        ensures { result ≡ free_of_show self.now }
    {
        !self.show_steps && self.free_of_aged()
    }

    fn is_aged(&self, number: Numeral) -> bool
        ensures { result ≡ is_aged self.now.aged number }
    {
        match below(64, number) {
            None => false,
            Some(at) => !number.led && self.aged[usize::from(at)] != 0,
        }
    }

    fn is_started(&self, number: Numeral) -> bool
        ensures { result ≡ is_started self.now.at_lines number }
    {
        has_number(&self.starts, number)
    }

    fn falls(&self, step: Numeral) -> bool
        ensures { result ≡ falls self.now.at_lines step }
    {
        match (self.at_lines.last(), step.in_range(0, u32::MAX)) {
            (Some(last), Some(step)) => step < last.step,
            _ => false,
        }
    }

    pub(crate) fn carriers(&self) -> u8
        ensures { result ≡ carriers_of self.now }
    {
        self.carriers.unwrap_or(1)
    }

    #[tactic(auto, unfolding(crate::specs::Reading::accept_table))]
    fn accept_table(&mut self, size: Numeral) -> Result<(), Refusal>
        ensures ok { OnOk result (accept_table self.old size ≡ Ok self.new) }
        ensures bad { (why : Why) → result ≡ Err (Refusal.Bad why) → accept_table self.old size ≡ Err why }
    {
        if self.table.is_some() {
            return Err(Refusal::Bad(Why::Order));
        }
        let Some(size) = size.in_byte_range(1, 64) else {
            return Err(Refusal::Bad(Why::Number));
        };
        self.table = Some(size);
        Ok(())
    }

    #[tactic(auto, unfolding(crate::specs::Reading::accept_carriers))]
    fn accept_carriers(&mut self, count: Numeral) -> Result<(), Refusal>
        ensures ok { OnOk result (accept_carriers self.old count ≡ Ok self.new) }
        ensures bad { (why : Why) → result ≡ Err (Refusal.Bad why) → accept_carriers self.old count ≡ Err why }
    {
        if self.table.is_none() || self.carriers.is_some() || !self.free_of_show() {
            return Err(Refusal::Bad(Why::Order));
        }
        let Some(count) = count.in_byte_range(1, 8) else {
            return Err(Refusal::Bad(Why::Number));
        };
        self.carriers = Some(count);
        Ok(())
    }

    #[tactic(auto, unfolding(crate::specs::Reading::accept_show))]
    fn accept_show(&mut self) -> Result<(), Refusal>
        ensures ok { OnOk result (accept_show self.old ≡ Ok self.new) }
        ensures bad { (why : Why) → result ≡ Err (Refusal.Bad why) → accept_show self.old ≡ Err why }
    {
        if self.table.is_none() || !self.free_of_show() {
            return Err(Refusal::Bad(Why::Order));
        }
        self.show_steps = true;
        Ok(())
    }

    #[tactic(auto, unfolding(crate::specs::Reading::accept_aged))]
    fn accept_aged(&mut self, number: Numeral, version: Numeral) -> Result<(), Refusal>
        ensures ok { OnOk result (accept_aged self.old number version ≡ Ok self.new) }
        ensures bad { (why : Why) → result ≡ Err (Refusal.Bad why) → accept_aged self.old number version ≡ Err why }
    {
        if self.table.is_none() || !self.free_of_programs() || self.is_aged(number) {
            return Err(Refusal::Bad(Why::Order));
        }
        if number.led {
            return Err(Refusal::Bad(Why::Number));
        }
        let Some(version) = version.in_range(1, 1_048_575) else {
            return Err(Refusal::Bad(Why::Number));
        };
        let Some(at) = below(self.table.unwrap_or(0), number) else {
            return Err(Refusal::Bad(Why::Table));
        };
        self.aged[usize::from(at)] = version;
        Ok(())
    }

    #[tactic(auto, unfolding(crate::specs::Reading::accept_program))]
    fn accept_program(&mut self, alloc: Global, name: Name) -> Result<(), Refusal>
        ensures ok { OnOk result (accept_program self.old name ≡ Ok self.new) }
        ensures bad { (why : Why) → result ≡ Err (Refusal.Bad why) → accept_program self.old name ≡ Err why }
    {
        if self.table.is_none()
            || self.open_program.is_some()
            || !self.free_of_threads()
            || program_at(&self.programs, &name).is_some()
        {
            return Err(Refusal::Bad(Why::Order));
        }
        if self.programs.len() >= MOST_PROGRAMS {
            return Err(Refusal::Bad(Why::Many));
        }
        self.depth = 0;
        self.open_program = Some(Listing::new(alloc, name));
        Ok(())
    }

    #[tactic(auto, unfolding(crate::specs::Reading::accept_end))]
    fn accept_end(&mut self) -> Result<(), Refusal>
        ensures ok { OnOk result (accept_end self.old ≡ Ok self.new) }
        ensures bad { (why : Why) → result ≡ Err (Refusal.Bad why) → accept_end self.old ≡ Err why }
    {
        match self.open_program.take() {
            None => Err(Refusal::Bad(Why::Order)),
            Some(program) => {
                if self.depth != 0 {
                    return Err(Refusal::Bad(Why::Nest));
                }
                self.programs.push(program)?;
                Ok(())
            }
        }
    }

    #[tactic(auto, unfolding(crate::specs::Reading::accept_thread), using(crate::proofs::Found::found_at))]
    fn accept_thread(&mut self, priority: Numeral, name: Name) -> Result<(), Refusal>
        ensures ok { OnOk result (accept_thread self.old priority name ≡ Ok self.new) }
        ensures bad { (why : Why) → result ≡ Err (Refusal.Bad why) → accept_thread self.old priority name ≡ Err why }
    {
        if self.table.is_none() || self.open_program.is_some() || !self.free_of_events() {
            return Err(Refusal::Bad(Why::Order));
        }
        let Some(priority) = priority.in_byte_range(0, 63) else {
            return Err(Refusal::Bad(Why::Number));
        };
        let Some(at) = program_at(&self.programs, &name) else {
            return Err(Refusal::Bad(Why::Unknown));
        };
        if self.has_no_number() {
            return Err(Refusal::Bad(Why::Table));
        }
        let program = at as u8;
        self.threads.push(ThreadLine { priority, program })?;
        Ok(())
    }

    fn has_no_number(&self) -> bool
        ensures { result ≡ has_no_number self.now }
    {
        let next = self.threads.len();
        usize::from(self.table.unwrap_or(0)) <= next || self.aged[next] != 0
    }

    fn is_late(&self, step: Numeral) -> bool
        ensures { result ≡ is_late self.now step }
    {
        self.open_program.is_some()
            || self.threads.is_empty()
            || !self.turns.is_empty()
            || self.falls(step)
    }

    #[tactic(auto, unfolding(crate::specs::Reading::accept_start))]
    fn accept_start(&mut self, step: Numeral, number: Numeral) -> Result<(), Refusal>
        ensures ok { OnOk result (accept_start self.old step number ≡ Ok self.new) }
        ensures bad { (why : Why) → result ≡ Err (Refusal.Bad why) → accept_start self.old step number ≡ Err why }
    {
        if self.is_late(step) || self.is_started(number) {
            return Err(Refusal::Bad(Why::Order));
        }
        let Some(step) = step.in_range(0, u32::MAX) else {
            return Err(Refusal::Bad(Why::Number));
        };
        if number.led {
            return Err(Refusal::Bad(Why::Number));
        }
        let Some(number) = below(self.threads.len() as u8, number) else {
            return Err(Refusal::Bad(Why::Table));
        };
        if self.at_lines.len() >= MOST_EVENTS {
            return Err(Refusal::Bad(Why::Many));
        }
        self.starts.reserve(1)?;
        self.at_lines.push(AtLine {
            step,
            what: AtWhat::Start(number),
        })?;
        self.starts.push(number)?;
        Ok(())
    }

    #[tactic(auto, unfolding(crate::specs::Reading::accept_slice))]
    fn accept_slice(&mut self, step: Numeral, carrier: Numeral) -> Result<(), Refusal>
        ensures ok { OnOk result (accept_slice self.old step carrier ≡ Ok self.new) }
        ensures bad { (why : Why) → result ≡ Err (Refusal.Bad why) → accept_slice self.old step carrier ≡ Err why }
    {
        if self.is_late(step) {
            return Err(Refusal::Bad(Why::Order));
        }
        let Some(step) = step.in_range(0, u32::MAX) else {
            return Err(Refusal::Bad(Why::Number));
        };
        if carrier.led {
            return Err(Refusal::Bad(Why::Number));
        }
        let Some(carrier) = below(self.carriers(), carrier) else {
            return Err(Refusal::Bad(Why::Table));
        };
        if self.at_lines.len() >= MOST_EVENTS {
            return Err(Refusal::Bad(Why::Many));
        }
        self.at_lines.push(AtLine {
            step,
            what: AtWhat::Slice(carrier),
        })?;
        Ok(())
    }

    #[tactic(auto, unfolding(crate::specs::Reading::accept_operation), using(crate::proofs::Nesting::pushed, crate::proofs::Nesting::nests))]
    fn accept_operation(&mut self, line: OperationLine) -> Result<(), Refusal>
        ensures ok { OnOk result (accept_operation self.old line ≡ Ok self.new) }
        ensures bad { (why : Why) → result ≡ Err (Refusal.Bad why) → accept_operation self.old line ≡ Err why }
    {
        match self.open_program.take() {
            None => Err(Refusal::Bad(Why::Order)),
            Some(mut program) => {
                if misnests(self.depth, &line) {
                    return Err(Refusal::Bad(Why::Nest));
                }
                let operation = operation_in(
                    self.table.unwrap_or(0),
                    &self.programs,
                    &line,
                ).map_err(|why| Refusal::Bad(why))?;
                if program.operations().len() >= MOST_OPERATIONS {
                    return Err(Refusal::Bad(Why::Many));
                }
                let depth = depth_after(self.depth, operation);
                program.push(operation)?;
                self.depth = depth;
                self.open_program = Some(program);
                Ok(())
            }
        }
    }

    /// Takes a line in. After an `Err` the sketch is of no use.
    #[tactic(auto, unfolding(crate::specs::Reading::accept))]
    pub(crate) fn accept(&mut self, alloc: Global, line: Line) -> Result<(), Refusal>
        ensures ok { OnOk result (accept self.old line ≡ Ok self.new) }
        ensures bad { (why : Why) → result ≡ Err (Refusal.Bad why) → accept self.old line ≡ Err why }
    {
        match line {
            Line::Kernel(_) => Err(Refusal::Bad(Why::Order)),
            Line::Table(size) => self.accept_table(size),
            Line::Carriers(count) => self.accept_carriers(count),
            Line::ShowSteps => self.accept_show(),
            Line::Aged { number, version } => self.accept_aged(number, version),
            Line::Program(name) => self.accept_program(alloc, name),
            Line::End => self.accept_end(),
            Line::Thread { priority, program } => self.accept_thread(priority, program),
            Line::Start { step, number } => self.accept_start(step, number),
            Line::Slice { step, carrier } => self.accept_slice(step, carrier),
            Line::Operation(line) => self.accept_operation(line),
        }
    }
}

fn has_zeros(versions: &[u32]) -> bool
    ensures { result ≡ list_all is_zero versions.now }
{
    versions.iter().all(|v| *v == 0)
}

fn has_number(starts: &[u8], number: Numeral) -> bool
    ensures { result ≡ list_any (is_number number) starts.now }
{
    starts
        .iter()
        .any(|s| !number.led && number.value == u64::from(*s))
}
