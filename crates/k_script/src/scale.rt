// How long a script is.
ghost use Rattle.std.specs.Prelude.{◌≡◌, ◌≤◌, ◌+◌, ℕ, List, [], length};
ghost use Rattle.k_script.specs.Place.{IsNested};
ghost use Rattle.k_script.specs.Weight.{weight_scale, phase_scale, cost, totals, totals_before, program_total, program_totals, total, weight_of, phases_of, capped, AreCapped, level_totals};

use crate::operation::Operation;
use crate::script::Script;

/// What an operation, a load of work, a turn of a repeat and the end of a program count.
#[derive(Clone, Copy)]
pub(crate) struct Scale {
    /// A send, a call, a receive, a wait or a create.
    call: u64,
    reply: u64,
    destroy: u64,
    load: u64,
    turn: u64,
    ending: u64,
}

/// The counts of what is left of a program, level by level, the innermost repeat first.
#[derive(Clone, Copy)]
pub(crate) struct Levels {
    first: u64,
    second: u64,
    third: u64,
    fourth: u64,
    fifth: u64,
}

impl Scale {
    fn of_weight(table: u8) -> Scale
        ensures { result ≡ weight_scale table }
    {
        Scale {
            call: 16,
            reply: 32,
            destroy: 16 * u64::from(table) + 32,
            load: 1,
            turn: 1,
            ending: 4,
        }
    }

    fn of_phases() -> Scale
        ensures { result ≡ phase_scale }
    {
        Scale {
            call: 1,
            reply: 2,
            destroy: 1,
            load: 0,
            turn: 0,
            ending: 1,
        }
    }

    /// What one operation counts, given the programs before.
    fn cost(self, before: &[u64; 256], operation: Operation) -> u64
        ensures { (exact : List ℕ) → AreCapped before.now exact → result ≡ capped (cost self exact operation) }
    {
        match operation {
            Operation::Reply { .. } => self.reply,
            Operation::Create { program, .. } => {
                self.call.saturating_add(before[usize::from(program)])
            }
            Operation::Destroy { .. } => self.destroy,
            Operation::Work { count } => self.load.saturating_mul(u64::from(count)),
            _ => self.call,
        }
    }

    /// The counts with one operation more in front of what is left.
    fn in_front(self, before: &[u64; 256], operation: Operation, levels: Levels) -> Levels
        ensures { (exact ts : List ℕ) → AreCapped before.now exact → AreCapped (level_totals levels) ts → 1 ≤ length ts → length (totals_before self exact operation ts) ≤ 5 →
            AreCapped (level_totals result) (totals_before self exact operation ts) }
    {
        match operation {
            Operation::Repeat { count } => {
                let turn = levels.first.saturating_add(self.turn);
                let turns = u64::from(count).saturating_mul(turn);
                Levels {
                    first: turns.saturating_add(levels.second),
                    second: levels.third,
                    third: levels.fourth,
                    fourth: levels.fifth,
                    fifth: 0,
                }
            }
            Operation::Again => Levels {
                first: 0,
                second: levels.first,
                third: levels.second,
                fourth: levels.third,
                fifth: levels.fourth,
            },
            operation => Levels {
                first: self.cost(before, operation).saturating_add(levels.first),
                ..levels
            },
        }
    }

    /// What a program counts, with its end.
    fn program(self, before: &[u64; 256], operations: &[Operation]) -> u64
        requires { IsNested operations.now }
        ensures { (exact : List ℕ) → AreCapped before.now exact → result ≡ capped (program_total self exact operations.now) }
    {
        let mut levels = Levels {
            first: 0,
            second: 0,
            third: 0,
            fourth: 0,
            fifth: 0,
        };
        for at in (0..operations.len()).rev() {
            levels = self.in_front(before, operations[at], levels);
        }
        levels.first.saturating_add(self.ending)
    }

    /// What each program counts, by its number.
    fn programs(self, script: &Script) -> [u64; 256]
        ensures { AreCapped result (program_totals self [] script.now.programs) }
    {
        let mut totals = [0; 256];
        for program in 0..script.programs() {
            let total = self.program(&totals, script.listed(program));
            totals[usize::from(program)] = total;
        }
        totals
    }

    fn total(self, script: &Script) -> u64
        ensures { result ≡ capped (total self script.now) }
    {
        let totals = self.programs(script);
        let mut sum: u64 = 0;
        for thread in script.threads() {
            sum = sum.saturating_add(totals[usize::from(thread.program)]);
        }
        sum
    }
}

/// How many steps the threads of the script make at most, roughly, with those of the threads that they create, each turn of a
/// repeat counting as a step: 16 for each call, 32 for a reply, 16 for each number of the table and 32 for a destroy, what it
/// says for work, and 4 for the end of a program. It stands still at 18446744073709551615. It costs time for each operation
/// once.
pub fn weight(script: &Script) -> u64
    ensures { result ≡ capped (weight_of script.now) }
{
    Scale::of_weight(script.table()).total(script)
}

/// How many calls the threads of the script make at most, with those of the threads that they create and all ends. It stands
/// still at 18446744073709551615.
pub fn phases(script: &Script) -> u64
    ensures { result ≡ capped (phases_of script.now) }
{
    Scale::of_phases().total(script)
}
