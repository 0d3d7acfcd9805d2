// The positions of all numbers' threads: at first, and behind one entry more.
ghost use Rattle.std.specs.Prelude.{◌≡◌, ◌<◌, ℕ, IfOk};
ghost use Rattle.k_script.specs.Place.{IsPlace, position_in};
ghost use Rattle.k_script.specs.Plays.{created_program, first_id, start_of};
ghost use Rattle.k_positions.specs.Positions.{ArePlaces, MakesInside, positions_in, positions_to, program_at};

use k_ids::{Act, Entry, Outcome, Phase, ThreadId};
use k_script::{Position, Script};
use std::alloc::{AllocError, Global};

/// The program of a number's thread line; a number without one has none.
fn program_at(script: &Script, number: u8) -> u8
    ensures { result ≡ program_at script.now number }
{
    match script.threads().get(usize::from(number)) {
        Some(thread) => thread.program,
        None => 255,
    }
}

/// Each number's first thread at the start of its program.
pub fn starts(alloc: Global, script: &Script) -> Result<Vec<Position>, AllocError>
    ensures places { IfOk result (λ v. ArePlaces script.now v.items) }
    ensures starts { IfOk result (λ v. (t : ℕ) → t < script.now.table → positions_in script.now v.items t ≡ start_of script.now (program_at script.now t) (first_id t)) }
{
    script.holds();
    let mut positions = Vec::new(alloc);
    for number in 0..script.table() {
        let me = ThreadId { number, version: 1 };
        positions.push(Position::start(program_at(script, number), me))?;
    }
    Ok(positions)
}

/// Takes the positions to where an entry leaves the programs: its thread's own is this one where it is a call, and a thread
/// that a create made stands at the start of the program which that named.
///
/// Condition: the numbers of the entry's thread and of the thread made are in the table.
pub fn move_on(script: &Script, positions: &mut [Position], entry: &Entry, position: Position)
    requires caller { entry.now.event.who.number < script.now.table }
    requires made { MakesInside script.now.table (created_program entry.now.event.act) entry.now.outcome }
    requires places { ArePlaces script.now positions.old }
    requires placed { IsPlace script.now position }
    ensures moves { (t : ℕ) → positions_in script.now positions.new t ≡ positions_to script.now (positions_in script.now positions.old) entry.now (position_in script.now position) t }
    ensures places { ArePlaces script.now positions.new }
{
    let Act::Call { phase } = entry.event.act else {
        return;
    };
    positions[usize::from(entry.event.who.number)] = position;
    let Phase::Create { program, .. } = phase else {
        return;
    };
    let Outcome::Made { id } = entry.outcome else {
        return;
    };
    script.holds();
    positions[usize::from(id.number)] = Position::start(program, id);
}
