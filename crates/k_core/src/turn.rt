// What a carrier's step comes to, but for the logs.
ghost use Rattle.std.specs.Prelude.{◌≡◌, None, Some, false, not, true, ℕ};
ghost use Rattle.k_locks.specs.declared.steps.Answer.{Answer};
ghost use Rattle.k_locks.specs.declared.steps.Step.{Step};
ghost use Rattle.k_locks.specs.Steps.{is_again};
ghost use Rattle.k_carrier.specs.Asked.{lock_acquired};
ghost use Rattle.k_carrier.specs.Resumed.{after_step, lock_awaited, point_of};
ghost use Rattle.k_carrier.specs.Running.{running_in, running_of};
ghost use Rattle.k_carrier.specs.Seen as carriers;
ghost use Rattle.k_carrier.specs.Seen.{CarrierSeen, HandSeen, carrier_in};
ghost use Rattle.k_carrier.specs.Told.{told_step};
ghost use Rattle.k_world.specs.Marks.{course_by, has_mark, same_goal};
ghost use Rattle.k_world.specs.Moves.{slots_by, words_by};
ghost use Rattle.k_world.specs.Steps.{caller_in, carrier_after, course_in, running, stepped_by};
ghost use Rattle.k_store.specs.Stores as stores;
ghost use Rattle.k_store.specs.Stores.{slots_in};
ghost use Rattle.k_core.specs.declared.turn.Course.TheVariants as course;
ghost use Rattle.k_running.specs.Turning.{CanTurn};
ghost use Rattle.k_core.specs.Courses.{IsCourse, can_tell};
ghost use Rattle.k_core.specs.Parts.{store_world, turn_of};

use k_carrier::{Carrier, Running, Stepped, Want};
use k_context::Owner;
use k_locks::{Point, is_same};
use k_script::Script;
use k_store::Store;
use k_switch::Goal;

/// What became of the section of the context in a carrier's hand.
#[derive(Clone, Copy, Debug, PartialEq, Eq)]
pub(crate) enum Course {
    /// It made no step, or is to remove a context that is in another carrier's hand.
    Still,
    /// It went on.
    Onward {
        running: Running,
        /// Whether the step has a mark.
        is_counted: bool,
    },
    /// What it wants is held up by the context of this number.
    HeldUp {
        running: Running,
        wants: Want,
        context: u8,
    },
}

/// What a step has come to.
#[derive(Clone, Copy, Debug, PartialEq, Eq)]
pub(crate) struct Turn {
    pub(crate) course: Course,
    /// The event that it made, with its outcome.
    pub(crate) point: Option<Point>,
    /// What is told of it.
    pub(crate) stepped: Stepped,
    /// Whether the carrier has another goal now, or none any more.
    pub(crate) has_left_goal: bool,
}

/// One atomic step of a carrier.
pub(crate) fn make_turn(script: &Script, carrier: &mut Carrier, store: &mut Store) -> Turn
    requires carrier { carriers.IsPlaced script.now carrier.old }
    requires store { stores.IsPlaced script.now store.old }
    requires can { CanTurn script.now (store_world script.now store.old) (carrier_in script.now carrier.old) }
    ensures told { result.stepped ≡ stepped_by (turn_of script.now store.old carrier.old) }
    ensures point { let s = turn_of script.now store.old carrier.old in
        result.point ≡ point_of s.asked (caller_in (store_world script.now store.old) s.asked.hand) s.answer }
    ensures course { let s = turn_of script.now store.old carrier.old in
        IsCourse s.asked result.course (course_in s) }
    ensures goal { let s = turn_of script.now store.old carrier.old in
        result.has_left_goal ≡ not (same_goal s.before.goal (carrier_after s).goal) }
    ensures carrier { carrier_in script.now carrier.new ≡
        carrier_after (turn_of script.now store.old carrier.old) }
    ensures words { let s = turn_of script.now store.old carrier.old in
        store.new.words ≡ words_by (store_world script.now store.old) (running s.asked.hand) s.move }
    ensures slots { let s = turn_of script.now store.old carrier.old in
        slots_in script.now store.new.slots ≡ slots_by script.now (store_world script.now store.old) s.move }
    ensures placed { carriers.IsPlaced script.now carrier.new }
    ensures stored { stores.IsPlaced script.now store.new }
{
    script.holds();
    let goal = carrier.goal();
    let asked = carrier.next(script);
    let running = carrier.running();
    let context = context_of(running);
    let caller = store.state(context);
    let found = store.perform(context, asked);
    let point = carrier.point(&caller, &found);
    let stepped = carrier.resume(script, found);
    Turn {
        course: course_of(running, carrier.running(), stepped),
        point,
        stepped,
        has_left_goal: !is_same_goal(goal, carrier.goal()),
    }
}

// The number of the context in hand; 0 where there is none.
fn context_of(hand: Option<Running>) -> u8
    ensures { (k : CarrierSeen) → hand ≡ running_in k → result ≡ running k.hand }
{
    match hand {
        Some(running) => running.context,
        None => 0,
    }
}

// What became of the section that was in hand when its step was asked for.
fn course_of(before: Option<Running>, after: Option<Running>, stepped: Stepped) -> Course
    ensures still { before ≡ None → result ≡ course.Still }
    ensures section { (k : CarrierSeen) (h : HandSeen) (s : Step) (a : Answer) → k.hand ≡ Some h →
        before ≡ running_in k →
        lock_awaited k.awaits ≡ lock_acquired s → can_tell s a ≡ true →
        after ≡ running_in (after_step k h a) →
        stepped ≡ told_step k h a → IsCourse k result (course_by h.value s a) }
{
    let Some(running) = before else {
        return Course::Still;
    };
    match stepped {
        Stepped::Missed { .. } => Course::Still,
        Stepped::Blocked { lock, owner } => Course::HeldUp {
            running,
            wants: Want::Lock(lock),
            context: owner,
        },
        Stepped::BlockedBy { context } => Course::HeldUp {
            running,
            wants: Want::Context(context),
            context,
        },
        _ => Course::Onward {
            running,
            is_counted: is_counted(running, after),
        },
    }
}

// Whether the step of the context in hand has a mark: a thread's where it has made one more step of its call,
// a carrier's where the numbers of its switches haven't ended.
fn is_counted(before: Running, after: Option<Running>) -> bool
    ensures { (k : CarrierSeen) (h : HandSeen) (a : Answer) → before ≡ running_of k h →
        after ≡ running_in (after_step k h a) →
        is_again a ≡ false → result ≡ has_mark h.value }
{
    match (before.owner, after) {
        (Owner::Carrier(_), _) => before.serial < u32::MAX,
        (Owner::Thread(_), Some(after)) => after.done != before.done,
        (Owner::Thread(_), None) => false,
    }
}

// Whether they are the same thread, or none.
fn is_same_goal(before: Option<Goal>, after: Option<Goal>) -> bool
    ensures { result ≡ same_goal before after }
{
    match (before, after) {
        (None, None) => true,
        (Some(before), Some(after)) => is_same(before.id, after.id),
        _ => false,
    }
}
