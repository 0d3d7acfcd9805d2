// The laws of the schedule. Each is a function that does nothing, whose contract is the law.
ghost use Rattle.std.specs.List.{AllByRecursion};
ghost use Rattle.std.specs.Prelude.{Bool, List, Option, Some, reverse, ◌+◌, ◌<◌, ◌≡◌, ◌∷◌, ℕ, true, false};
ghost use Rattle.k_script.specs.declared.lines.AtLine.{AtLine};
ghost use Rattle.k_script.specs.Limits.{IsScript};
ghost use Rattle.k_script.specs.Script.{Script};
ghost use Rattle.k_schedule.specs.Bursts.{IsBetween, IsBursting, IsEnd, IsLeft};
ghost use Rattle.k_schedule.specs.Carriers.{Carriers, Facts, ScheduleLaws};
ghost use Rattle.k_schedule.specs.Events.{AreMade, Counts, IsAhead};
ghost use Rattle.k_schedule.specs.Near.{Held, IsRanked, Seat, Turned, near, next_seat};
ghost use Rattle.k_schedule.specs.Parts.{Falls, Parts};
ghost use Rattle.k_schedule.specs.Schedule.{Burst, IsBurst, IsRun, IsTail, Moment, due, follows, least, moment};
ghost use Rattle.k_schedule.specs.Schedule.{park_at, step_at, tail_begins};
ghost use Rattle.k_schedule.specs.Turn.{IsReached};
ghost use Rattle.k_schedule.specs.Worked.{SmallWorld, small_carriers, small_facts, small_script, small_world};
ghost use Rattle.k_schedule.specs.Worked.{worked_end, worked_turns};

/// A world in which carriers make steps: what they do to it, what is known of it, and that the laws of a schedule hold of these.
pub trait Scheduled {
    ghost World: { Type 0 };

    ghost carriers: { Carriers World };

    ghost facts: { Facts World };

    ghost laws: { ScheduleLaws World carriers facts };
}

/// Before a step those events happen, each once and in their order, that come next and whose step is the number of steps made;
/// after an Idle, those of the next line's step; and no other.
pub fn events_come_at_their_step<S: Scheduled>()
    ensures before_a_step { (c : ℕ) (m : Moment S.World) →
        AreMade S.carriers c (S.carriers.made m.world) m (due S.carriers c m) }
    ensures after_an_idle { (c : ℕ) (w : S.World) (line : AtLine) (lines : List AtLine) →
        AreMade S.carriers c line.step (moment w (line ∷ lines)) (least S.carriers c w (line ∷ lines)) }
{}

/// Where the lines stand in the order of their steps, and only steps are counted, no event is passed: before a step all those of
/// its number have happened. So an event happens at its step, or earlier after an Idle.
pub fn no_event_is_passed<S: Scheduled>()
    ensures before_a_step { (c : ℕ) (m : Moment S.World) → Counts S.carriers → IsAhead S.carriers m →
        AllByRecursion (λ line. S.carriers.made m.world < line.step) (due S.carriers c m).ahead }
    ensures step { (c : ℕ) (m : Moment S.World) → Counts S.carriers → IsAhead S.carriers m →
        IsAhead S.carriers (step_at S.carriers c m) }
    ensures turns { (script : Script) (w : S.World) → Counts S.carriers → IsAhead S.carriers (moment w script.at_lines) →
        IsAhead S.carriers (tail_begins S.carriers w script.at_lines script.turns) }
    ensures burst { (c : ℕ) (m : Moment S.World) (b : Burst S.World) → Counts S.carriers → IsAhead S.carriers m →
        IsBurst S.carriers c m b → IsAhead S.carriers b.after }
    ensures next { (c d : ℕ) (b : Burst S.World) (o : Moment S.World) → Counts S.carriers → IsAhead S.carriers b.after →
        follows S.carriers c b ≡ Some (d, o) → IsAhead S.carriers o }
{}

/// A carrier without a hand isn't parked, and makes no step for it. So once each was parked, nobody has a hand.
pub fn who_has_no_hand_makes_no_step<S: Scheduled>()
    ensures stays { (c : ℕ) (m : Moment S.World) → S.carriers.has_hand m.world c ≡ false → park_at S.carriers c m ≡ m }
    ensures nobody { (script : Script) (w : S.World) → IsScript script → script.carriers ≡ S.carriers.count →
        S.facts.IsGood w script.at_lines →
        IsBetween S.carriers S.facts 0 (tail_begins S.carriers w script.at_lines script.turns) }
{}

/// While nobody else has a hand, a burst ends. Its carrier is settled then, and the others are as they were. It is the only one.
pub fn a_burst_ends<S: Scheduled>()
    ensures ends { (c : ℕ) (m : Moment S.World) → IsBursting S.carriers S.facts c m →
        (b : Burst S.World) × IsBurst S.carriers c m b }
    ensures leaves { (c : ℕ) (m : Moment S.World) (b : Burst S.World) → IsBursting S.carriers S.facts c m →
        IsBurst S.carriers c m b → IsLeft S.carriers S.facts c m b.after }
    ensures one { (c : ℕ) (m : Moment S.World) (b other : Burst S.World) → IsBurst S.carriers c m b →
        IsBurst S.carriers c m other → b ≡ other }
{}

/// The run of each script ends, and so does its tail from each of its bursts on. No line is left then, each carrier is settled,
/// and no thread can go on.
pub fn a_run_ends<S: Scheduled>()
    ensures ends { (script : Script) (w : S.World) → IsScript script → script.carriers ≡ S.carriers.count →
        S.facts.IsGood w script.at_lines → (end : Moment S.World) × IsRun S.carriers script w end }
    ensures finished { (script : Script) (w : S.World) (end : Moment S.World) → IsScript script →
        script.carriers ≡ S.carriers.count → S.facts.IsGood w script.at_lines → IsRun S.carriers script w end →
        IsEnd S.carriers S.facts end }
    ensures tail { (c : ℕ) (m : Moment S.World) → IsBetween S.carriers S.facts c m →
        (end : Moment S.World) × IsTail S.carriers c m end }
{}

/// The run of a script is the only one.
pub fn a_script_has_one_run<S: Scheduled>()
    ensures { (script : Script) (w : S.World) (end other : Moment S.World) → IsRun S.carriers script w end →
        IsRun S.carriers script w other → end ≡ other }
{}

/// What a run leaves is reached by single turns: steps, parks and events. So whatever each of these keeps, the run keeps.
pub fn a_run_is_made_of_turns<S: Scheduled>()
    ensures { (script : Script) (w : S.World) (end : Moment S.World) → IsRun S.carriers script w end →
        IsReached S.carriers w end.world }
{}

/// Between two steps of sections a carrier looks, takes, gives and asks in vain, each time nearer to the next of them. A switch
/// doesn't begin while another one is to be ended.
pub fn a_carrier_comes_nearer()
    ensures { (blocked : ℕ → Option Held) (holds clean : Held → Bool) (seat next : Seat) (turned : Turned) →
        IsRanked blocked holds clean → (seat.begins ≡ true → seat.finished ≡ false) →
        next_seat blocked holds clean seat turned ≡ Some next → near blocked holds clean next < near blocked holds clean seat }
{}

/// The parts of a measure don't fall for ever, where each time one of them falls and none before it rises.
pub fn parts_dont_fall_for_ever()
    ensures { (parts : ℕ → Parts) → ((n : ℕ) → Falls (parts n) (parts (n + 1))) → ⊥ }
{}

/// A schedule worked out by hand, in a small world that keeps the laws: its turns come in this order, and in no other.
pub fn a_schedule_is_worked_out()
    ensures laws { ScheduleLaws SmallWorld small_carriers small_facts }
    ensures good { small_facts.IsGood small_world small_script.at_lines }
    ensures run { IsRun small_carriers small_script small_world worked_end }
    ensures turns { reverse worked_end.world.turns ≡ worked_turns }
{}
