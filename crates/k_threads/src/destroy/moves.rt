// The ways on of a destroy.
ghost use Rattle.std.specs.Prelude.{if◌then◌else◌, ◌≡◌, ◌≤◌, ◌<◌};
ghost use Rattle.k_ids.specs.declared.state_word.StateWord.{StateWord};
ghost use Rattle.k_ids.specs.StateWords.{IsStateSpelling, IsStateWord, state_word_of};
ghost use Rattle.k_ready.specs.Lists.{Ready};
ghost use Rattle.k_senders.specs.Queue.{Queue};
ghost use Rattle.k_locks.specs.declared.steps.Answer.TheVariants as answer;
ghost use Rattle.k_locks.specs.Hands.{Hand, no_lists, no_queue};
ghost use Rattle.k_locks.specs.Shown.{is_dead};
ghost use Rattle.k_threads.specs.DestroyTable.{IsFit, IsSoundCall, IsSoundLocation, IsSoundLocked, IsSoundPushing, IsSoundReturned, IsSoundVictim, IsSoundVisit, IsWaiter, Locked, Outside, Pushing, UnlistVictim, Victim, Visit, after_victim, after_visited, alive_or_dead, at_of, free_first, hand_of, released_end, resumed_location, returned_at, returned_hand, visit_from, resumed_went};
ghost use Rattle.k_threads.specs.Goods.{without_first};

use crate::destroy::{
    DestroyCall, DestroyLocation, DestroyLocked, DestroyOutside, DestroyPushing, DestroyRelease,
    DestroyReturned, DestroyVictim, DestroyVisit,
};
use crate::goods::without_first;
use crate::words::{is_receiving_from, went_on};
use k_ids::{Reply, StateWord};
use k_locks::{Answer, Goods, Numbers, Told, Went, found_in, is_dead, is_present_in, state_word};
use k_ready::ReadyLists;
use k_senders::Senders;

impl DestroyLocation {
    // How the section goes on, and where it stands then.
    pub(crate) fn resumed(self, call: DestroyCall, answer: Answer) -> (Went, DestroyLocation)
        requires call { IsSoundCall call }
        requires sound { IsSoundLocation call self }
        requires fit { IsFit (at_of self) answer }
        ensures location { (own : StateWord) → result.1 ≡ resumed_location call own self answer }
        ensures went { (own : StateWord) → result.0 ≡ resumed_went call own (hand_of self) (at_of self) answer }
        ensures sound { IsSoundLocation call result.1 }
    {
        match answer {
            Answer::Got(goods) => (Went::On, self.got(call, goods)),
            Answer::Told(told) => self.told(call, told),
        }
    }

    // A lock comes with what it guards.
    fn got(self, call: DestroyCall, goods: Goods) -> DestroyLocation
        requires sound { IsSoundLocation call self }
        ensures location { (own : StateWord) → result ≡ resumed_location call own self (answer.Got goods) }
        ensures went { (own : StateWord) → resumed_went call own (hand_of self) (at_of self) (answer.Got goods) ≡ Went.On }
        ensures sound { IsSoundLocation call result }
    {
        match (self, goods) {
            (DestroyLocation::Outside(DestroyOutside::AcquireTable), Goods::Numbers(numbers)) => {
                DestroyLocation::Locked(DestroyLocked::LoadCaller, numbers)
            }
            (DestroyLocation::Locked(at, numbers), Goods::Senders(queue)) => got_queue(
                at, numbers, queue,
            ),
            (
                DestroyLocation::Locked(DestroyLocked::AcquireReadyForVictim, numbers),
                Goods::Ready(lists),
            ) => { DestroyLocation::UnlistVictim(numbers, lists) }
            (
                DestroyLocation::Victim(
                    DestroyVictim::AcquireReadyForSender(sender, seen),
                    numbers,
                    queue,
                ),
                Goods::Ready(lists),
            ) => {
                let at = DestroyPushing::PushSender(sender, seen);
                DestroyLocation::Pushing(at, numbers, queue, lists)
            }
            (
                DestroyLocation::Visit(
                    DestroyVisit::AcquireReadyForVisited(visited, seen),
                    numbers,
                    queue,
                ),
                Goods::Ready(lists),
            ) => {
                let at = DestroyPushing::PushVisited(visited, seen);
                DestroyLocation::Pushing(at, numbers, queue, lists)
            }
            (location, _goods) => location,
        }
    }

    fn told(self, call: DestroyCall, told: Told) -> (Went, DestroyLocation)
        requires call { IsSoundCall call }
        requires sound { IsSoundLocation call self }
        requires fit { IsFit (at_of self) (answer.Told told) }
        ensures location { (own : StateWord) → result.1 ≡ resumed_location call own self (answer.Told told) }
        ensures went { (own : StateWord) → result.0 ≡ resumed_went call own (hand_of self) (at_of self) (answer.Told told) }
        ensures sound { IsSoundLocation call result.1 }
    {
        match self {
            DestroyLocation::Outside(at) => outside_told(at, told),
            DestroyLocation::Locked(at, numbers) => locked_told(call, at, numbers, told),
            DestroyLocation::Victim(at, numbers, queue) => victim_told(
                call, at, numbers, queue, told,
            ),
            DestroyLocation::Visit(at, numbers, queue) => visit_told(
                call, at, numbers, queue, told,
            ),
            DestroyLocation::UnlistVictim(numbers, lists) => unlist_told(numbers, lists, told),
            DestroyLocation::Pushing(at, numbers, queue, lists) => {
                pushing_told(at, numbers, queue, lists, told)
            }
            DestroyLocation::Returned(left) => returned_told(call, left, told),
        }
    }
}

// The queue of the victim, or of the visited number.
fn got_queue(at: DestroyLocked, numbers: Numbers, queue: Senders) -> DestroyLocation
    ensures location { (call : DestroyCall) (own : StateWord) → result ≡ resumed_location call own (DestroyLocation.Locked at numbers) (answer.Got (Goods.Senders queue)) }
    ensures went { (call : DestroyCall) (own : StateWord) (h : Hand) → resumed_went call own h (Locked at) (answer.Got (Goods.Senders queue)) ≡ Went.On }
    ensures sound { (call : DestroyCall) → IsSoundLocked call at → IsSoundLocation call result }
{
    match at {
        DestroyLocked::AcquireVictimLock => DestroyLocation::Victim(
            DestroyVictim::LoadVictim,
            numbers,
            queue,
        ),
        DestroyLocked::AcquireVisitedLock(visited) => {
            DestroyLocation::Visit(DestroyVisit::LoadVisited(visited), numbers, queue)
        }
        at => DestroyLocation::Locked(at, numbers),
    }
}

fn outside_told(at: DestroyOutside, told: Told) -> (Went, DestroyLocation)
    requires { IsFit (Outside at) (answer.Told told) }
    ensures location { (call : DestroyCall) (own : StateWord) → result.1 ≡ resumed_location call own (DestroyLocation.Outside at) (answer.Told told) }
    ensures went { (call : DestroyCall) (own : StateWord) (h : Hand) → result.0 ≡ resumed_went call own h (Outside at) (answer.Told told) }
    ensures sound { (call : DestroyCall) → IsSoundLocation call result.1 }
{
    let went = match (at, told) {
        (DestroyOutside::LoadOwn, Told::Loaded(bits)) => alive_or_dead(&state_word(bits)),
        (DestroyOutside::Ended(went), Told::Loaded(_)) => went,
        (at, told) => return (went_on(told), DestroyLocation::Outside(at)),
    };
    (went, DestroyLocation::Outside(DestroyOutside::Ended(went)))
}

// How the section ends where the victim is the caller.
fn alive_or_dead(word: &StateWord) -> Went
    ensures { result ≡ alive_or_dead word.now }
{
    if is_dead(word) {
        Went::CallerDead
    } else {
        Went::Ends(Reply::Own)
    }
}

fn locked_told(
    call: DestroyCall,
    at: DestroyLocked,
    numbers: Numbers,
    told: Told,
) -> (Went, DestroyLocation)
    requires call { IsSoundCall call }
    requires sound { IsSoundLocked call at }
    requires fit { IsFit (Locked at) (answer.Told told) }
    ensures location { (own : StateWord) → result.1 ≡ resumed_location call own (DestroyLocation.Locked at numbers) (answer.Told told) }
    ensures went { (own : StateWord) (h : Hand) → result.0 ≡ resumed_went call own h (Locked at) (answer.Told told) }
    ensures sound { IsSoundLocation call result.1 }
{
    let at = match (at, told) {
        (DestroyLocked::LoadCaller, Told::Loaded(bits)) => after_caller(&state_word(bits)),
        (DestroyLocked::RemoveContext, Told::Removed) => visit_from(call, 0),
        (DestroyLocked::Release(end), Told::Released) => return ended(end),
        (at, told) => return (went_on(told), DestroyLocation::Locked(at, numbers)),
    };
    (Went::On, DestroyLocation::Locked(at, numbers))
}

// Where the section goes on once it knows its caller's word.
fn after_caller(word: &StateWord) -> DestroyLocked
    ensures next { result ≡ (if is_dead word.now then DestroyLocked.Release DestroyRelease.Dead else DestroyLocked.AcquireVictimLock) }
    ensures sound { (call : DestroyCall) → IsSoundLocked call result }
{
    if is_dead(word) {
        DestroyLocked::Release(DestroyRelease::Dead)
    } else {
        DestroyLocked::AcquireVictimLock
    }
}

// On to the lowest number from this one on that isn't the victim's.
fn visit_from(call: DestroyCall, number: u8) -> DestroyLocked
    requires call { IsSoundCall call }
    requires number { number ≤ 64 }
    ensures next { result ≡ visit_from call number }
    ensures sound { IsSoundLocked call result }
{
    let number = if number == call.who.number {
        number + 1
    } else {
        number
    };
    if number < call.count {
        DestroyLocked::AcquireVisitedLock(number)
    } else {
        DestroyLocked::Release(DestroyRelease::Killed)
    }
}

// The section is over once the table lock is released.
fn ended(end: DestroyRelease) -> (Went, DestroyLocation)
    ensures went { result.0 ≡ released_end end }
    ensures location { result.1 ≡ DestroyLocation.Outside (DestroyOutside.Ended (released_end end)) }
{
    let went = match end {
        DestroyRelease::Killed => Went::Ends(Reply::Killed),
        DestroyRelease::Absent(found) => Went::Ends(Reply::Absent { found }),
        DestroyRelease::Dead => Went::CallerDead,
    };
    (went, DestroyLocation::Outside(DestroyOutside::Ended(went)))
}

fn victim_told(
    call: DestroyCall,
    at: DestroyVictim,
    numbers: Numbers,
    queue: Senders,
    told: Told,
) -> (Went, DestroyLocation)
    requires sound { IsSoundVictim at queue }
    requires fit { IsFit (Victim at) (answer.Told told) }
    ensures location { (own : StateWord) → result.1 ≡ resumed_location call own (DestroyLocation.Victim at numbers queue) (answer.Told told) }
    ensures went { (own : StateWord) (h : Hand) → result.0 ≡ resumed_went call own h (Victim at) (answer.Told told) }
    ensures sound { IsSoundLocation call result.1 }
{
    let at = match (at, told) {
        (DestroyVictim::LoadVictim, Told::Loaded(bits)) => after_victim(call, state_word(bits)),
        (DestroyVictim::CommitKill(_), Told::Won) => free_first(&queue),
        (DestroyVictim::CommitKill(_), Told::Lost { .. }) => DestroyVictim::LoadVictim,
        (DestroyVictim::LoadSender(sender), Told::Loaded(bits)) => {
            DestroyVictim::FreeSender(sender, state_word(bits))
        }
        (DestroyVictim::FreeSender(sender, seen), told) => {
            return freeing_told(sender, seen, numbers, queue, told);
        }
        (DestroyVictim::ReleaseVictimLock, Told::Released) => {
            let at = DestroyLocked::AcquireReadyForVictim;
            return (Went::On, DestroyLocation::Locked(at, numbers));
        }
        (DestroyVictim::ReleaseVictimLockAbsent(found), Told::Released) => {
            let at = DestroyLocked::Release(DestroyRelease::Absent(found));
            return (Went::On, DestroyLocation::Locked(at, numbers));
        }
        (at, told) => return (went_on(told), DestroyLocation::Victim(at, numbers, queue)),
    };
    (Went::On, DestroyLocation::Victim(at, numbers, queue))
}

// Where the section goes on once it knows the victim's word.
fn after_victim(call: DestroyCall, word: StateWord) -> DestroyVictim
    requires { IsStateWord word }
    ensures next { result ≡ after_victim call word }
    ensures sound { (queue : Queue) → IsSoundVictim result queue }
{
    if is_present_in(&word, call.who) {
        DestroyVictim::CommitKill(word)
    } else {
        DestroyVictim::ReleaseVictimLockAbsent(found_in(call.who.number, &word))
    }
}

fn freeing_told(
    sender: u8,
    seen: StateWord,
    numbers: Numbers,
    queue: Senders,
    told: Told,
) -> (Went, DestroyLocation)
    requires { IsWaiter 64 sender seen }
    ensures location { (call : DestroyCall) (own : StateWord) → result.1 ≡ resumed_location call own (DestroyLocation.Victim (DestroyVictim.FreeSender sender seen) numbers queue) (answer.Told told) }
    ensures went { (call : DestroyCall) (own : StateWord) (h : Hand) → result.0 ≡ resumed_went call own h (Victim (DestroyVictim.FreeSender sender seen)) (answer.Told told) }
    ensures sound { (call : DestroyCall) → IsSoundLocation call result.1 }
{
    match told {
        Told::Won => {
            let (at, queue) = after_free(sender, seen, queue);
            (Went::On, DestroyLocation::Victim(at, numbers, queue))
        }
        Told::Lost { .. } => {
            let at = DestroyVictim::LoadSender(sender);
            (Went::On, DestroyLocation::Victim(at, numbers, queue))
        }
        told => {
            let at = DestroyVictim::FreeSender(sender, seen);
            (went_on(told), DestroyLocation::Victim(at, numbers, queue))
        }
    }
}

// A sender was freed. One that was off has to be put into a ready list. The entry of one that was on, the first, is taken out.
fn after_free(sender: u8, seen: StateWord, queue: Senders) -> (DestroyVictim, Senders)
    requires { IsWaiter 64 sender seen }
    ensures next { result.0 ≡ (if seen.on then free_first (without_first queue).entries else DestroyVictim.AcquireReadyForSender sender seen) }
    ensures queue { result.1 ≡ (if seen.on then without_first queue else queue) }
    ensures sound { IsSoundVictim result.0 result.1 }
{
    if seen.on {
        let queue = without_first(queue);
        (free_first(&queue), queue)
    } else {
        (DestroyVictim::AcquireReadyForSender(sender, seen), queue)
    }
}

// On to the first of those who still wait to send to the victim.
#[tactic(auto, using(crate::proofs::Entries::first_inside, crate::proofs::Entries::nothing_stands))]
fn free_first(queue: &Senders) -> DestroyVictim
    ensures next { result ≡ free_first queue.now.entries }
    ensures sound { IsSoundVictim result queue.now }
{
    match queue.first() {
        Some(sender) => DestroyVictim::LoadSender(sender),
        None => DestroyVictim::ReleaseVictimLock,
    }
}

fn visit_told(
    call: DestroyCall,
    at: DestroyVisit,
    numbers: Numbers,
    queue: Senders,
    told: Told,
) -> (Went, DestroyLocation)
    requires call { IsSoundCall call }
    requires sound { IsSoundVisit call at }
    requires fit { IsFit (Visit at) (answer.Told told) }
    ensures location { (own : StateWord) → result.1 ≡ resumed_location call own (DestroyLocation.Visit at numbers queue) (answer.Told told) }
    ensures went { (own : StateWord) (h : Hand) → result.0 ≡ resumed_went call own h (Visit at) (answer.Told told) }
    ensures sound { IsSoundLocation call result.1 }
{
    let at = match (at, told) {
        (DestroyVisit::LoadVisited(visited), Told::Loaded(bits)) => {
            after_visited(call, visited, state_word(bits))
        }
        (DestroyVisit::FreeVisited(visited, seen), Told::Won) => if seen.on {
            DestroyVisit::ReleaseVisitedLock(visited)
        } else {
            DestroyVisit::AcquireReadyForVisited(visited, seen)
        },
        (DestroyVisit::FreeVisited(visited, _), Told::Lost { .. }) => DestroyVisit::LoadVisited(
            visited,
        ),
        (DestroyVisit::ReleaseVisitedLock(visited), Told::Released) => {
            let at = visit_from(call, visited + 1);
            return (Went::On, DestroyLocation::Locked(at, numbers));
        }
        (at, told) => return (went_on(told), DestroyLocation::Visit(at, numbers, queue)),
    };
    (Went::On, DestroyLocation::Visit(at, numbers, queue))
}

// Where the section goes on once it knows the word of a visited number.
fn after_visited(call: DestroyCall, visited: u8, word: StateWord) -> DestroyVisit
    requires word { IsStateWord word }
    requires inside { visited < call.count }
    ensures next { result ≡ after_visited call visited word }
    ensures sound { IsSoundVisit call result }
{
    if is_receiving_from(call.who, &word) {
        DestroyVisit::FreeVisited(visited, word)
    } else {
        DestroyVisit::ReleaseVisitedLock(visited)
    }
}

fn unlist_told(numbers: Numbers, lists: ReadyLists, told: Told) -> (Went, DestroyLocation)
    ensures location { (call : DestroyCall) (own : StateWord) → result.1 ≡ resumed_location call own (DestroyLocation.UnlistVictim numbers lists) (answer.Told told) }
    ensures went { (call : DestroyCall) (own : StateWord) (h : Hand) → result.0 ≡ resumed_went call own h UnlistVictim (answer.Told told) }
    ensures sound { (call : DestroyCall) → IsSoundLocation call result.1 }
{
    match told {
        Told::Released => {
            (
                Went::On,
                DestroyLocation::Locked(DestroyLocked::RemoveContext, numbers),
            )
        }
        told => (went_on(told), DestroyLocation::UnlistVictim(numbers, lists)),
    }
}

fn pushing_told(
    at: DestroyPushing,
    numbers: Numbers,
    queue: Senders,
    lists: ReadyLists,
    told: Told,
) -> (Went, DestroyLocation)
    ensures location { (call : DestroyCall) (own : StateWord) → result.1 ≡ resumed_location call own (DestroyLocation.Pushing at numbers queue lists) (answer.Told told) }
    ensures went { (call : DestroyCall) (own : StateWord) (h : Hand) → result.0 ≡ resumed_went call own h (Pushing at) (answer.Told told) }
    ensures sound { (call : DestroyCall) → IsSoundPushing call at → IsSoundLocation call result.1 }
{
    match told {
        Told::Released => pushed(at, numbers, queue),
        told => {
            (
                went_on(told),
                DestroyLocation::Pushing(at, numbers, queue, lists),
            )
        }
    }
}

// A thread was pushed. The entry of a sender, the first, is taken out.
fn pushed(at: DestroyPushing, numbers: Numbers, queue: Senders) -> (Went, DestroyLocation)
    ensures location { (call : DestroyCall) (own : StateWord) (lists : Ready) → result.1 ≡ resumed_location call own (DestroyLocation.Pushing at numbers queue lists) (answer.Told Told.Released) }
    ensures returned { (call : DestroyCall) (own : StateWord) → result.1 ≡ resumed_location call own (DestroyLocation.Returned (DestroyReturned.Pushed at numbers queue)) (answer.Told Told.Released) }
    ensures went { (call : DestroyCall) (own : StateWord) (h : Hand) → result.0 ≡ resumed_went call own h (Pushing at) (answer.Told Told.Released) }
    ensures sound { (call : DestroyCall) → IsSoundPushing call at → IsSoundLocation call result.1 }
{
    match at {
        DestroyPushing::PushSender(_, seen) => {
            let queue = without_first(queue);
            (
                Went::Pushed {
                    priority: seen.priority,
                },
                DestroyLocation::Victim(free_first(&queue), numbers, queue),
            )
        }
        DestroyPushing::PushVisited(visited, seen) => {
            let at = DestroyVisit::ReleaseVisitedLock(visited);
            (
                Went::Pushed {
                    priority: seen.priority,
                },
                DestroyLocation::Visit(at, numbers, queue),
            )
        }
    }
}

// What a release has taken along is gone; with any other answer the section stays where it is.
fn returned_told(call: DestroyCall, left: DestroyReturned, told: Told) -> (Went, DestroyLocation)
    requires call { IsSoundCall call }
    requires sound { IsSoundReturned call left }
    ensures location { (own : StateWord) → result.1 ≡ resumed_location call own (DestroyLocation.Returned left) (answer.Told told) }
    ensures went { (own : StateWord) → result.0 ≡ resumed_went call own (returned_hand left) (returned_at left) (answer.Told told) }
    ensures sound { IsSoundLocation call result.1 }
{
    match told {
        Told::Released => released(call, left),
        told => (went_on(told), DestroyLocation::Returned(left)),
    }
}

fn released(call: DestroyCall, left: DestroyReturned) -> (Went, DestroyLocation)
    requires call { IsSoundCall call }
    requires sound { IsSoundReturned call left }
    ensures location { (own : StateWord) → result.1 ≡ resumed_location call own (DestroyLocation.Returned left) (answer.Told Told.Released) }
    ensures went { (own : StateWord) → result.0 ≡ resumed_went call own (returned_hand left) (returned_at left) (answer.Told Told.Released) }
    ensures sound { IsSoundLocation call result.1 }
{
    let (at, numbers) = match left {
        DestroyReturned::Numbers(end) => return ended(end),
        DestroyReturned::VictimLock(numbers) => (DestroyLocked::AcquireReadyForVictim, numbers),
        DestroyReturned::VictimLockAbsent(found, numbers) => (
            DestroyLocked::Release(DestroyRelease::Absent(found)),
            numbers,
        ),
        DestroyReturned::VisitedLock(visited, numbers) => (visit_from(call, visited + 1), numbers),
        DestroyReturned::Unlisted(numbers) => (DestroyLocked::RemoveContext, numbers),
        DestroyReturned::Pushed(at, numbers, queue) => return pushed(at, numbers, queue),
    };
    (Went::On, DestroyLocation::Locked(at, numbers))
}
