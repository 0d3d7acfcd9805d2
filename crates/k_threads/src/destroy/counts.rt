// The locks that a destroy holds, and how many steps are left until their release.
ghost use Rattle.std.specs.Prelude.{if◌then◌else◌, ◌==◌, ◌≡◌, ◌≤◌, ◌+◌, ◌-◌, ◌*◌, ℕ, length};
ghost use Rattle.k_senders.specs.Queue.{Queue};
ghost use Rattle.k_locks.specs.Hands.{Hand, nothing};
ghost use Rattle.k_threads.specs.DestroyTable.{Locked, Pushing, UnlistVictim, Victim, Visit, at_of, hand_of, in_queue, left_of, left_ready, left_table, left_thread, locks_of, locks_thread, queue_at, returned_at, returned_hand, to_visit, visited_at, visits};

use crate::destroy::{
    DestroyCall, DestroyLocation, DestroyLocked, DestroyPushing, DestroyReturned, DestroySection,
    DestroyVictim, DestroyVisit,
};
use crate::goods::entries;
use k_locks::Lock;

impl DestroySection {
    /// The locks that the section holds, by rank.
    pub fn holds(&self) -> [Option<Lock>; 3]
        ensures { result ≡ locks_of self.now.call (at_of self.now.location) }
    {
        let table = Some(Lock::Table);
        match &self.location {
            DestroyLocation::Outside(_) => [None, None, None],
            DestroyLocation::Locked(_, _) => [table, None, None],
            DestroyLocation::Victim(_, _, _) => [
                table,
                Some(Lock::Thread(self.call.who.number)),
                None,
            ],
            DestroyLocation::Visit(at, _, _) => [table, Some(Lock::Thread(at.visited())), None],
            DestroyLocation::UnlistVictim(_, _) => [table, None, Some(Lock::Ready)],
            DestroyLocation::Pushing(at, _, _, _) => self.call.holds_pushing(at),
            DestroyLocation::Returned(left) => self.call.holds_returned(left),
        }
    }

    /// How many steps are left until a lock is released, that release included: the greatest number where no exchange is lost
    /// but the one at the section's location. It is 0 of a lock that isn't held.
    pub fn left(&self, lock: Lock) -> u32
        ensures { result ≡ left_of self.now.call (hand_of self.now.location) (at_of self.now.location) lock }
    {
        match lock {
            Lock::Table => self.call.left_table(&self.location),
            Lock::Thread(number) => if self.call.locks_thread(&self.location, number) {
                left_thread(&self.location)
            } else {
                0
            },
            Lock::Ready => match &self.location {
                DestroyLocation::UnlistVictim(_, _)
                | DestroyLocation::Pushing(_, _, _, _)
                | DestroyLocation::Returned(
                    DestroyReturned::Unlisted(_) | DestroyReturned::Pushed(_, _, _),
                ) => 1,
                _ => 0,
            },
        }
    }
}

// The locks that are held.
impl DestroyCall {
    fn holds_pushing(&self, at: &DestroyPushing) -> [Option<Lock>; 3]
        ensures { result ≡ locks_of self.now (Pushing at.now) }
    {
        let thread = Lock::Thread(self.queue_at(at));
        [Some(Lock::Table), Some(thread), Some(Lock::Ready)]
    }

    fn holds_returned(&self, left: &DestroyReturned) -> [Option<Lock>; 3]
        ensures { result ≡ locks_of self.now (returned_at left.now) }
    {
        let table = Some(Lock::Table);
        match left {
            DestroyReturned::Numbers(_) => [table, None, None],
            DestroyReturned::VictimLock(_) | DestroyReturned::VictimLockAbsent(_, _) => {
                [table, Some(Lock::Thread(self.who.number)), None]
            }
            DestroyReturned::VisitedLock(visited, _) => [table, Some(Lock::Thread(*visited)), None],
            DestroyReturned::Unlisted(_) => [table, None, Some(Lock::Ready)],
            DestroyReturned::Pushed(at, _, _) => self.holds_pushing(at),
        }
    }

    // The number whose lock is held while a thread is pushed.
    fn queue_at(&self, at: &DestroyPushing) -> u8
        ensures { result ≡ queue_at self.now at.now }
    {
        match at {
            DestroyPushing::PushSender(_, _) => self.who.number,
            DestroyPushing::PushVisited(visited, _) => *visited,
        }
    }

    // Whether this number's lock is held.
    fn locks_thread(&self, location: &DestroyLocation, number: u8) -> bool
        ensures { result ≡ locks_thread self.now (at_of location.now) number }
    {
        match location {
            DestroyLocation::Outside(_)
            | DestroyLocation::Locked(_, _)
            | DestroyLocation::UnlistVictim(_, _) => false,
            DestroyLocation::Victim(_, _, _) => number == self.who.number,
            DestroyLocation::Visit(at, _, _) => number == at.visited(),
            DestroyLocation::Pushing(at, _, _, _) => number == self.queue_at(at),
            DestroyLocation::Returned(left) => self.locks_returned(left, number),
        }
    }

    fn locks_returned(&self, left: &DestroyReturned, number: u8) -> bool
        ensures { result ≡ locks_thread self.now (returned_at left.now) number }
    {
        match left {
            DestroyReturned::Numbers(_) | DestroyReturned::Unlisted(_) => false,
            DestroyReturned::VictimLock(_) | DestroyReturned::VictimLockAbsent(_, _) => {
                number == self.who.number
            }
            DestroyReturned::VisitedLock(visited, _) => number == *visited,
            DestroyReturned::Pushed(at, _, _) => number == self.queue_at(at),
        }
    }
}

impl DestroyVisit {
    // The number that is visited.
    fn visited(&self) -> u8
        ensures { result ≡ visited_at self.now }
    {
        match self {
            DestroyVisit::LoadVisited(visited)
            | DestroyVisit::FreeVisited(visited, _)
            | DestroyVisit::AcquireReadyForVisited(visited, _)
            | DestroyVisit::ReleaseVisitedLock(visited) => *visited,
        }
    }
}

// Up to the release of the table lock.
impl DestroyCall {
    fn left_table(&self, location: &DestroyLocation) -> u32
        ensures { result ≡ left_table self.now (hand_of location.now) (at_of location.now) }
    {
        match location {
            DestroyLocation::Outside(_) => 0,
            DestroyLocation::Locked(at, _) => self.left_locked(*at),
            DestroyLocation::Victim(at, _, queue) => self.left_victim(*at, entries(queue)),
            DestroyLocation::Visit(at, _, _) => self.left_visit(*at),
            DestroyLocation::UnlistVictim(_, _) => self.visits() - 2,
            DestroyLocation::Pushing(at, _, queue, _) => self.left_pushing(*at, entries(queue)),
            DestroyLocation::Returned(left) => self.left_returned(left),
        }
    }

    fn left_locked(&self, at: DestroyLocked) -> u32
        ensures { result ≡ left_table self.now nothing (Locked at) }
    {
        match at {
            DestroyLocked::LoadCaller => 4 * self.others() + self.visits() + 4,
            DestroyLocked::AcquireVictimLock => 4 * self.others() + self.visits() + 3,
            DestroyLocked::AcquireReadyForVictim => self.visits() - 1,
            DestroyLocked::RemoveContext => self.visits() - 3,
            DestroyLocked::AcquireVisitedLock(visited) => 6 * self.to_visit(visited) + 1,
            DestroyLocked::Release(_) => 1,
        }
    }

    fn left_victim(&self, at: DestroyVictim, entries: u32) -> u32
        requires { entries ≤ 64 }
        ensures { (h : Hand) → in_queue h ≡ entries → left_table self.now h (Victim at) ≡ result }
    {
        let before = 4 * entries + self.visits();
        match at {
            DestroyVictim::LoadVictim => before + 2,
            DestroyVictim::CommitKill(_) => before + 3,
            DestroyVictim::LoadSender(_) => before,
            DestroyVictim::FreeSender(_, _) => before + 1,
            DestroyVictim::AcquireReadyForSender(_, _) => before - 2,
            DestroyVictim::ReleaseVictimLock => self.visits(),
            DestroyVictim::ReleaseVictimLockAbsent(_) => 2,
        }
    }

    fn left_visit(&self, at: DestroyVisit) -> u32
        ensures { result ≡ left_table self.now nothing (Visit at) }
    {
        match at {
            DestroyVisit::LoadVisited(visited) => self.at_visit(visited, 0),
            DestroyVisit::FreeVisited(visited, _) => 6 * self.to_visit(visited) + 1,
            DestroyVisit::AcquireReadyForVisited(visited, _) => self.at_visit(visited, 2),
            DestroyVisit::ReleaseVisitedLock(visited) => self.at_visit(visited, 4),
        }
    }

    fn left_pushing(&self, at: DestroyPushing, entries: u32) -> u32
        requires { entries ≤ 64 }
        ensures { (h : Hand) → in_queue h ≡ entries → left_table self.now h (Pushing at) ≡ result }
    {
        match at {
            DestroyPushing::PushSender(_, _) => 4 * entries + self.visits() - 3,
            DestroyPushing::PushVisited(visited, _) => self.at_visit(visited, 3),
        }
    }

    fn left_returned(&self, left: &DestroyReturned) -> u32
        ensures { result ≡ left_table self.now (returned_hand left.now) (returned_at left.now) }
    {
        match left {
            DestroyReturned::Numbers(_) => 1,
            DestroyReturned::VictimLock(_) => self.visits(),
            DestroyReturned::VictimLockAbsent(_, _) => 2,
            DestroyReturned::VisitedLock(visited, _) => self.at_visit(*visited, 4),
            DestroyReturned::Unlisted(_) => self.visits() - 2,
            DestroyReturned::Pushed(at, _, queue) => self.left_pushing(*at, entries(queue)),
        }
    }

    // The steps from the load of a visited number on, but some that were made.
    fn at_visit(&self, visited: u8, made: u32) -> u32
        ensures { result ≡ 6 * to_visit self.now visited - made }
    {
        (6 * self.to_visit(visited)).saturating_sub(made)
    }

    // The numbers that are still to be visited, with this one.
    fn to_visit(&self, visited: u8) -> u32
        ensures number { result ≡ to_visit self.now visited }
        ensures few { result ≤ 255 }
    {
        let above = u32::from(self.count).saturating_sub(u32::from(visited));
        above.saturating_sub(u32::from(visited < self.who.number))
    }

    // The numbers but one.
    fn others(&self) -> u32
        ensures number { result ≡ self.now.count - 1 }
        ensures few { result ≤ 255 }
    {
        u32::from(self.count).saturating_sub(1)
    }

    // The steps from the release of the victim's lock on.
    fn visits(&self) -> u32
        ensures number { result ≡ visits self.now }
        ensures some { 5 ≤ result }
        ensures few { result ≤ 1535 }
    {
        6 * self.others() + 5
    }
}

// Up to the release of the thread lock that is held.
fn left_thread(location: &DestroyLocation) -> u32
    ensures { result ≡ left_thread (hand_of location.now) (at_of location.now) }
{
    match location {
        DestroyLocation::Outside(_)
        | DestroyLocation::Locked(_, _)
        | DestroyLocation::UnlistVictim(_, _) => 0,
        DestroyLocation::Victim(at, _, queue) => left_in_queue(*at, entries(queue)),
        DestroyLocation::Visit(at, _, _) => match at {
            DestroyVisit::LoadVisited(_) => 5,
            DestroyVisit::FreeVisited(_, _) => 6,
            DestroyVisit::AcquireReadyForVisited(_, _) => 3,
            DestroyVisit::ReleaseVisitedLock(_) => 1,
        },
        DestroyLocation::Pushing(at, _, queue, _) => left_while_pushing(*at, entries(queue)),
        DestroyLocation::Returned(left) => left_of_returned(left),
    }
}

// With so many entries in hand.
fn left_in_queue(at: DestroyVictim, entries: u32) -> u32
    requires { entries ≤ 64 }
    ensures { (h : Hand) → in_queue h ≡ entries → left_thread h (Victim at) ≡ result }
{
    let all = 4 * entries;
    match at {
        DestroyVictim::LoadVictim => all + 3,
        DestroyVictim::CommitKill(_) => all + 4,
        DestroyVictim::LoadSender(_) => all + 1,
        DestroyVictim::FreeSender(_, _) => all + 2,
        DestroyVictim::AcquireReadyForSender(_, _) => all.saturating_sub(1),
        DestroyVictim::ReleaseVictimLock | DestroyVictim::ReleaseVictimLockAbsent(_) => 1,
    }
}

fn left_while_pushing(at: DestroyPushing, entries: u32) -> u32
    requires { entries ≤ 64 }
    ensures { (h : Hand) → in_queue h ≡ entries → left_thread h (Pushing at) ≡ result }
{
    match at {
        DestroyPushing::PushSender(_, _) => (4 * entries).saturating_sub(2),
        DestroyPushing::PushVisited(_, _) => 2,
    }
}

fn left_of_returned(left: &DestroyReturned) -> u32
    ensures { result ≡ left_thread (returned_hand left.now) (returned_at left.now) }
{
    match left {
        DestroyReturned::Numbers(_) | DestroyReturned::Unlisted(_) => 0,
        DestroyReturned::VictimLock(_)
        | DestroyReturned::VictimLockAbsent(_, _)
        | DestroyReturned::VisitedLock(_, _) => 1,
        DestroyReturned::Pushed(at, _, queue) => left_while_pushing(*at, entries(queue)),
    }
}
