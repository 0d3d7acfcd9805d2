// The ways on of a receive.
ghost use Rattle.std.specs.Prelude.{◌≡◌, false, true};
ghost use Rattle.k_ids.specs.StateWords.{IsStateSpelling, IsStateWord};
ghost use Rattle.k_senders.specs.Entries.{number_of};
ghost use Rattle.k_senders.specs.Queue.{Queue};
ghost use Rattle.k_locks.specs.declared.steps.Answer.TheVariants as answers;
ghost use Rattle.k_locks.specs.declared.steps.Told.TheVariants.{Loaded, Lost, Released, Won};
ghost use Rattle.k_locks.specs.Asks as asks;
ghost use Rattle.k_locks.specs.Hands.{nothing};
ghost use Rattle.k_locks.specs.Steps.{is_again, is_again_told, one_more, suits};
ghost use Rattle.k_locks.specs.Threads.{IsThread};
ghost use Rattle.k_ipc.specs.Candidates.{first_admitted, past};
ghost use Rattle.k_ipc.specs.declared.receive.ReceiveCall.{ReceiveCall};
ghost use Rattle.k_ipc.specs.declared.receive.ReceiveLocation.TheVariants as location;
ghost use Rattle.k_ipc.specs.declared.receive.ReceiveOutside.TheVariants.{Ended};
ghost use Rattle.k_ipc.specs.ReceiveTable.{IsCandidate, IsFit, IsSound, IsSoundLocked, Locked, after_free, at_of, first_locked, is_open, leads, moved, none_left, picking_by, pushed_at, released_end, step_of, still_waits, try_next, try_sender, went_at};

use crate::candidates::{first_candidate, next_candidate};
use crate::receive::steps::{is_joined_to, is_pushed, own_after};
use crate::receive::{
    ReceiveCall, ReceiveLocation, ReceiveLocked, ReceiveOutside, ReceivePushing, ReceiveRelease,
    ReceiveSection,
};
use crate::send::alive_or_dead;
use k_ids::{Reply, State, StateWord};
use k_locks::{Answer, Goods, Told, Went, is_dead, is_present_in, is_same, one_more, state_word};
use k_senders::{SenderEntry, Senders};

impl ReceiveSection {
    // The section after an answer that isn't for the same step again.
    pub(crate) fn moved(self, answer: Answer) -> ReceiveSection
        requires open { is_open (at_of self.location) ≡ true }
        requires sound { IsSound self }
        requires suits { suits (step_of self) answer ≡ true }
        requires fit { IsFit (at_of self.location) answer }
        requires made { is_again answer ≡ false }
        ensures section { result ≡ moved self answer }
        ensures sound { IsSound result }
    {
        match answer {
            Answer::Got(goods) => self.got(goods),
            Answer::Told(told) => self.told(told),
        }
    }

    fn told(self, told: Told) -> ReceiveSection
        requires open { is_open (at_of self.location) ≡ true }
        requires sound { IsSound self }
        requires suits { suits (step_of self) (answers.Told told) ≡ true }
        requires fit { IsFit (at_of self.location) (answers.Told told) }
        requires made { is_again_told told ≡ false }
        ensures section { result ≡ moved self (answers.Told told) }
        ensures sound { IsSound result }
    {
        match told {
            Told::Loaded(bits) => self.loaded(bits),
            Told::Won => self.won(),
            Told::Lost { found } => self.lost(found),
            Told::Released => self.released(),
            Told::Stored
            | Told::Owned { owner: _ }
            | Told::Placed
            | Told::Removed
            | Told::Holds { context: _ }
            | Told::Taken {
                context: _,
                carrier: _,
            } => unreachable!(),
        }
    }

    fn loaded(self, bits: u64) -> ReceiveSection
        requires open { is_open (at_of self.location) ≡ true }
        requires sound { IsSound self }
        requires suits { suits (step_of self) (answers.Told (Loaded bits)) ≡ true }
        requires spelled { IsStateSpelling bits }
        ensures section { result ≡ moved self (answers.Told (Loaded bits)) }
        ensures sound { IsSound result }
    {
        let ReceiveSection {
            call,
            own,
            location,
            done,
        } = self;
        let word = state_word(bits);
        match location {
            ReceiveLocation::Outside(ReceiveOutside::LoadCaller) => section(
                call,
                own,
                done,
                ended(alive_or_dead(word, Reply::Own)),
            ),
            ReceiveLocation::Locked(at, queue) => {
                let next = after_load(call, at, word, &queue);
                section(call, own, done, locked(next, queue))
            }
            ReceiveLocation::Pushing(ReceivePushing::LoadFreed(entry), queue, lists) => {
                let at = ReceivePushing::PushFreed(entry, word);
                section(call, own, done, ReceiveLocation::Pushing(at, queue, lists))
            }
            _ => unreachable!(),
        }
    }

    #[tactic(auto, using(crate::proofs::ReceiveLaws::won_keeps))]
    fn won(self) -> ReceiveSection
        requires sound { IsSound self }
        requires suits { suits (step_of self) (answers.Told Won) ≡ true }
        ensures section { result ≡ moved self (answers.Told Won) }
        ensures sound { IsSound result }
    {
        let ReceiveSection {
            call,
            own,
            location,
            done,
        } = self;
        match location {
            ReceiveLocation::Locked(at, queue) => {
                let next = after_exchange(call, at);
                section(call, own_after(call, own, at), done, locked(next, queue))
            }
            _ => unreachable!(),
        }
    }

    fn lost(self, found: u64) -> ReceiveSection
        requires sound { IsSound self }
        requires suits { suits (step_of self) (answers.Told (Lost found)) ≡ true }
        ensures section { result ≡ moved self (answers.Told (Lost found)) }
        ensures sound { IsSound result }
    {
        let ReceiveSection {
            call,
            own,
            location,
            done,
        } = self;
        match location {
            ReceiveLocation::Locked(ReceiveLocked::FreeSender(entry, _), queue) => section(
                call,
                own,
                done,
                locked(ReceiveLocked::LoadSender(entry), queue),
            ),
            ReceiveLocation::Locked(ReceiveLocked::FreeNext(entry, _), queue) => section(
                call,
                own,
                done,
                locked(ReceiveLocked::LoadNext(entry), queue),
            ),
            ReceiveLocation::Locked(at, queue) => section(call, own, done, locked(at, queue)),
            _ => unreachable!(),
        }
    }

    fn got(self, goods: Goods) -> ReceiveSection
        requires sound { IsSound self }
        requires suits { suits (step_of self) (answers.Got goods) ≡ true }
        ensures section { result ≡ moved self (answers.Got goods) }
        ensures sound { IsSound result }
    {
        let ReceiveSection {
            call,
            own,
            location,
            done,
        } = self;
        match (location, goods) {
            (ReceiveLocation::Outside(ReceiveOutside::AcquireOwn), Goods::Senders(queue)) =>
                section(call, own, done, locked(first_locked(call), queue)),
            (
                ReceiveLocation::Locked(ReceiveLocked::AcquireReady(entry), queue),
                Goods::Ready(lists),
            ) => {
                let at = ReceivePushing::LoadFreed(entry);
                section(call, own, done, ReceiveLocation::Pushing(at, queue, lists))
            }
            _ => unreachable!(),
        }
    }

    fn released(self) -> ReceiveSection
        requires sound { IsSound self }
        requires suits { suits (step_of self) (answers.Told Released) ≡ true }
        ensures section { result ≡ moved self (answers.Told Released) }
        ensures sound { IsSound result }
    {
        let ReceiveSection {
            call,
            own,
            location,
            done,
        } = self;
        match location {
            ReceiveLocation::Pushing(ReceivePushing::PushFreed(entry, _), queue, _lists) => {
                let next = locked(ReceiveLocked::Release(ReceiveRelease::Taken(entry)), queue);
                section(call, own, done, next)
            }
            ReceiveLocation::ListsReturned(entry, _, queue) => {
                let next = locked(ReceiveLocked::Release(ReceiveRelease::Taken(entry)), queue);
                section(call, own, done, next)
            }
            ReceiveLocation::Locked(ReceiveLocked::Release(end), _queue) => section(
                call,
                own,
                done,
                ended(released_end(end)),
            ),
            ReceiveLocation::QueueReturned(end) => section(
                call,
                own,
                done,
                ended(released_end(end)),
            ),
            _ => unreachable!(),
        }
    }
}

// A section that has made one step more, at another location.
fn section(
    call: ReceiveCall,
    own: StateWord,
    done: u32,
    location: ReceiveLocation,
) -> ReceiveSection
    ensures { result ≡ record { call = call; own = own; location = location; done = one_more done } }
{
    ReceiveSection {
        call,
        own,
        location,
        done: one_more(done),
    }
}

fn locked(at: ReceiveLocked, queue: Senders) -> ReceiveLocation
    ensures { result ≡ location.Locked at queue }
{
    ReceiveLocation::Locked(at, queue)
}

fn ended(went: Went) -> ReceiveLocation
    ensures { result ≡ location.Outside (Ended went) }
{
    ReceiveLocation::Outside(ReceiveOutside::Ended(went))
}

fn first_locked(call: ReceiveCall) -> ReceiveLocked
    ensures { result ≡ first_locked call }
{
    if call.picks {
        ReceiveLocked::LoadPicking
    } else {
        ReceiveLocked::LoadOwn
    }
}

// Where a load under the caller's lock leads.
fn after_load(
    call: ReceiveCall,
    at: ReceiveLocked,
    word: StateWord,
    queue: &Senders,
) -> ReceiveLocked
    requires word { IsStateWord word }
    requires sound { IsSoundLocked call at queue.now }
    ensures next { Locked result ≡ leads call (record nothing { queue = queue.now }) (Locked at) (asks.Word word) }
    ensures sound { IsSoundLocked call result queue.now }
{
    match at {
        ReceiveLocked::LoadOwn => if is_dead(&word) {
            ReceiveLocked::Release(ReceiveRelease::Dead)
        } else {
            try_first(call, queue)
        },
        ReceiveLocked::LoadSender(entry) => if still_waits(call, entry, &word) {
            ReceiveLocked::FreeSender(entry, word)
        } else {
            try_after(call, entry, queue)
        },
        ReceiveLocked::LoadPartner(from) => if is_present_in(&word, from) {
            ReceiveLocked::Release(ReceiveRelease::Waits)
        } else {
            ReceiveLocked::CommitGone(from)
        },
        ReceiveLocked::LoadPicking => after_picking(call, word.state, queue),
        ReceiveLocked::LoadNext(entry) => if still_waits(call, entry, &word) {
            ReceiveLocked::FreeNext(entry, word)
        } else {
            pick_after(call, entry, queue)
        },
        ReceiveLocked::FreeSender(_, _)
        | ReceiveLocked::AcquireReady(_)
        | ReceiveLocked::CommitWait
        | ReceiveLocked::CommitGone(_)
        | ReceiveLocked::FreeNext(_, _)
        | ReceiveLocked::EndPick(_, _)
        | ReceiveLocked::SettlePick
        | ReceiveLocked::Release(_) => at,
    }
}

// The first candidate of the queue is tried.
fn try_first(call: ReceiveCall, queue: &Senders) -> ReceiveLocked
    ensures next { result ≡ try_sender call (first_admitted call.from queue.now.entries) }
    ensures sound { IsSoundLocked call result queue.now }
{
    match first_candidate(queue, call.from) {
        Some(entry) => ReceiveLocked::LoadSender(entry),
        None => none_left(call),
    }
}

// The next candidate after an entry is tried.
fn try_after(call: ReceiveCall, entry: SenderEntry, queue: &Senders) -> ReceiveLocked
    requires { IsCandidate call queue.now entry }
    ensures next { result ≡ try_sender call (first_admitted call.from (past (number_of entry) queue.now.entries)) }
    ensures sound { IsSoundLocked call result queue.now }
{
    match next_candidate(queue, call.from, entry) {
        Some(entry) => ReceiveLocked::LoadSender(entry),
        None => none_left(call),
    }
}

// Without a candidate the receive finds nobody, or begins to wait.
fn none_left(call: ReceiveCall) -> ReceiveLocked
    ensures next { result ≡ none_left call }
    ensures sound { (queue : Queue) → IsSoundLocked call result queue }
{
    if call.zero {
        ReceiveLocked::Release(ReceiveRelease::Nobody)
    } else {
        ReceiveLocked::CommitWait
    }
}

// A caller that picks still picks, or a message was delivered to it, or it was destroyed.
fn after_picking(call: ReceiveCall, state: State, queue: &Senders) -> ReceiveLocked
    ensures next { result ≡ picking_by (first_admitted call.from queue.now.entries) state }
    ensures sound { IsSoundLocked call result queue.now }
{
    match state {
        State::Dead => ReceiveLocked::Release(ReceiveRelease::Dead),
        State::Picking => match first_candidate(queue, call.from) {
            Some(entry) => ReceiveLocked::LoadNext(entry),
            None => ReceiveLocked::SettlePick,
        },
        State::Run { result: _ }
        | State::Sending { to: _, joined: _ }
        | State::Receiving { from: _ }
        | State::Ended => ReceiveLocked::Release(ReceiveRelease::Delivered),
    }
}

// The next candidate after an entry is tried by a pick.
fn pick_after(call: ReceiveCall, entry: SenderEntry, queue: &Senders) -> ReceiveLocked
    requires { IsCandidate call queue.now entry }
    ensures next { result ≡ try_next (first_admitted call.from (past (number_of entry) queue.now.entries)) }
    ensures sound { IsSoundLocked call result queue.now }
{
    match next_candidate(queue, call.from, entry) {
        Some(entry) => ReceiveLocked::LoadNext(entry),
        None => ReceiveLocked::SettlePick,
    }
}

/// Whether the candidate's sender still waits: it sends to the caller, in the version of its entry.
pub(crate) fn still_waits(call: ReceiveCall, entry: SenderEntry, word: &StateWord) -> bool
    requires { IsStateWord word.now }
    ensures waits { result ≡ still_waits call entry word.now }
    ensures thread { result ≡ true → IsThread word.now }
{
    let sends = match word.state {
        State::Sending { to, joined: _ } => is_same(to, call.caller),
        State::Dead
        | State::Run { result: _ }
        | State::Receiving { from: _ }
        | State::Picking
        | State::Ended => false,
    };
    word.version == entry.sender().version && sends
}

// Where an exchange that is won leads.
fn after_exchange(call: ReceiveCall, at: ReceiveLocked) -> ReceiveLocked
    ensures next { (queue : Queue) → Locked result ≡ leads call (record nothing { queue = queue }) (Locked at) asks.Won }
    ensures sound { (queue : Queue) → IsSoundLocked call at queue → IsSoundLocked call result queue }
{
    match at {
        ReceiveLocked::FreeSender(entry, word) | ReceiveLocked::EndPick(entry, word) => after_free(
            entry, word,
        ),
        ReceiveLocked::CommitWait => match call.from {
            None => ReceiveLocked::Release(ReceiveRelease::Waits),
            Some(from) => ReceiveLocked::LoadPartner(from),
        },
        ReceiveLocked::CommitGone(_) => ReceiveLocked::Release(ReceiveRelease::Gone),
        ReceiveLocked::FreeNext(entry, word) => ReceiveLocked::EndPick(entry, word),
        ReceiveLocked::SettlePick => ReceiveLocked::Release(ReceiveRelease::Waits),
        ReceiveLocked::LoadOwn
        | ReceiveLocked::LoadSender(_)
        | ReceiveLocked::AcquireReady(_)
        | ReceiveLocked::LoadPartner(_)
        | ReceiveLocked::LoadPicking
        | ReceiveLocked::LoadNext(_)
        | ReceiveLocked::Release(_) => at,
    }
}

// A sender whose send was joined waits on; one that was on is in a list already, or its carrier's.
fn after_free(entry: SenderEntry, word: StateWord) -> ReceiveLocked
    ensures next { result ≡ after_free entry word }
    ensures sound { (call : ReceiveCall) (queue : Queue) → IsCandidate call queue entry → IsSoundLocked call result queue }
{
    if is_joined_to(word.state) || word.on {
        ReceiveLocked::Release(ReceiveRelease::Taken(entry))
    } else {
        ReceiveLocked::AcquireReady(entry)
    }
}

fn released_end(end: ReceiveRelease) -> Went
    ensures { result ≡ released_end end }
{
    match end {
        ReceiveRelease::Taken(entry) => Went::Ends(Reply::Got {
            from: entry.sender(),
            message: entry.message(),
        }),
        ReceiveRelease::Waits | ReceiveRelease::Delivered => Went::Waits,
        ReceiveRelease::Gone => Went::Ends(Reply::Gone),
        ReceiveRelease::Nobody => Went::Ends(Reply::Nobody),
        ReceiveRelease::Dead => Went::CallerDead,
    }
}

impl ReceiveLocation {
    // The priority of the thread that the step of the location puts into the ready lists.
    pub(crate) fn pushed(&self) -> Option<u8>
        ensures { result ≡ pushed_at (at_of self.now) }
    {
        match self {
            ReceiveLocation::Pushing(ReceivePushing::PushFreed(entry, word), _, _)
            | ReceiveLocation::ListsReturned(entry, word, _) => if is_pushed(*entry, *word) {
                Some(word.priority)
            } else {
                None
            },
            _ => None,
        }
    }

    // How the section goes on at this location, after a step that pushed or not.
    pub(crate) fn went(&self, pushed: Option<u8>) -> Went
        ensures { result ≡ went_at pushed (at_of self.now) }
    {
        match (pushed, self) {
            (Some(priority), _) => Went::Pushed { priority },
            (None, ReceiveLocation::Outside(ReceiveOutside::Ended(went))) => *went,
            (None, _) => Went::On,
        }
    }
}
