// The ways on of a send.
ghost use Rattle.std.specs.Prelude.{if◌then◌else◌, ◌≡◌, false, true};
ghost use Rattle.k_ids.specs.StateWords.{IsStateWord};
ghost use Rattle.k_locks.specs.declared.steps.Answer.TheVariants as answers;
ghost use Rattle.k_locks.specs.declared.steps.Told.TheVariants.{Loaded, Lost, Released, Stored, Won};
ghost use Rattle.k_locks.specs.Asks as asks;
ghost use Rattle.k_locks.specs.Hands.{Hand};
ghost use Rattle.k_locks.specs.Steps.{is_again, is_again_told, one_more, suits};
ghost use Rattle.k_locks.specs.Threads.{IsThread};
ghost use Rattle.k_ipc.specs.declared.send.SendLocation.TheVariants as location;
ghost use Rattle.k_ipc.specs.declared.send.SendLocked.TheVariants.{AcquireReady, Release};
ghost use Rattle.k_ipc.specs.declared.send.SendOutside.TheVariants.{Ended};
ghost use Rattle.k_ipc.specs.declared.send.SendRelease.TheVariants as release;
ghost use Rattle.k_ipc.specs.Words.{alive_or_dead};
ghost use Rattle.k_ipc.specs.SendTable.{IsFit, IsSound, IsSoundAt, Locked, after_receiver, at_of, is_open, leads, location_with, moved, pushed_at, step_of, went_at};

use crate::send::steps::{passed_word, waiting_word};
use crate::send::{
    Manner, SendCall, SendLocation, SendLocked, SendOutside, SendPushing, SendRelease, SendSection,
};
use k_ids::{Reply, StateWord};
use k_locks::{
    Answer, Goods, Told, Went, found_in, is_dead, is_present_in, one_more, state_word, takes_from,
};
use k_senders::Senders;

impl SendSection {
    // The section after an answer that isn't for the same step again.
    pub(crate) fn moved(self, answer: Answer) -> SendSection
        requires open { is_open (at_of self.location) ≡ true }
        requires sound { IsSound self }
        requires suits { suits (step_of self) answer ≡ true }
        requires fit { IsFit (at_of self.location) answer }
        requires made { is_again answer ≡ false }
        ensures section { result ≡ moved self answer }
        ensures sound { IsSound result }
    {
        match answer {
            Answer::Got(goods) => self.got(goods),
            Answer::Told(told) => self.told(told),
        }
    }

    fn told(self, told: Told) -> SendSection
        requires open { is_open (at_of self.location) ≡ true }
        requires sound { IsSound self }
        requires suits { suits (step_of self) (answers.Told told) ≡ true }
        requires fit { IsFit (at_of self.location) (answers.Told told) }
        requires made { is_again_told told ≡ false }
        ensures section { result ≡ moved self (answers.Told told) }
        ensures sound { IsSound result }
    {
        match told {
            Told::Loaded(bits) => self.loaded(bits),
            Told::Stored => self.stored(),
            Told::Won => self.won(),
            Told::Lost { found } => self.lost(found),
            Told::Released => self.released(),
            Told::Owned { owner: _ }
            | Told::Placed
            | Told::Removed
            | Told::Holds { context: _ }
            | Told::Taken {
                context: _,
                carrier: _,
            } => unreachable!(),
        }
    }

    fn loaded(self, bits: u64) -> SendSection
        requires open { is_open (at_of self.location) ≡ true }
        requires sound { IsSound self }
        requires suits { suits (step_of self) (answers.Told (Loaded bits)) ≡ true }
        requires fit { IsFit (at_of self.location) (answers.Told (Loaded bits)) }
        ensures section { result ≡ moved self (answers.Told (Loaded bits)) }
        ensures sound { IsSound result }
    {
        let SendSection {
            call,
            own,
            location,
            done,
        } = self;
        let word = state_word(bits);
        match location {
            SendLocation::Outside(SendOutside::CheckCaller(reply)) => section(
                call,
                own,
                done,
                ended(alive_or_dead(word, reply)),
            ),
            SendLocation::Outside(SendOutside::LoadCaller) => section(
                call,
                own,
                done,
                ended(alive_or_dead(word, Reply::Own)),
            ),
            SendLocation::Locked(SendLocked::LoadReceiver, queue) => section(
                call,
                own,
                done,
                locked(after_receiver(call, word), queue),
            ),
            SendLocation::Locked(SendLocked::ReloadReceiver, queue) => section(
                call,
                own,
                done,
                locked(SendLocked::WakeReceiver(word), queue),
            ),
            _ => unreachable!(),
        }
    }

    fn stored(self) -> SendSection
        requires sound { IsSound self }
        requires suits { suits (step_of self) (answers.Told Stored) ≡ true }
        ensures section { result ≡ moved self (answers.Told Stored) }
        ensures sound { IsSound result }
    {
        let SendSection {
            call,
            own,
            location,
            done,
        } = self;
        match location {
            SendLocation::Locked(SendLocked::StoreMail(word), queue) => section(
                call,
                own,
                done,
                locked(SendLocked::CommitPass(word), queue),
            ),
            _ => unreachable!(),
        }
    }

    fn won(self) -> SendSection
        requires sound { IsSound self }
        requires suits { suits (step_of self) (answers.Told Won) ≡ true }
        ensures section { result ≡ moved self (answers.Told Won) }
        ensures sound { IsSound result }
    {
        let SendSection {
            call,
            own,
            location,
            done,
        } = self;
        match location {
            SendLocation::Locked(SendLocked::CommitPass(word), queue) => {
                let next = locked(SendLocked::WakeReceiver(word), queue);
                section(call, passed_word(call, own), done, next)
            }
            SendLocation::Locked(SendLocked::WakeReceiver(word), queue) => section(
                call,
                own,
                done,
                locked(after_wake(word), queue),
            ),
            SendLocation::Locked(SendLocked::CommitWait, queue) => {
                let next = locked(SendLocked::Release(SendRelease::Queued), queue);
                section(call, waiting_word(call, own), done, next)
            }
            _ => unreachable!(),
        }
    }

    fn lost(self, found: u64) -> SendSection
        requires sound { IsSound self }
        requires suits { suits (step_of self) (answers.Told (Lost found)) ≡ true }
        ensures section { result ≡ moved self (answers.Told (Lost found)) }
        ensures sound { IsSound result }
    {
        let SendSection {
            call,
            own,
            location,
            done,
        } = self;
        match location {
            SendLocation::Locked(SendLocked::WakeReceiver(_), queue) => section(
                call,
                own,
                done,
                locked(SendLocked::ReloadReceiver, queue),
            ),
            SendLocation::Locked(SendLocked::CommitPass(_) | SendLocked::CommitWait, queue) => {
                let next = locked(SendLocked::Release(SendRelease::Dead), queue);
                section(call, own, done, next)
            }
            _ => unreachable!(),
        }
    }

    fn got(self, goods: Goods) -> SendSection
        requires sound { IsSound self }
        requires suits { suits (step_of self) (answers.Got goods) ≡ true }
        ensures section { result ≡ moved self (answers.Got goods) }
        ensures sound { IsSound result }
    {
        let SendSection {
            call,
            own,
            location,
            done,
        } = self;
        match (location, goods) {
            (SendLocation::Outside(SendOutside::AcquireReceiver), Goods::Senders(queue)) => section(
                call,
                own,
                done,
                locked(SendLocked::LoadReceiver, queue),
            ),
            (
                SendLocation::Locked(SendLocked::AcquireReady(priority), queue),
                Goods::Ready(lists),
            ) => {
                let at = SendPushing::PushReceiver(priority);
                section(call, own, done, SendLocation::Pushing(at, queue, lists))
            }
            _ => unreachable!(),
        }
    }

    fn released(self) -> SendSection
        requires sound { IsSound self }
        requires suits { suits (step_of self) (answers.Told Released) ≡ true }
        ensures section { result ≡ moved self (answers.Told Released) }
        ensures sound { IsSound result }
    {
        let SendSection {
            call,
            own,
            location,
            done,
        } = self;
        match location {
            SendLocation::Pushing(SendPushing::PushReceiver(_), queue, _lists) => {
                let next = locked(SendLocked::Release(SendRelease::Passed), queue);
                section(call, own, done, next)
            }
            SendLocation::ListsReturned(SendPushing::PushReceiver(_), queue) => {
                let next = locked(SendLocked::Release(SendRelease::Passed), queue);
                section(call, own, done, next)
            }
            SendLocation::Locked(SendLocked::Release(end), _queue) => section(
                call,
                own,
                done,
                after_release(call, end),
            ),
            SendLocation::QueueReturned(end) => section(call, own, done, after_release(call, end)),
            _ => unreachable!(),
        }
    }
}

// A section that has made one step more, at another location.
fn section(call: SendCall, own: StateWord, done: u32, location: SendLocation) -> SendSection
    ensures { result ≡ record { call = call; own = own; location = location; done = one_more done } }
{
    SendSection {
        call,
        own,
        location,
        done: one_more(done),
    }
}

fn locked(at: SendLocked, queue: Senders) -> SendLocation
    ensures { result ≡ location.Locked at queue }
{
    SendLocation::Locked(at, queue)
}

fn ended(went: Went) -> SendLocation
    ensures { result ≡ location.Outside (Ended went) }
{
    SendLocation::Outside(SendOutside::Ended(went))
}

/// The call ends with this reply, unless the caller's word shows that it was destroyed.
pub(crate) fn alive_or_dead(word: StateWord, reply: Reply) -> Went
    ensures { result ≡ alive_or_dead word reply }
{
    if is_dead(&word) {
        Went::CallerDead
    } else {
        Went::Ends(reply)
    }
}

// The receiver's word tells whether the message passes, is refused, or waits.
fn after_receiver(call: SendCall, word: StateWord) -> SendLocked
    requires { IsStateWord word }
    ensures next { result ≡ after_receiver call word }
    ensures sound { IsSoundAt (Locked result) }
{
    let found = found_in(call.to.number, &word);
    if !is_present_in(&word, call.to) {
        return SendLocked::Release(SendRelease::Refused(Reply::Absent { found }));
    }
    if takes_from(&word, call.caller, call.zero) {
        return SendLocked::StoreMail(word);
    }
    if call.zero {
        SendLocked::Release(SendRelease::Refused(Reply::Busy { found }))
    } else {
        SendLocked::CommitWait
    }
}

// A receiver that was off has to be put into a ready list.
fn after_wake(word: StateWord) -> SendLocked
    requires { IsThread word }
    ensures next { result ≡ (if word.on then Release release.Passed else AcquireReady word.priority) }
    ensures sound { IsSoundAt (Locked result) }
{
    if word.on {
        SendLocked::Release(SendRelease::Passed)
    } else {
        SendLocked::AcquireReady(word.priority)
    }
}

fn after_release(call: SendCall, end: SendRelease) -> SendLocation
    ensures next { (h : Hand) → result ≡ location_with h (leads call h (Locked (Release end)) asks.Released) }
    ensures sound { IsSoundAt (at_of result) }
{
    match end {
        SendRelease::Passed => ended(match call.manner {
            Manner::Plain => Went::Ends(Reply::Sent),
            Manner::Joined => Went::Waits,
            Manner::Reply => Went::Picks,
        }),
        SendRelease::Dead => ended(Went::CallerDead),
        SendRelease::Refused(reply) => SendLocation::Outside(SendOutside::CheckCaller(reply)),
        SendRelease::Queued => ended(Went::Waits),
    }
}

impl SendLocation {
    // The priority of the thread that the step of the location puts into the ready lists.
    pub(crate) fn pushed(&self) -> Option<u8>
        ensures { result ≡ pushed_at (at_of self.now) }
    {
        match self {
            SendLocation::Pushing(SendPushing::PushReceiver(priority), _, _)
            | SendLocation::ListsReturned(SendPushing::PushReceiver(priority), _) => Some(
                *priority,
            ),
            _ => None,
        }
    }

    // How the section goes on at this location, after a step that pushed or not.
    pub(crate) fn went(&self, pushed: Option<u8>) -> Went
        ensures { result ≡ went_at pushed (at_of self.now) }
    {
        match (pushed, self) {
            (Some(priority), _) => Went::Pushed { priority },
            (None, SendLocation::Outside(SendOutside::Ended(went))) => *went,
            (None, _) => Went::On,
        }
    }
}
