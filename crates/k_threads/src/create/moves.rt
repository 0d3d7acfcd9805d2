// The ways on of a create.
ghost use Rattle.std.specs.Prelude.{if◌then◌else◌, ◌≡◌};
ghost use Rattle.k_ids.specs.declared.state_word.StateWord.{StateWord};
ghost use Rattle.k_ids.specs.StateWords.{IsStateSpelling, state_word_of};
ghost use Rattle.k_locks.specs.Hands.{Hand, no_lists, no_queue};
ghost use Rattle.k_locks.specs.Numbers.{lowest_free};
ghost use Rattle.k_locks.specs.Shown.{is_dead};
ghost use Rattle.k_threads.specs.CreateTable.{IsFit, IsSoundLocation, IsSoundLocked, Locked, Outside, at_of, choose, hand_of, released_end, resumed_location, resumed_went};

use crate::create::{CreateCall, CreateLocation, CreateLocked, CreateOutside, CreateRelease};
use crate::words::went_on;
use k_ids::{Reply, ThreadId};
use k_locks::{Answer, Goods, Numbers, Told, Went, is_dead, state_word};

impl CreateLocation {
    // How the section goes on, and where it stands then.
    pub(crate) fn resumed(self, call: CreateCall, answer: Answer) -> (Went, CreateLocation)
        requires sound { IsSoundLocation self }
        requires fit { IsFit (at_of self) answer }
        ensures location { (own : StateWord) → result.1 ≡ resumed_location call own self answer }
        ensures went { (own : StateWord) → result.0 ≡ resumed_went call own (hand_of self) (at_of self) answer }
        ensures sound { IsSoundLocation result.1 }
    {
        match answer {
            Answer::Got(goods) => (Went::On, self.got(goods)),
            Answer::Told(told) => self.told(call, told),
        }
    }

    fn got(self, goods: Goods) -> CreateLocation
        requires sound { IsSoundLocation self }
        ensures location { (call : CreateCall) (own : StateWord) → result ≡ resumed_location call own self (Answer.Got goods) }
        ensures went { (call : CreateCall) (own : StateWord) → resumed_went call own (hand_of self) (at_of self) (Answer.Got goods) ≡ Went.On }
        ensures sound { IsSoundLocation result }
    {
        match (self, goods) {
            (CreateLocation::Outside(CreateOutside::AcquireTable), Goods::Numbers(numbers)) => {
                CreateLocation::Locked(CreateLocked::LoadCaller, numbers)
            }
            (
                CreateLocation::Locked(CreateLocked::AcquireReady(id), numbers),
                Goods::Ready(lists),
            ) => { CreateLocation::PushCreated(id, numbers, lists) }
            (location, _goods) => location,
        }
    }

    fn told(self, call: CreateCall, told: Told) -> (Went, CreateLocation)
        requires sound { IsSoundLocation self }
        requires fit { IsFit (at_of self) (Answer.Told told) }
        ensures location { (own : StateWord) → result.1 ≡ resumed_location call own self (Answer.Told told) }
        ensures went { (own : StateWord) → result.0 ≡ resumed_went call own (hand_of self) (at_of self) (Answer.Told told) }
        ensures sound { IsSoundLocation result.1 }
    {
        match self {
            CreateLocation::Outside(at) => (outside_went(at, told), CreateLocation::Outside(at)),
            CreateLocation::Locked(at, numbers) => locked_told(at, numbers, told),
            CreateLocation::PushCreated(id, numbers, lists) => match told {
                Told::Released => (pushed(call), made(id, numbers)),
                told => (
                    went_on(told),
                    CreateLocation::PushCreated(id, numbers, lists),
                ),
            },
            CreateLocation::ListsReturned(id, numbers) => match told {
                Told::Released => (pushed(call), made(id, numbers)),
                told => (went_on(told), CreateLocation::ListsReturned(id, numbers)),
            },
            CreateLocation::NumbersReturned(end) => match told {
                Told::Released => ended(end),
                told => (went_on(told), CreateLocation::NumbersReturned(end)),
            },
        }
    }
}

// A section that is over stays so.
fn outside_went(at: CreateOutside, told: Told) -> Went
    ensures location { (call : CreateCall) (own : StateWord) → resumed_location call own (CreateLocation.Outside at) (Answer.Told told) ≡ CreateLocation.Outside at }
    ensures went { (call : CreateCall) (own : StateWord) (h : Hand) → result ≡ resumed_went call own h (Outside at) (Answer.Told told) }
{
    match (at, told) {
        (CreateOutside::Ended(went), Told::Loaded(_)) => went,
        (_, told) => went_on(told),
    }
}

fn locked_told(at: CreateLocked, numbers: Numbers, told: Told) -> (Went, CreateLocation)
    requires sound { IsSoundLocked at numbers }
    requires fit { IsFit (Locked at) (Answer.Told told) }
    ensures location { (call : CreateCall) (own : StateWord) → result.1 ≡ resumed_location call own (CreateLocation.Locked at numbers) (Answer.Told told) }
    ensures went { (call : CreateCall) (own : StateWord) → result.0 ≡ resumed_went call own (record { numbers = numbers; queue = no_queue; lists = no_lists }) (Locked at) (Answer.Told told) }
    ensures sound { IsSoundLocation result.1 }
{
    let at = match (at, told) {
        (CreateLocked::LoadCaller, Told::Loaded(bits)) => after_load(bits, &numbers),
        (CreateLocked::PlaceContext(id), Told::Placed) => CreateLocked::CommitCreate(id),
        (CreateLocked::CommitCreate(id), Told::Won) => CreateLocked::AcquireReady(id),
        (CreateLocked::Release(end), Told::Released) => return ended(end),
        (at, told) => return (went_on(told), CreateLocation::Locked(at, numbers)),
    };
    (Went::On, CreateLocation::Locked(at, numbers))
}

// Where the section goes on once it knows its caller's word.
fn after_load(bits: u64, numbers: &Numbers) -> CreateLocked
    requires { IsStateSpelling bits }
    ensures next { result ≡ (if is_dead (state_word_of bits) then CreateLocked.Release CreateRelease.Dead else choose numbers.now (lowest_free numbers.now)) }
    ensures sound { IsSoundLocked result numbers.now }
{
    if is_dead(&state_word(bits)) {
        return CreateLocked::Release(CreateRelease::Dead);
    }
    numbers.count();
    match numbers.lowest_free() {
        Some(number) => CreateLocked::PlaceContext(ThreadId {
            number,
            version: numbers.version(number) + 1,
        }),
        None => CreateLocked::Release(CreateRelease::Full {
            alive: numbers.alive(),
            worn: numbers.worn(),
        }),
    }
}

// The new thread was pushed.
fn pushed(call: CreateCall) -> Went
    ensures { result ≡ Went.Pushed call.priority }
{
    Went::Pushed {
        priority: call.priority,
    }
}

fn made(id: ThreadId, numbers: Numbers) -> CreateLocation
    ensures { result ≡ CreateLocation.Locked (CreateLocked.Release (CreateRelease.Made id)) numbers }
{
    CreateLocation::Locked(CreateLocked::Release(CreateRelease::Made(id)), numbers)
}

// The section is over once the table lock is released.
fn ended(end: CreateRelease) -> (Went, CreateLocation)
    ensures went { result.0 ≡ released_end end }
    ensures location { result.1 ≡ CreateLocation.Outside (CreateOutside.Ended (released_end end)) }
{
    let went = match end {
        CreateRelease::Made(id) => Went::Ends(Reply::Made { id }),
        CreateRelease::Full { alive, worn } => Went::Ends(Reply::Full { alive, worn }),
        CreateRelease::Dead => Went::CallerDead,
    };
    (went, CreateLocation::Outside(CreateOutside::Ended(went)))
}
