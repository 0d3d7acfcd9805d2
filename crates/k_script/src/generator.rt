// The generator of large scripts.
ghost use Rattle.std.specs.Prelude.{◌≡◌, ◌≤◌, ◌<◌, ◌+◌, ◌*◌, ◌++◌, ◌∷◌, [], ℕ, length, map, IfOk};
ghost use Rattle.std.specs.List.{range_with_len};
ghost use Rattle.k_script.specs.Big.{state_after, drawn, server, client_of, client, client_operations, client_name, client_thread, server_thread, slice_line, slice_step, big_of};

use crate::lines::{AtLine, AtWhat, ThreadLine};
use crate::listing::Listing;
use crate::name::Name;
use crate::operation::{Operation, Value, Who};
use crate::script::{Parts, Script};
use k_ids::NoMemory;
use std::alloc::{AllocError, Global};

/// A generator of numbers: a linear congruential one of 64 bits, of which a draw takes the upper 31.
#[derive(Clone, Copy)]
pub(crate) struct Generator {
    state: u64,
}

/// What a client does: the thread that it calls, its message, and how much it works between two calls.
#[derive(Clone, Copy)]
pub(crate) struct Client {
    server: u8,
    low: u32,
    high: u32,
    work: u32,
}

impl Generator {
    /// The next draw: a number below the bound. Condition: the bound is 1 to 65,535.
    fn draw(&mut self, bound: u16) -> u16
        requires { 0 < bound }
        ensures drawn { (number draws : ℕ) → self.old.state ≡ state_after number draws → result ≡ drawn number draws bound }
        ensures state { (number draws : ℕ) → self.old.state ≡ state_after number draws → self.new.state ≡ state_after number (draws + 1) }
        ensures below { result < bound }
    {
        self.state = self
            .state
            .wrapping_mul(6_364_136_223_846_793_005)
            .wrapping_add(1_442_695_040_888_963_407);
        ((self.state / 8_589_934_592) % u64::from(bound)) as u16
    }

    fn client(&mut self) -> Client
        ensures client { (number draws : ℕ) → self.old.state ≡ state_after number draws → result ≡ client_of number draws }
        ensures state { (number draws : ℕ) → self.old.state ≡ state_after number draws → self.new.state ≡ state_after number (draws + 4) }
    {
        let server = self.draw(4);
        let low = self.draw(1000);
        let high = self.draw(1000);
        let work = self.draw(16);
        Client {
            server: 8 + server as u8,
            low: u32::from(low),
            high: u32::from(high),
            work: 1 + u32::from(work),
        }
    }
}

/// A program of these operations. Conditions: the name has at most 16 bytes, and there are at most 4,096 operations.
pub(crate) fn listing(
    alloc: Global,
    name: &[u8],
    operations: &[Operation],
) -> Result<Listing, AllocError>
    requires name { length name.now ≤ 16 }
    requires operations { length operations.now ≤ 4096 }
    ensures { IfOk result (λ p. p ≡ record { name = name.now; operations = operations.now }) }
{
    let mut listing = Listing::new(alloc, Name::of(name));
    for operation in operations {
        listing.push(*operation)?;
    }
    Ok(listing)
}

fn server_listing(alloc: Global) -> Result<Listing, AllocError>
    ensures { IfOk result (λ p. p ≡ server) }
{
    let operations = [
        Operation::Receive {
            from: None,
            zero: false,
        },
        Operation::Repeat { count: 400 },
        Operation::Reply {
            low: Value::Got0,
            high: Value::Got1,
            zero: false,
        },
        Operation::Again,
    ];
    listing(alloc, b"server", &operations)
}

fn client_listing(alloc: Global, index: u8, client: Client) -> Result<Listing, AllocError>
    requires { index < 8 }
    ensures { IfOk result (λ p. p ≡ record { name = client_name index; operations = client_operations client }) }
{
    let operations = [
        Operation::Repeat { count: 100 },
        Operation::Call {
            to: Who::Number(client.server),
            low: Value::Number(client.low),
            high: Value::Number(client.high),
            zero: false,
        },
        Operation::Work { count: client.work },
        Operation::Again,
    ];
    listing(alloc, &[b'c', b'0' + index], &operations)
}

fn programs(alloc: Global, generator: &mut Generator) -> Result<Vec<Listing>, AllocError>
    ensures programs { (number : ℕ) → generator.old.state ≡ state_after number 0 → IfOk result (λ v. v.items ≡ server ∷ map (client number) (range_with_len 0 8)) }
    ensures state { (number : ℕ) → generator.old.state ≡ state_after number 0 → IfOk result (λ v. generator.new.state ≡ state_after number 32) }
{
    let mut programs = Vec::new(alloc);
    programs.push(server_listing(alloc)?)?;
    for index in 0..8u8 {
        let client = generator.client();
        programs.push(client_listing(alloc, index, client)?)?;
    }
    Ok(programs)
}

fn client_threads(alloc: Global, generator: &mut Generator) -> Result<Vec<ThreadLine>, AllocError>
    ensures threads { (number : ℕ) → generator.old.state ≡ state_after number 32 → IfOk result (λ v. v.items ≡ map (client_thread number) (range_with_len 0 8)) }
    ensures state { (number : ℕ) → generator.old.state ≡ state_after number 32 → IfOk result (λ v. generator.new.state ≡ state_after number 40) }
{
    let mut threads = Vec::new(alloc);
    for index in 0..8u8 {
        let priority = 1 + generator.draw(8) as u8;
        threads.push(ThreadLine {
            priority,
            program: index + 1,
        })?;
    }
    Ok(threads)
}

fn add_servers(threads: &mut Vec<ThreadLine>) -> Result<(), AllocError>
    ensures { IfOk result (λ x. threads.new.items ≡ threads.old.items ++ map server_thread (range_with_len 0 4)) }
{
    for index in 0..4u8 {
        threads.push(ThreadLine {
            priority: 16 + index,
            program: 0,
        })?;
    }
    Ok(())
}

fn at_lines(alloc: Global, generator: &mut Generator) -> Result<Vec<AtLine>, AllocError>
    ensures { (number : ℕ) → generator.old.state ≡ state_after number 40 → IfOk result (λ v. v.items ≡ map (slice_line number) (range_with_len 0 200)) }
{
    let mut lines = Vec::new(alloc);
    let mut step = 0u32;
    for _ in 0..200u8 {
        step += 1 + u32::from(generator.draw(256));
        lines.push(AtLine {
            step,
            what: AtWhat::Slice(0),
        })?;
    }
    Ok(lines)
}

/// A large script for each number, the same at each call: eight clients call four servers a hundred times each, while time
/// slices end.
pub fn big(alloc: Global, number: u64) -> Result<Script, NoMemory>
    ensures { IfOk result (λ script. script ≡ big_of number) }
{
    let mut generator = Generator { state: number };
    let programs = programs(alloc, &mut generator)?;
    let mut threads = client_threads(alloc, &mut generator)?;
    add_servers(&mut threads)?;
    let at_lines = at_lines(alloc, &mut generator)?;
    let aged = [0; 64];
    Ok(Script::of(Parts {
        version: 1,
        table: 16,
        carriers: 1,
        show_steps: false,
        aged,
        programs,
        threads,
        at_lines,
        turns: Vec::new(alloc),
    }))
}
