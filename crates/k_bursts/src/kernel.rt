// What a schedule uses of a kernel.
ghost use Rattle.std.specs.Prelude.{◌≡◌, ◌<◌, ℕ, OnOk};
ghost use Rattle.k_script.specs.Limits.{IsScript};
ghost use Rattle.k_script.specs.Script as scripts;
ghost use Rattle.k_script.specs.declared.lines.AtWhat.TheVariants as what;
ghost use Rattle.k_schedule.specs.Carriers.{Carriers, Facts, ScheduleLaws};
ghost use Rattle.k_bursts.specs.Playing.{IsNext};

use k_ids::NoMemory;
use k_script::Script;

/// A kernel whose carriers make steps, one after the other. Carriers are told by their numbers, from 0 to 7.
///
/// What it does is told of the world that it shows: each call makes of this world what the carriers of a schedule make of it.
pub trait Kernel {
    ghost World: { Type 0 };

    /// What carriers do to such a world, where a script runs on it.
    ghost carriers: { scripts.Script → Carriers World };

    /// What is known of such a world beside.
    ghost facts: { scripts.Script → Facts World };

    /// The world that is shown.
    ghost world: { scripts.Script → Self → World };

    /// The scripts that can run.
    ghost CanRun: { scripts.Script → Type 0 };

    /// What the kernel keeps while this script runs.
    ghost IsKept: { scripts.Script → Self → Type 0 };

    /// There is memory for one step.
    ghost HasRoom: { Self → Type 0 };

    /// Takes memory for one step more. The world is as before.
    fn reserve(&mut self) -> Result<(), NoMemory>
        ensures world { (script : scripts.Script) → world script self.new ≡ world script self.old }
        ensures kept { (script : scripts.Script) → IsKept script self.old → IsKept script self.new }
        ensures room { OnOk result (HasRoom self.new) };

    /// One atomic step of a carrier, and whether it is answered Idle. It takes no memory.
    fn step(&mut self, script: &Script, c: u8) -> bool
        requires can { CanRun script.now }
        requires kept { IsKept script.now self.old }
        requires room { HasRoom self.old }
        requires inside { c < script.now.carriers }
        ensures world { world script.now self.new ≡ (carriers script.now).step (world script.now self.old) c }
        ensures idle { result ≡ (carriers script.now).idles (world script.now self.old) c }
        ensures kept { IsKept script.now self.new };

    /// The first thread of this number is to be started, by the carrier. It is what happens next.
    fn start(&mut self, script: &Script, c: u8, number: u8)
        requires can { CanRun script.now }
        requires kept { IsKept script.now self.old }
        requires inside { c < script.now.carriers }
        requires next { IsNext (facts script.now) (world script.now self.old) (what.Start number) }
        ensures world { world script.now self.new ≡ (carriers script.now).start (world script.now self.old) c number }
        ensures kept { IsKept script.now self.new };

    /// The carrier's slice of time ends.
    fn slice(&mut self, script: &Script, c: u8)
        requires can { CanRun script.now }
        requires kept { IsKept script.now self.old }
        requires inside { c < script.now.carriers }
        ensures world { world script.now self.new ≡ (carriers script.now).slice (world script.now self.old) c }
        ensures kept { IsKept script.now self.new };

    /// The carrier is to give its hand at its next step.
    fn park(&mut self, script: &Script, c: u8)
        requires can { CanRun script.now }
        requires kept { IsKept script.now self.old }
        requires inside { c < script.now.carriers }
        ensures world { world script.now self.new ≡ (carriers script.now).park (world script.now self.old) c }
        ensures kept { IsKept script.now self.new };

    /// How many atomic steps were made.
    fn made(&self) -> u64
        ensures { (script : scripts.Script) → result ≡ (carriers script).made (world script self.now) };

    /// Whether a carrier has nothing to run, and nothing to switch to.
    fn settled(&self, script: &Script, c: u8) -> bool
        requires kept { IsKept script.now self.now }
        requires inside { c < script.now.carriers }
        ensures { result ≡ (carriers script.now).settled (world script.now self.now) c };

    /// Whether a carrier has a context in its hand.
    fn has_hand(&self, script: &Script, c: u8) -> bool
        requires kept { IsKept script.now self.now }
        requires inside { c < script.now.carriers }
        ensures { result ≡ (carriers script.now).has_hand (world script.now self.now) c };

    /// There are as many carriers as the script has.
    ghost count: { (script : scripts.Script) → (carriers script).count ≡ script.carriers };

    /// They are the carriers of a schedule, and what is known of them is so.
    ghost laws: { (script : scripts.Script) → IsScript script → CanRun script
        → ScheduleLaws World (carriers script) (facts script) };
}
