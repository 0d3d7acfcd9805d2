// Reading a source.
ghost use Rattle.std.specs.Prelude.{◌≡◌, ◌≢◌, ◌≤◌, ◌<◌, length, IfOk, Err, MatchResult};
ghost use Rattle.k_outside.specs.Outside.{Rose};
ghost use Rattle.k_input.specs.Taken.{IsAll, IsPartTaken, IsTooMuch};
ghost use Rattle.k_input.specs.Division.{script_part, IsInputLarge, IsInputTooLarge};

use crate::divider::{Divider, MOST_SCRIPT};
use crate::fault::InputFault;
use crate::parts::divide;
use k_outside::Source;
use std::alloc::Global;

const BUFFER: usize = 4096;

/// Reads all bytes that the source has left, or one more than a script may have. Where it fails, or there is no memory, some
/// of them were taken. A source that failed isn't asked again.
pub fn read_all<S: Source>(alloc: Global, source: &mut S) -> Result<Vec<u8>, InputFault>
    ensures all { IfOk result (λ bytes. IsAll (S.left source.old) (S.left source.new) bytes.items) }
    ensures small { IfOk result (λ bytes. length bytes.items ≤ 1048576) }
    ensures too_large { result ≡ Err InputFault.TooLarge → IsTooMuch (S.left source.old) (S.left source.new) }
    ensures cause { result ≡ Err InputFault.Source → Rose (S.faults source.old) (S.faults source.new) }
    ensures calm { result ≢ Err InputFault.Source → S.faults source.new ≡ S.faults source.old }
    ensures part { IsPartTaken 1048577 (S.left source.old) (S.left source.new) }
    ensures later { S.faults source.old ≤ S.faults source.new }
{
    let mut bytes = Vec::new(alloc);
    let mut buffer = [0u8; BUFFER];
    while bytes.len() <= MOST_SCRIPT {
        let room = BUFFER.min(MOST_SCRIPT + 1 - bytes.len());
        match source.take(&mut buffer[..room]) {
            Ok(0) => return Ok(bytes),
            Err(_) => return Err(InputFault::Source),
            Ok(count) => {
                if bytes.extend_from_slice(&buffer[..count]).is_err() {
                    return Err(InputFault::NoMemory);
                }
            }
        }
    }
    Err(InputFault::TooLarge)
}

/// The bytes of an input of `check`, read to its end: a script, a line that is `--`, and the lines of a history. It stops at
/// the first byte with which the script surely has more than 1,048,576 bytes, or the whole more than 135,266,304. A last
/// line that may still become `--` is no script yet. Where the source fails, or there is no memory, some bytes were taken.
/// A source that failed isn't asked again.
pub fn read_divided<S: Source>(alloc: Global, source: &mut S) -> Result<Vec<u8>, InputFault>
    ensures all { IfOk result (λ bytes. IsAll (S.left source.old) (S.left source.new) bytes.items) }
    ensures small { IfOk result (λ bytes. ¬ IsInputLarge bytes.items) }
    ensures too_large { result ≡ Err InputFault.TooLarge → IsInputTooLarge (S.left source.old) (S.left source.new) }
    ensures cause { result ≡ Err InputFault.Source → Rose (S.faults source.old) (S.faults source.new) }
    ensures calm { result ≢ Err InputFault.Source → S.faults source.new ≡ S.faults source.old }
    ensures part { IsPartTaken 135266305 (S.left source.old) (S.left source.new) }
    ensures later { S.faults source.old ≤ S.faults source.new }
{
    let mut bytes = Vec::new(alloc);
    let mut buffer = [0u8; BUFFER];
    let mut divider = Divider::new();
    while !divider.is_large() {
        let room = BUFFER.min(divider.room());
        match source.take(&mut buffer[..room]) {
            Ok(0) => return within(bytes),
            Err(_) => return Err(InputFault::Source),
            Ok(count) => {
                divider = divider.feed_all(&buffer[..count]);
                if bytes.extend_from_slice(&buffer[..count]).is_err() {
                    return Err(InputFault::NoMemory);
                }
            }
        }
    }
    Err(InputFault::TooLarge)
}

/// An input that was read to its end, if its script has no more bytes than a script may have. (A line that might still have
/// divided is script then.)
fn within(bytes: Vec<u8>) -> Result<Vec<u8>, InputFault>
    ensures { MatchResult result
        (λ kept. (kept.items ≡ bytes.items) × (length (script_part bytes.items) ≤ 1048576))
        (λ fault. (fault ≡ InputFault.TooLarge) × (1048576 < length (script_part bytes.items))) }
{
    let (script, _) = divide(&bytes);
    if script.len() > MOST_SCRIPT {
        return Err(InputFault::TooLarge);
    }
    Ok(bytes)
}
