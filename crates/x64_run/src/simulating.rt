ghost use Rattle.std.specs.Prelude.{◌≡◌, ◌<◌, ◌≤◌, ◌+◌, ◌++◌, ◌^◌, ℕ, drop, [], ◌∷◌, ℤ, pos, List, IfOk, OnOk, OnErr};
ghost use Rattle.x64_table.specs.Kernel.{put_bytes, taken, after, run_from, start};
ghost use Rattle.x64_run.specs.Simulation.{pairs, PartlyAppended, Serves, ServesPart, Advances, AdvancesPart, end_of};

use crate::put::{Put, SimEnd};
use oxml_base::NoMemory;
use std::alloc::Global;
use x64_table::{Image, Machine, Stepped};

/// How many bytes the answer `n` to a write of `len` bytes takes.
fn taken(n: i64, len: u64) -> u64
    ensures taken { result ≡ taken n len }
    ensures most { result ≤ len }
{
    match u64::try_from(n) {
        Ok(k) if k <= len => k,
        _ => 0,
    }
}

/// Appends the `n` bytes from `at` on, in order.
fn put_bytes(
    machine: &Machine,
    channel: u8,
    at: u64,
    n: u64,
    out: &mut Vec<Put>,
) -> Result<(), NoMemory>
    requires { at + n < 2 ^ 64 }
    ensures ok { OnOk result (pairs out.new.items ≡ pairs out.old.items ++ put_bytes machine.now.segments channel at n) }
    ensures err { OnErr result (PartlyAppended out.old.items out.new.items (put_bytes machine.now.segments channel at n)) }
{
    for k in 0..n {
        let byte = machine.byte(at + k).unwrap_or(0);
        if out.push(Put { channel, byte }).is_err() {
            return Err(NoMemory);
        }
    }
    Ok(())
}

/// The kernel's answer to a write of `len` bytes: the next of the list, and past its end all bytes.
fn next_answer(answers: &[i64], used: &mut usize, len: u64) -> i64
    requires { len < 2 ^ 63 }
    ensures first { drop used.old answers.now ≡ [] → (result ≡ pos len) × (drop used.new answers.now ≡ []) }
    ensures later { (n : ℤ) (rest : List ℤ) → drop used.old answers.now ≡ n ∷ rest → (result ≡ n) × (drop used.new answers.now ≡ rest) }
{
    if *used < answers.len() {
        let n = answers[*used];
        *used += 1;
        n
    } else {
        len as i64
    }
}

/// Answers a write that is asked: the bytes that the answer takes are appended, and the machine
/// goes on.
fn serve(
    machine: &mut Machine,
    answers: &[i64],
    used: &mut usize,
    out: &mut Vec<Put>,
    channel: u8,
    at: u64,
    len: u64,
) -> Result<(), NoMemory>
    requires { at + len ≤ 2 ^ 47 }
    ensures ok { OnOk result (Serves machine.old (drop used.old answers.now) out.old.items machine.new (drop used.new answers.now) out.new.items channel at len) }
    ensures err { OnErr result (ServesPart machine.old (drop used.old answers.now) out.old.items out.new.items channel at len) }
{
    let n = next_answer(answers, used, len);
    put_bytes(machine, channel, at, taken(n, len), out)?;
    machine.answer(n);
    Ok(())
}

/// One step, with the answer where it asks; what it came to, or nothing where the run goes on.
fn advance(
    machine: &mut Machine,
    answers: &[i64],
    used: &mut usize,
    out: &mut Vec<Put>,
) -> Result<Option<SimEnd>, NoMemory>
    ensures ok { IfOk result (Advances machine.old (drop used.old answers.now) out.old.items machine.new (drop used.new answers.now) out.new.items) }
    ensures err { OnErr result (AdvancesPart machine.old (drop used.old answers.now) out.old.items out.new.items) }
{
    match machine.step() {
        Stepped::Went => Ok(None),
        Stepped::Exit(status) => Ok(Some(SimEnd::Exit(status))),
        Stepped::Fault(at) => Ok(Some(SimEnd::Fault(at))),
        Stepped::Asked { channel, at, len } => {
            if serve(machine, answers, used, out, channel, at, len).is_err() {
                return Err(NoMemory);
            }
            Ok(None)
        }
    }
}

/// At most so many steps.
fn run(
    machine: &mut Machine,
    steps: u64,
    answers: &[i64],
    out: &mut Vec<Put>,
) -> Result<SimEnd, NoMemory>
    ensures end { IfOk result (λ e. e ≡ end_of (after steps (run_from machine.old answers.now)).ending) }
    ensures bytes { OnOk result (pairs out.new.items ≡ pairs out.old.items ++ (after steps (run_from machine.old answers.now)).out) }
    ensures part { OnErr result (PartlyAppended out.old.items out.new.items (after steps (run_from machine.old answers.now)).out) }
{
    let mut used = 0;
    for _step in 0..steps {
        match advance(machine, answers, &mut used, out) {
            Ok(None) => {}
            Ok(Some(end)) => return Ok(end),
            Err(NoMemory) => return Err(NoMemory),
        }
    }
    Ok(SimEnd::More)
}

/// Runs the program of an image for at most so many steps. Its writes are answered by the numbers
/// of `answers` in order, and past their end each takes all its bytes; a write and its answer are
/// one step. Appends what is written, in order.
///
/// `Exit` and `Fault` come where the program exits or faults within these steps, and `More` where
/// it does neither. After `NoMemory` a part of what is written, from the front, was appended.
pub fn simulate(
    alloc: Global,
    image: &Image,
    steps: u64,
    answers: &[i64],
    out: &mut Vec<Put>,
) -> Result<SimEnd, NoMemory>
    ensures end { IfOk result (λ e. e ≡ end_of (after steps (start image.now answers.now)).ending) }
    ensures bytes { OnOk result (pairs out.new.items ≡ pairs out.old.items ++ (after steps (start image.now answers.now)).out) }
    ensures part { OnErr result (PartlyAppended out.old.items out.new.items (after steps (start image.now answers.now)).out) }
{
    match Machine::new(alloc, image) {
        Ok(mut machine) => run(&mut machine, steps, answers, out),
        Err(NoMemory) => Err(NoMemory),
    }
}
