ghost use Rattle.std.specs.Prelude.{◌≡◌, ◌≤◌, ℕ, List, Some, Bool, is_some, IfOk, OnOk, OnErr, MatchResult};
ghost use Rattle.std.specs.Fmt.{signed_decimal};
ghost use Rattle.std.specs.Io.KnownBytes.{append_known};
ghost use Rattle.jp_outside.specs.Bytes.{AppendsFront};
ghost use Rattle.jp_outside.specs.Faults.{HasCause};
ghost use Rattle.jvm_step.specs.Run.{class_in, method_in, end_of, start, Tells, Ran, Stopped, ReadCause, WriteCause};
ghost use Rattle.jvm_quick.specs.Rows.{AreDecoded};
ghost use Rattle.mini_jvm.specs.Memory.{StoppedAt};
ghost use Rattle.mini_jvm.specs.Reading.{ReadsNumber};

use crate::start::start_main;
use crate::step::Step;
use crate::walk::walk_on;
use class_form::Bytes;
use itoa::Buffer;
use jp_outside::{Failed, Sink, Source, write_all};
use jp_pred::Name;
use jp_store::Value;
use jvm_link::{Linked, link};
use jvm_load::{Program, name_of, text};
use jvm_quick::{Decoded, decode};
use jvm_step::{End, Halt, State};
use std::alloc::{AllocError, Global};

/// Runs the `main` of a class for at most `limit` instructions, and answers how the run ended.
///
/// A fault of the input or of the output ends it as `ReadFault` or `WriteFault`, after which nothing is read or written.
/// The error is want of memory. Where the source doesn't tell its bytes, the answer is the run's on some input.
pub fn run<I: Source, O: Sink>(
    alloc: Global,
    program: &Program,
    main: &Name,
    limit: u64,
    input: &mut I,
    out: &mut O,
) -> Result<End, AllocError>
    requires { 1 ≤ limit }

    // The end is the machine's on the bytes that the source tells, or a fault comes on the way.
    ensures ran { IfOk result (λ end. (bytes : List ℕ) × Tells (I.left input.old) bytes
        × Ran program.now main.now limit bytes end (I.left input.new) (O.taken out.old) (O.taken out.new)) }

    // At every answer, want of memory too, what was written is a front part of what the machine writes.
    ensures stopped { (bytes : List ℕ) × Tells (I.left input.old) bytes
        × Stopped program.now main.now limit bytes (O.taken out.old) (O.taken out.new) }

    // Want of memory comes at a state of the run, or before the first.
    ensures wanting { OnErr result ((bytes : List ℕ) × Tells (I.left input.old) bytes
        × StoppedAt program.now main.now limit bytes (I.left input.new) (O.taken out.old) (O.taken out.new)) }

    // A source neither begins nor stops to tell.
    ensures tells { is_some (I.left input.new) ≡ is_some (I.left input.old) }
    ensures read_cause { MatchResult result
        (λ end. ReadCause end (I.faults input.old) (I.faults input.new))
        (λ _. I.faults input.new ≡ I.faults input.old) }
    ensures write_cause { MatchResult result
        (λ end. WriteCause end (O.faults out.old) (O.faults out.new))
        (λ _. O.faults out.new ≡ O.faults out.old) }
{
    let linked = link(alloc, program)?;
    let decoded = decode(alloc, program)?;
    match start_main(alloc, program, main.bytes())? {
        Some(state) => execute(alloc, &linked, &decoded, state, limit, input, out),
        None => Ok(End::BadCode {
            class: Bytes::from_bytes(alloc, main.bytes())?,
            method: Bytes::from_bytes(alloc, b"main")?,
            pc: 0,
        }),
    }
}

// The run from a state on.
fn execute<I: Source, O: Sink>(
    alloc: Global,
    linked: &Linked,
    decoded: &Decoded,
    mut state: State,
    limit: u64,
    input: &mut I,
    out: &mut O,
) -> Result<End, AllocError>
    requires { AreDecoded linked.now decoded.now }
    ensures ran { (main : List ℕ) → start linked.now main ≡ Some state → IfOk result (λ end. (bytes : List ℕ) × Tells (I.left input.old) bytes
        × Ran linked.now main limit bytes end (I.left input.new) (O.taken out.old) (O.taken out.new)) }
    ensures stopped { (main : List ℕ) → start linked.now main ≡ Some state → (bytes : List ℕ) × Tells (I.left input.old) bytes
        × Stopped linked.now main limit bytes (O.taken out.old) (O.taken out.new) }
    ensures wanting { (main : List ℕ) → start linked.now main ≡ Some state → OnErr result ((bytes : List ℕ) × Tells (I.left input.old) bytes
        × StoppedAt linked.now main limit bytes (I.left input.new) (O.taken out.old) (O.taken out.new)) }
    ensures tells { is_some (I.left input.new) ≡ is_some (I.left input.old) }
    ensures read_cause { MatchResult result
        (λ end. ReadCause end (I.faults input.old) (I.faults input.new))
        (λ _. I.faults input.new ≡ I.faults input.old) }
    ensures write_cause { MatchResult result
        (λ end. WriteCause end (O.faults out.old) (O.faults out.new))
        (λ _. O.faults out.new ≡ O.faults out.old) }
{
    let mut ended = false;
    let mut done: u64 = 0;
    'turns: while done < limit {
        let walk = walk_on(alloc, linked, decoded, limit - done, &mut state)?;
        done += walk.count + 1;
        match walk.step {
            Step::Move => {}
            Step::PrintInt(n) => {
                if print(out, n).is_err() {
                    return Ok(End::WriteFault);
                }
            }
            Step::PrintText(bytes) => {
                if write_all(out, bytes).is_err() {
                    return Ok(End::WriteFault);
                }
            }
            Step::Read => match read_number(input, &mut ended) {
                Ok(n) => {
                    state.current.frame.stack.push(Value::Int(n));
                }
                Err(_) => return Ok(End::ReadFault),
            },
            Step::Stop(halt) => return halted(alloc, linked.program(), halt),
        }
    }
    Ok(End::Cut)
}

// Writes a number as decimal text, or a front part of it before a fault.
fn print<O: Sink>(out: &mut O, n: i32) -> Result<(), Failed>
    ensures whole { OnOk result (O.taken out.new ≡ append_known (O.taken out.old) (signed_decimal n)) }
    ensures front { AppendsFront (O.taken out.old) (O.taken out.new) (signed_decimal n) }
    ensures cause { HasCause (O.faults out.old) (O.faults out.new) result }
{
    let mut digits = Buffer::new();
    write_all(out, digits.format(n).as_bytes())
}

// Reads a byte, or -1 at the end, behind which nothing is read.
fn read_number<I: Source>(input: &mut I, ended: &mut bool) -> Result<i32, Failed>
    ensures read { IfOk result (λ n. ReadsNumber ended.old (I.left input.old) n ended.new (I.left input.new)) }
    ensures kept { OnErr result (I.left input.new ≡ I.left input.old) }
    ensures cause { HasCause (I.faults input.old) (I.faults input.new) result }
{
    if *ended {
        return Ok(-1);
    }
    match input.read()? {
        Some(byte) => Ok(i32::from(byte)),
        None => {
            *ended = true;
            Ok(-1)
        }
    }
}

// How a run ends where the machine stops by itself.
fn halted(alloc: Global, program: &Program, halt: Halt) -> Result<End, AllocError>
    ensures { IfOk result (λ end. end ≡ end_of program.now halt) }
{
    match halt {
        Halt::Done => Ok(End::Done),
        Halt::Trapped(kind) => Ok(End::Trap(kind)),
        Halt::NoRow {
            file,
            method,
            place,
        } => Ok(End::BadCode {
            class: Bytes::from_bytes(alloc, class_name_at(program, file))?,
            method: Bytes::from_bytes(alloc, method_name_at(program, file, method))?,
            pc: place,
        }),
    }
}

// The name of a file's class, or no bytes where it has none.
fn class_name_at(program: &Program, file: u32) -> &[u8]
    ensures { result.now ≡ class_in program.now file }
{
    match program.file(file) {
        Some(file) => name_of(file),
        None => &[],
    }
}

// The name of a file's method, or no bytes where it has none.
fn method_name_at(program: &Program, file: u32, method: u32) -> &[u8]
    ensures { result.now ≡ method_in program.now file method }
{
    let Some(file) = program.file(file) else {
        return &[];
    };
    match file.methods.get(method as usize) {
        Some(method) => text(file, method.name),
        None => &[],
    }
}
