ghost use Rattle.std.specs.Prelude.{◌≡◌, ◌≤◌, length, IfOk, MatchResult, string_bytes};
ghost use Rattle.jp_outside.specs.Bytes.{AppendsFront};
ghost use Rattle.jvm_step.specs.Run.{WriteCause};
ghost use Rattle.jpred_cli.specs.Built.{class_of};
ghost use Rattle.jp_lexical.specs.Words.{IsName};
ghost use Rattle.cli_text.specs.Lines.{class_file_name};
ghost use Rattle.jpred_cli.specs.Outcome.{Did, outside};
ghost use Rattle.jpred_cli.specs.Steps.{UnitRead, ClassPut, ClassRan, Printed, printed};

use crate::class_builder::class_with_prints;
use class_form::ClassFile;
use class_writer::write_class;
use cli_text::{Ending, read_program};
use jp_outside::{Sink, Source, Store, StoreErr};
use jp_pred::Name;
use jvm_load::load;
use jvm_step::End;
use mini_jvm::run;
use std::alloc::{AllocError, Global};

/// How many instructions a run may take.
const STEPS: u64 = 1_000_000_000;

/// Reads the unit, builds its class file, puts it into the store and runs it.
pub(crate) fn go<S: Store, I: Source, O: Sink>(
    alloc: Global,
    main: &str,
    unit: &str,
    store: &mut S,
    input: &mut I,
    out: &mut O,
) -> Ending
    requires { IsName main.now }
    ensures did { Did main.now unit.now
        (outside (S.files store.old) (S.faults store.old) (O.taken out.old) (O.faults out.old))
        (outside (S.files store.new) (S.faults store.new) (O.taken out.new) (O.faults out.new)) result }
    ensures input { I.left input.new ≡ I.left input.old }
    ensures input_faults { I.faults input.new ≡ I.faults input.old }
{
    let numbers = match read_unit(alloc, main, unit, store) {
        Ok(numbers) => numbers,
        Err(ending) => return ending,
    };
    let file = match put_class(alloc, main, &numbers, store) {
        Ok(file) => file,
        Err(ending) => return ending,
    };
    run_class(alloc, file, main, &numbers, input, out)
}

/// The numbers of the unit's program.
fn read_unit<S: Store>(
    alloc: Global,
    main: &str,
    unit: &str,
    store: &mut S,
) -> Result<Vec<i32>, Ending>
    ensures { UnitRead main.now unit.now (S.files store.old) (S.files store.new) (S.faults store.old) (S.faults store.new) result }
{
    let text = match store.get(alloc, unit) {
        Ok(Some(text)) => text,
        Ok(None) => return Err(Ending::Missing),
        Err(StoreErr::Failed) => return Err(Ending::UnitFault),
        Err(StoreErr::OutOfMemory) => return Err(Ending::OutOfMemory),
    };
    read_program(alloc, main, text.as_slice())
}

/// Builds the class file of the numbers' program and puts it into the store.
fn put_class<S: Store>(
    alloc: Global,
    main: &str,
    numbers: &[i32],
    store: &mut S,
) -> Result<ClassFile, Ending>
    requires name { IsName main.now }
    requires few { length numbers.now ≤ 200 }
    ensures { ClassPut main.now numbers.now (S.files store.old) (S.files store.new) (S.faults store.old) (S.faults store.new) result }
{
    let file = class_with_prints(alloc, main.as_bytes(), numbers)?;
    let bytes = write_class(alloc, &file)?;
    let name = class_file(alloc, main)?;
    match store.put(alloc, name.as_str(), bytes.as_slice()) {
        Ok(()) => Ok(file),
        Err(StoreErr::Failed) => Err(Ending::ClassFault),
        Err(StoreErr::OutOfMemory) => Err(Ending::OutOfMemory),
    }
}

/// The name of the file that a class is kept in.
fn class_file(alloc: Global, class: &str) -> Result<String, AllocError>
    ensures { IfOk result (λ name. string_bytes name ≡ class_file_name class.now) }
{
    let mut name = String::from_str(alloc, class)?;
    name.push_str(".class")?;
    Ok(name)
}

/// Runs the class file of the numbers' program.
fn run_class<I: Source, O: Sink>(
    alloc: Global,
    file: ClassFile,
    main: &str,
    numbers: &[i32],
    input: &mut I,
    out: &mut O,
) -> Ending
    requires class { file ≡ class_of main.now numbers.now }
    requires few { length numbers.now ≤ 200 }
    ensures ran { ClassRan numbers.now (O.taken out.old) (O.taken out.new) (O.faults out.old) (O.faults out.new) result }
    ensures input { I.left input.new ≡ I.left input.old }
    ensures input_faults { I.faults input.new ≡ I.faults input.old }
{
    match run_prints(alloc, file, main, numbers, input, out) {
        Ok(End::WriteFault) => Ending::OutputFault,
        Ok(_) => Ending::Done,
        Err(AllocError) => Ending::OutOfMemory,
    }
}

fn run_prints<I: Source, O: Sink>(
    alloc: Global,
    file: ClassFile,
    main: &str,
    numbers: &[i32],
    input: &mut I,
    out: &mut O,
) -> Result<End, AllocError>
    requires class { file ≡ class_of main.now numbers.now }
    requires few { length numbers.now ≤ 200 }
    ensures ran { IfOk result (λ end. Printed numbers.now end (O.taken out.old) (O.taken out.new)) }
    ensures front { AppendsFront (O.taken out.old) (O.taken out.new) (printed numbers.now) }
    ensures fault { MatchResult result (λ end. WriteCause end (O.faults out.old) (O.faults out.new)) (λ _. O.faults out.new ≡ O.faults out.old) }
    ensures input { I.left input.new ≡ I.left input.old }
    ensures input_faults { I.faults input.new ≡ I.faults input.old }
{
    let _ = numbers;
    let name = Name::from_bytes(alloc, main.as_bytes())?;
    let files = [file];
    let program = load(alloc, &files)?;
    run(alloc, &program, &name, STEPS, input, out)
}
