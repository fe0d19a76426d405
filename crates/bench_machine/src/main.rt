//! Runs a loop on the machine: `bench_machine LOOP CLASSES TURNS [FOLDER]`, where LOOP is `ints`, `static_calls`,
//! `virtual_calls`, `fields` or `casts`, and CLASSES is how many classes are loaded beside the three that run.
//! Standard output has what the loop prints, standard error how many microseconds loading and running took. With a
//! folder the class files are written there too.
#![tactic(auto)]

ghost use Rattle.std.specs.Prelude.{◌≡◌, ◌<◌, ◌^◌, length, All, IfOk};
ghost use Rattle.jvm_load.specs.Loadable.{IsLoadableFile};

mod classes;
mod loops;
mod opcodes;

use crate::classes::{class_counter, class_main, class_other, class_step};
use crate::loops::{Loop, loop_of};
use anyhow::{Context, bail};
use class_form::{ClassFile, well_formed};
use class_writer::write_class;
use jp_outside::{StdSink, StdSource};
use jp_pred::Name;
use jvm_load::{Program, load, name_of};
use mini_jvm::run;
use std::time::Instant;
use std::{env, fs, str};

fn main(rt: HostRuntime) -> anyhow::Result<()> {
    let mut words = env::args(&rt)?.skip(1);
    let name = words.next().context("a loop is wanted")?;
    let others = words.next().context("a count of classes is wanted")?;
    let turns = words.next().context("a count of turns is wanted")?;
    let wanted = loop_of(name.as_str()).context("there is no such loop")?;
    let files = all_files(&rt, wanted, others.parse()?, turns.parse()?)?;
    if let Some(folder) = words.next() {
        write_files(&rt, folder.as_str(), files.as_slice())?;
    }
    if files.len() > 100_000 {
        bail!("these are too many classes");
    }
    let start = Instant::now(&rt)?;
    let program = load(rt.alloc(), files.as_slice())?;
    let loaded = start.elapsed(&rt)?.as_micros();
    let start = Instant::now(&rt)?;
    run_main(&rt, &program)?;
    let ran = start.elapsed(&rt)?.as_micros();
    eprintln!(rt; "{loaded} {ran}")?;
    Ok(())
}

// The three classes that run, and so many others.
fn all_files(
    rt: &HostRuntime,
    wanted: Loop,
    others: u16,
    turns: i32,
) -> anyhow::Result<Vec<ClassFile>>
    ensures { IfOk result (λ files. All IsLoadableFile files.items) }
{
    let alloc = rt.alloc();
    let mut files = Vec::new(alloc);
    files.push(class_main(alloc, wanted, turns)?)?;
    files.push(class_counter(alloc)?)?;
    files.push(class_step(alloc)?)?;
    for i in 0..others {
        files.push(class_other(alloc, i)?)?;
    }
    Ok(files)
}

fn write_files(rt: &HostRuntime, folder: &str, files: &[ClassFile]) -> anyhow::Result<()> {
    for file in files {
        if !well_formed(file) {
            bail!("a class file isn't well formed");
        }
        let name = str::from_utf8(name_of(file))?;
        let path = format!(in rt.alloc(); "{folder}/{name}.class")?;
        let bytes = write_class(rt.alloc(), file)?;
        fs::write(rt, path.as_str(), bytes.as_slice())?;
    }
    Ok(())
}

// Runs `main` to its end.
fn run_main(rt: &HostRuntime, program: &Program) -> anyhow::Result<()> {
    let main = Name::from_bytes(rt.alloc(), b"Main")?;
    let mut input = StdSource::new(rt);
    let mut out = StdSink::output(rt);
    let end = run(rt.alloc(), program, &main, u64::MAX, &mut input, &mut out)?;
    match end {
        jvm_step::End::Done => Ok(()),
        _ => bail!("the run ended otherwise"),
    }
}
