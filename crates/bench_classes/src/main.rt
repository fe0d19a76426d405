//! Reads a class file and writes it again, some rounds: `bench_classes FILE ROUNDS`. Standard output tells how many
//! bytes were written, standard error how many microseconds each round took, for reading and for writing.
#![tactic(auto)]

use anyhow::{Context, bail};
use class_reader::read_class;
use class_writer::write_class;
use std::time::Instant;
use std::{env, fs};

fn main(rt: HostRuntime) -> anyhow::Result<()> {
    let mut words = env::args(&rt)?.skip(1);
    let name = words.next().context("a file is wanted")?;
    let rounds = words.next().context("a count of rounds is wanted")?;
    let rounds: u32 = rounds.parse()?;
    let bytes = fs::read(&rt, name.as_str())?;
    for _ in 0..rounds {
        let count = round(&rt, &bytes)?;
        println!(rt; "{count} bytes")?;
    }
    Ok(())
}

/// Reads and writes once; how many bytes were written.
fn round(rt: &HostRuntime, bytes: &[u8]) -> anyhow::Result<usize> {
    let start = Instant::now(rt)?;
    let Ok(file) = read_class(rt.alloc(), bytes) else {
        bail!("it is no class file");
    };
    let read = start.elapsed(rt)?.as_micros();
    let start = Instant::now(rt)?;
    let written = write_class(rt.alloc(), &file)?;
    let write = start.elapsed(rt)?.as_micros();
    eprintln!(rt; "{read} {write}")?;
    Ok(written.len())
}
