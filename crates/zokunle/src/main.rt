// Reads a change list from standard input, carries it out from the empty map, and shows what it did.
#![tactic(auto)]

use anyhow::{Context, Result};
use changes::read::read_changes;
use changes::write::write_changes;
use lexis::line;
use model::changes::{Action, Change};
use model::ranges::UNUSED;
use replay::carry::{CAPACITY, carry_out};
use replay::failures::Failure;
use std::io::{Read, Write};

// So many bytes of input are read, and so many changes.
const INPUT: u64 = 65_536;

const RECORDS: usize = 512;

fn show(rt: &HostRuntime, change: Change) -> Result<()> {
    let mut line = [0u8; line::CAPACITY];
    let length = write_changes(&[change], &mut line).context("a change that cannot be written")?;
    rt.stdout().write_all(&line[..length])?;
    Ok(())
}

fn show_map(rt: &HostRuntime, changes: &[Change]) -> Result<()> {
    let mut map = [UNUSED; CAPACITY];
    match carry_out(&mut map, 0, changes) {
        Ok(count) => {
            println!(rt; "carried out from the empty map, ranges: {count:x}")?;
            for range in map.iter().take(count) {
                show(rt, Action::Addition.entry(*range))?;
            }
        }
        Err(Failure::Entry(entry)) => println!(rt; "change {entry:x} cannot be carried out")?,
        Err(Failure::Full(entry)) => println!(rt; "change {entry:x} finds the map full")?,
        Err(Failure::Disorder) => println!(rt; "the map is out of order")?,
    }
    Ok(())
}

fn run(rt: &HostRuntime) -> Result<()> {
    let mut text = Vec::new(rt.alloc());
    rt.stdin().take(INPUT).read_to_end(&mut text)?;
    let mut records = [Change::Removal(UNUSED); RECORDS];
    let Some(count) = read_changes(text.as_slice(), &mut records) else {
        println!(rt; "no change list")?;
        return Ok(());
    };
    println!(rt; "changes read: {count:x}")?;
    let changes = &records[..count];
    for change in changes {
        show(rt, *change)?;
    }
    show_map(rt, changes)
}

fn main(rt: HostRuntime) -> Result<()> {
    run(&rt)
}
