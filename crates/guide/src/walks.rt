//! Walks over the records of a message that end at a limit of labels and steps, or go on where another one
//! was.

use crate::response::RESPONSE;
use anyhow::{Context, Result};
use dns_message::{MessageRef, Progress, Records};

// Prints the offset of each record that a walk gives, or the index of the one that is rejected, and why.
fn print_walk(rt: &impl Print, records: Records<'_>) -> Result<()> {
    for item in records {
        match item {
            Ok(record) => print!(rt; " {}", record.offset)?,
            Err(error) => print!(rt; " {} ({})", error.index, error.fault)?,
        }
    }
    println!(rt; "")?;
    Ok(())
}

// The names of the question and of the three answers take 2, 7, 5 and 7 steps, one for each label and for each compression
// pointer, and the walk ends at the answer that passes the limit.
fn print_limited(rt: &impl Print) -> Result<()> {
    for limit in [2, 9, 15, 21] {
        print!(rt; "limit {limit}:")?;
        let message = MessageRef::read(&RESPONSE)?.with_limit(limit);
        print_walk(rt, message.records()?)?;
    }
    Ok(())
}

// A walk that goes on after the first record, and one that would go on after the end of the message.
fn print_resumed(rt: &impl Print) -> Result<()> {
    let message = MessageRef::read(&RESPONSE)?;
    let mut records = message.records()?;
    records.next().context("no first record")??;
    let progress = records.progress();
    print!(rt; "resumed:")?;
    print_walk(rt, message.resume(progress).context("no walk")?)?;
    let offset = RESPONSE.len() + 1;
    let past_the_end = Progress { offset, ..progress };
    println!(rt; "past the end: {}", message.resume(past_the_end).is_some())?;
    Ok(())
}

// How many octets follow the last record of a message with three octets more.
fn print_trailing(rt: &(impl AllocGlobal + Print)) -> Result<()> {
    let mut octets = Vec::from_slice(rt.alloc(), &RESPONSE)?;
    octets.extend_from_slice(b"\xff\xff\xff")?;
    let mut records = MessageRef::read(octets.as_slice())?.records()?;
    for _ in 0..3 {
        let _ = records.next().context("no record")?;
    }
    println!(rt;
        "trailing: {}",
        records.trailing().context("records are left")?.len()
    )?;
    Ok(())
}

/// Prints the walks.
pub fn main(rt: &(impl AllocGlobal + Print)) -> Result<()> {
    print_limited(rt)?;
    print_resumed(rt)?;
    print_trailing(rt)
}
