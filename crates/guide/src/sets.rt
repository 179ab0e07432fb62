//! Sorts a record set, drops records that occur twice, and hashes what is left.

use anyhow::Result;
use dns_rdata::{RData, RecordType};
use dns_rdata_zone::{ZoneText, from_zone_text};
use std::alloc::Global;
use std::hash::{DefaultHasher, Hash, Hasher};

// The second and the third differ in the case of letters alone, and so are equal.
const RECORDS: [&str; 4] = [
    "20 mail.example.com.",
    "10 mail.example.com.",
    "10 MAIL.example.com.",
    "10 backup.example.net.",
];

fn read_all(alloc: Global) -> Result<Vec<RData>> {
    let mut records = Vec::new(alloc);
    for text in RECORDS.iter() {
        records.push(from_zone_text(alloc, RecordType::MX, text.as_bytes(), None)?)?;
    }
    Ok(records)
}

// Equal values give the same hash.
fn hash_of(data: &RData) -> u64 {
    let mut state = DefaultHasher::new();
    data.hash(&mut state);
    state.finish()
}

/// The program.
pub fn main(rt: &(impl AllocGlobal + Print)) -> Result<()> {
    let mut records = read_all(rt.alloc())?;
    if let [_, lower, upper, ..] = records.as_slice() {
        println!(rt; "{}", hash_of(lower) == hash_of(upper))?;
    }
    records.sort_unstable();
    records.dedup();
    for data in &records {
        println!(rt; "{}", ZoneText::new(data))?;
    }
    Ok(())
}
