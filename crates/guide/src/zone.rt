//! Reads lines of a zone file, prints each as it is written there, and says what is wrong with a line that is not read.

use anyhow::{Result, bail};
use dns_rdata::{Name, ParseError, RecordType};
use dns_rdata_zone::{ZoneText, from_zone_text, token_at_fault};

const LINES: [(RecordType, &str); 4] = [
    (RecordType::MX, "10 mail ; the first one"),
    (RecordType::TXT, "v=spf1 \"-all\""),
    (RecordType::MX, "ten mail"),
    (RecordType::MX, "10"),
];

// Says which field is wrong, and where in the text its token is.
fn explain(rt: &impl Print, record_type: RecordType, text: &str, error: &ParseError) -> Result<()> {
    println!(rt; "{text}: {error}")?;
    if let Some(field) = error.field() {
        println!(rt; "  field {field}")?;
    }
    if let Some(token) = token_at_fault(record_type, text.as_bytes(), error) {
        println!(rt; "  octets {} to {}", token.start, token.end)?;
    }
    Ok(())
}

fn read_line(
    rt: &(impl AllocGlobal + Print),
    record_type: RecordType,
    text: &str,
    origin: &Name,
) -> Result<()> {
    match from_zone_text(rt.alloc(), record_type, text.as_bytes(), Some(origin)) {
        Ok(data) => println!(rt; "{record_type} {}", ZoneText::new(&data))?,
        Err(ParseError::Memory) => bail!("out of memory"),
        Err(error) => explain(rt, record_type, text, &error)?,
    }
    Ok(())
}

/// The program.
pub fn main(rt: &(impl AllocGlobal + Print)) -> Result<()> {
    let origin = Name::from_ascii(rt.alloc(), "example.com.")?;
    for (record_type, text) in LINES.iter() {
        read_line(rt, *record_type, *text, &origin)?;
    }
    Ok(())
}
