//! Finds the mail server to try first in a response. Nothing is allocated.

use crate::response::RESPONSE;
use anyhow::Result;
use dns_message::MessageRef;
use dns_rdata::{RDataRef, RecordType};
use std::cmp::Ordering;

// The lesser of two MX records: by preference, and then by the name of the host.
fn lesser<'a>(best: Option<RDataRef<'a>>, view: RDataRef<'a>) -> RDataRef<'a> {
    match best {
        Some(best) => match best.compare(&view) {
            Some(Ordering::Less) => best,
            _ => view,
        },
        None => view,
    }
}

// The MX record of a message that comes first. Records whose RDATA is damaged are passed over. Allocates nothing.
fn first_mx<'a>(message: &MessageRef<'a>) -> Result<Option<RDataRef<'a>>> {
    let mut best = None;
    for item in message.answers()? {
        let Ok(record) = item else {
            continue;
        };
        if record.record_type != RecordType::MX {
            continue;
        }
        if let Some(view) = record.rdata {
            best = Some(lesser(best, view));
        }
    }
    Ok(best)
}

/// The program.
pub fn main(rt: &impl Print) -> Result<()> {
    let message = MessageRef::read(&RESPONSE)?;
    let Some(view) = first_mx(&message)? else {
        println!(rt; "no mail server")?;
        return Ok(());
    };
    if let Some(host) = view.name(0) {
        println!(rt; "{host}")?;
    }
    Ok(())
}
