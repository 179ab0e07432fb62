//! The programs of docs/GUIDE.md, one after the other, then walks that are limited or
//! resumed (`walks.rt`), and then the examples in the library's comments (`comments.rt`).
//! Each program is a module; docs/GUIDE.md has the `main.rt` that runs one by itself. They are one crate, so that dropping an
//! `RData` is proved once.
#![tactic(auto)]

mod again;
mod comments;
mod copy;
mod edns;
mod https;
mod messages;
mod parts;
mod record_data;
mod response;
mod sets;
mod targets;
mod views;
mod walks;
mod zone;
mod zone_files;

use anyhow::Result;

fn main(rt: HostRuntime) -> Result<()> {
    response::main(&rt)?;
    views::main(&rt)?;
    targets::main(&rt)?;
    edns::main(&rt)?;
    sets::main(&rt)?;
    zone::main(&rt)?;
    https::main(&rt)?;
    copy::main(&rt)?;
    walks::main(&rt)?;
    comments::main(&rt)
}
