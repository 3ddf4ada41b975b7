//! A camera and an encoder share buffers, each on a thread of its own; once they have them a
//! recorder is let in, on a third. What happened is written as a script to the file that the first
//! word names, if there is one.
#![tactic(auto)]

mod asking;
mod failure;
mod happened;
mod sharing;
mod start;

use asking::{CAMERA, ENCODER, PLATFORM, RECORDER, asked, platform};
use failure::Failure;
use sharing::{Asks, Outcomes, share};
use std::marker::Brand;
use std::sync::ledger::Blank;
use std::{env, fs, io};
use sysmem_merge::Settings;
use sysmem_participants::Allocator;
use sysmem_search::NoGate;
use sysmem_tree::Refusal;

fn main(rt: HostRuntime) -> Result<(), Failure> {
    let alloc = rt.alloc();
    let allocator = Allocator::new(alloc, platform(alloc, PLATFORM)?, NoGate)?;
    let asks = Asks {
        camera: asked(alloc, CAMERA)?,
        encoder: asked(alloc, ENCODER)?,
        recorder: asked(alloc, RECORDER)?,
    };
    // 129 parts: one for each node that a collection may have, and one that stays with its book
    let told = share::<Brand, HostRuntime>(&rt, alloc, &allocator, Blank::new(129), &asks)?;
    tell_all(&rt, &told)?;
    write_script(&rt, told.script)
}

/// Writes what happened to the file that the first word names, if there is one.
fn write_script(rt: &HostRuntime, script: Option<Vec<u8>>) -> Result<(), Failure> {
    let mut words = env::args(rt)?;
    let _program = words.next();
    let Some(file) = words.next() else {
        return Ok(());
    };
    match script {
        Some(script) => fs::write(rt, file.as_str(), script)?,
        None => println!(rt; "no script: somebody acted while a decision was made")?,
    }
    Ok(())
}

/// Prints what each was told, and what the audit found.
fn tell_all(rt: &impl Print, told: &Outcomes) -> io::Result<()> {
    tell(rt, "camera", told.camera)?;
    tell(rt, "encoder", told.encoder)?;
    match told.recorder {
        Some(recorder) => tell(rt, "recorder", recorder)?,
        None => println!(rt; "recorder: not let in")?,
    }
    let (nodes, actions, decisions) = (told.audit.nodes, told.audit.actions, told.audit.decisions);
    println!(rt; "audit: {nodes} nodes, {actions} actions, {decisions} decisions")
}

/// Prints what a participant was told.
fn tell(rt: &impl Print, name: &str, told: Result<Settings, Refusal>) -> io::Result<()> {
    match told {
        Ok(settings) => {
            let (count, size) = (settings.count, settings.size_bytes);
            println!(rt; "{name}: {count} buffers of {size} bytes")
        }
        Err(refusal) => {
            let refusal = refusal.name();
            println!(rt; "{name}: {refusal}")
        }
    }
}
