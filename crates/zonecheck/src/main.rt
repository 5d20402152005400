// Checks the text of a zone: its first fault in words, or what the zone has and what its owner should look at.
#![tactic(auto)]

mod words;

use std::alloc::Global;
use std::process::ExitCode;
use std::{env, fs, io};
use words::{print_zone, words_of};
use zonetext::load;

// Whether the text is a zone's.
fn check(rt: &HostRuntime, heap: Global, file: &str) -> io::Result<bool> {
    let text = fs::read(rt, file)?;
    match load(heap, None, text.as_slice()) {
        Ok(zone) => {
            print_zone(rt, file, &zone)?;
            Ok(true)
        }
        Err(refusal) => {
            let words = words_of(refusal.fault);
            println!(rt; "{file}:{}: {}: {words}", refusal.line, refusal.fault)?;
            Ok(false)
        }
    }
}

// Each of the files; all of them are zones' texts, or not.
fn run(rt: &HostRuntime, heap: Global) -> io::Result<bool> {
    let mut all_good = true;
    let mut files = env::args(rt)?;
    let _program = files.next();
    for file in files {
        if !check(rt, heap, file.as_str())? {
            all_good = false;
        }
    }
    Ok(all_good)
}

fn main(rt: HostRuntime) -> io::Result<ExitCode> {
    let all_good = run(&rt, rt.alloc())?;
    Ok(if all_good {
        ExitCode::SUCCESS
    } else {
        ExitCode::FAILURE
    })
}
