// Plays a script from standard input, up to its end or its first faulty line: `valley [-x] [FOLDER]`, where the zones' texts
// stand in FOLDER, or where it is started; with `-x` it shows the bytes of each packet too.
#![tactic(auto)]

mod ages;
mod bytes;
mod clock;
mod ids;
mod net;
mod owners;
mod print;
mod servers;
mod settings;
mod stop;
mod texts;
mod valley;
mod walk;

use crate::valley::Valley;
use print::report;
use script::read_command;
use settings::Settings;
use std::alloc::Global;
use std::io;
use std::io::{BufRead, BufReader};
use stop::Stop;

fn play_line(rt: &HostRuntime, valley: &mut Valley, line: u64, bytes: &[u8]) -> Result<(), Stop> {
    let command = read_command(rt.alloc(), bytes)?;
    valley.play(rt, line, command)
}

fn run(rt: &HostRuntime, heap: Global) -> io::Result<()> {
    let mut valley = match Valley::new(heap, Settings::read(rt, heap)?) {
        Ok(valley) => valley,
        Err(fault) => return report(rt, 0, fault),
    };
    let mut line: u64 = 0;
    for bytes in BufReader::new(heap, rt.stdin())?.split(heap, b'\n') {
        let bytes = bytes?;
        line = line.saturating_add(1);
        match play_line(rt, &mut valley, line, bytes.as_slice()) {
            Ok(()) => {}
            Err(Stop::Io(error)) => return Err(error),
            Err(Stop::Fault(fault)) => {
                report(rt, line, fault)?;
                let now = valley.now().0;
                return println!(rt; "stopped at line {line}, moment {now}");
            }
        }
    }
    let now = valley.now().0;
    println!(rt; "ended after line {line}, moment {now}")
}

fn main(rt: HostRuntime) -> io::Result<()> {
    run(&rt, rt.alloc())
}
