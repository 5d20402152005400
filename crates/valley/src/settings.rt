// How `valley` is started.
use crate::texts::Texts;
use std::alloc::Global;
use std::{env, io};

#[derive(Drop)]
pub struct Settings {
    pub texts: Texts,
    // Whether each packet is shown byte by byte too.
    pub shows_bytes: bool,
}

impl Settings {
    // `-x` for the bytes, and a folder, in any order.
    pub fn read(rt: &HostRuntime, heap: Global) -> io::Result<Settings> {
        let mut folder = ".".to_string(heap)?;
        let mut shows_bytes = false;
        let mut args = env::args(rt)?;
        let _program = args.next();
        for arg in args {
            if arg.as_str() == "-x" {
                shows_bytes = true;
            } else {
                folder = arg;
            }
        }
        Ok(Settings {
            texts: Texts::new(folder),
            shows_bytes,
        })
    }
}
