// The folder in which the owners' texts stand.
use crate::stop::Stop;
use names::Fault;
use std::fs;

#[derive(Drop)]
pub struct Texts {
    folder: String,
}

impl Texts {
    pub fn new(folder: String) -> Texts {
        Texts { folder }
    }

    // A file that can't be read makes its line faulty.
    pub fn read(&self, rt: &HostRuntime, file: &str) -> Result<Vec<u8>, Stop> {
        let folder = self.folder.as_str();
        let path = format!(in rt.alloc(); "{folder}/{file}")?;
        let Ok(text) = fs::read(rt, path.as_str()) else {
            return Err(Stop::Fault(Fault::Malformed));
        };
        Ok(text)
    }
}
