// What spoke, when a zone is asked.
ghost use Rattle.std.specs.Prelude.{◌≡◌};
ghost use Rattle.zones.specs.Zones.{speaker_of, tells_data, tells_nothing};

use records::RecordSet;

#[derive(Clone, Copy)]
pub enum Reply<'a> {
    Data(&'a RecordSet),
    Alias(&'a RecordSet),
    Referral(&'a RecordSet),
    NoData,
    NoName,
}

impl<'a> Reply<'a> {
    pub fn is_data(&self) -> bool
        ensures { result ≡ tells_data (speaker_of self.now) }
    {
        matches!(self, Reply::Data(_))
    }

    pub fn is_no_name(&self) -> bool
        ensures { result ≡ tells_nothing (speaker_of self.now) }
    {
        matches!(self, Reply::NoName)
    }
}
