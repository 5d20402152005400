// What came so far, and the zone once all of it came.
ghost use Rattle.std.specs.Prelude.{◌≡◌, length};
ghost use Rattle.meaning.specs.Transfer.{all_transferred};
ghost use Rattle.transfers.specs.Joining.{is_complete};
ghost use Rattle.transfers.specs.Joinings.{joining_of, Finishes};

use super::Joining;
use cache::Moment;
use zones::Zone;

impl Joining {
    pub fn is_complete(&self) -> bool
        ensures { result ≡ is_complete (joining_of self.now).there }
    {
        self.missing == 0
    }

    // The zone where all parts are there, and the transfer as it stands where not.
    pub fn finish(self) -> Result<Zone, Joining>
        ensures { Finishes (joining_of self) result }
    {
        if self.is_complete() {
            Ok(self.zone)
        } else {
            Err(self)
        }
    }

    // Since when the copy will count.
    pub fn moment(&self) -> Moment
        ensures { result.0 ≡ (joining_of self.now).moment }
    {
        self.moment
    }

    // How many bytes the sets that are there take in a transfer.
    pub fn transfer_len(&self) -> usize
        ensures { result ≡ length (all_transferred (joining_of self.now).sets) }
    {
        self.zone.transfer_len()
    }
}
