// What may be told: data within their limits, and referrals that lead down.
ghost use Rattle.std.specs.Prelude.{◌≡◌, Ok, Err, MatchResult};
ghost use Rattle.names.specs.Names.{labels};
ghost use Rattle.wire.specs.Packets.{allowed};
ghost use Rattle.wire.specs.Tellings.{told_of, referral_of};

use super::Told;
use cache::Referral;
use names::{Fault, Name};
use records::pieces_fit;

fn check_referral(apex: &Name, referral: &Referral) -> Result<(), Fault>
    ensures { MatchResult result (λ _. allowed (labels apex.now) (referral_of referral.now) ≡ Ok (referral_of referral.now)) (λ f. allowed (labels apex.now) (referral_of referral.now) ≡ Err f) }
{
    let to = &referral.name;
    if !referral.to.fits() {
        return Err(Fault::BadData);
    }
    if !to.is_within(apex) {
        return Err(Fault::Misplaced);
    }
    if to.label_count() <= apex.label_count() {
        return Err(Fault::Conflict);
    }
    Ok(())
}

impl Told {
    // Can a server of this apex tell it?
    pub(crate) fn check(&self, apex: &Name) -> Result<(), Fault>
        ensures { MatchResult result (λ _. allowed (labels apex.now) (told_of self.now) ≡ Ok (told_of self.now)) (λ f. allowed (labels apex.now) (told_of self.now) ≡ Err f) }
    {
        match self {
            Told::Data(pieces) => {
                if pieces_fit(pieces.as_slice()) {
                    Ok(())
                } else {
                    Err(Fault::BadData)
                }
            }
            Told::Referral(referral) => check_referral(apex, referral),
            Told::Alias(_) | Told::NoData | Told::NoName | Told::Nowhere | Told::TooLong => Ok(()),
        }
    }
}
