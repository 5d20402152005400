// What can be no answer of the zone that was asked is refused.
ghost use Rattle.std.specs.Prelude.{◌≡◌};
ghost use Rattle.std.specs.Result.{result_err};
ghost use Rattle.cache.specs.Entries.{said_of};
ghost use Rattle.machine.specs.Machine.{misfit};
ghost use Rattle.questions.specs.Queries.{query_of};
ghost use Rattle.resolver.specs.Hears.{referred_of};

use cache::{Referral, Said};
use names::Fault;
use questions::Query;

// A referral names its servers, and leads down towards the name.
fn check_referral(query: &Query, referral: &Referral) -> Result<(), Fault>
    ensures { result_err result ≡ misfit (query_of query.now) (referred_of referral.now) }
{
    let key = &query.key;
    let to = &referral.name;
    if !referral.to.fits() {
        return Err(Fault::BadData);
    }
    if !(to.is_within(&key.apex) && key.name.is_within(to)) {
        return Err(Fault::Misplaced);
    }
    if to.label_count() <= key.apex.label_count() {
        return Err(Fault::Conflict);
    }
    Ok(())
}

// Whether a zone can have said this to a query.
pub fn check(query: &Query, said: &Said) -> Result<(), Fault>
    ensures { result_err result ≡ misfit (query_of query.now) (said_of said.now) }
{
    let kind = query.key.kind;
    let fits = match said {
        Said::Data(data) => data.fits(kind) && !kind.is_delegation(),
        Said::Alias(_) => !kind.is_alias(),
        Said::Referral(referral) => return check_referral(query, referral),
        Said::NoData | Said::NoName => true,
    };
    if fits { Ok(()) } else { Err(Fault::BadData) }
}
