// Whether the sets of a part may come into a zone, all together.
ghost use Rattle.std.specs.Prelude.{◌≡◌, ◌&&◌, not, [], map};
ghost use Rattle.std.specs.List.{list_any};
ghost use Rattle.names.specs.Names.{labels};
ghost use Rattle.meaning.specs.Model.{delegates};
ghost use Rattle.meaning.specs.Says.{same, is_exactly};
ghost use Rattle.records.specs.Sets.{set_of};
ghost use Rattle.zones.specs.Valid.{clash, clashes, no_clash, added};
ghost use Rattle.zones.specs.Zones.{zone_of};
ghost use Rattle.transfers.specs.Joining.{stands, any_outside, any_twice, any_cut_at};
ghost use Rattle.transfers.specs.Joinings.{Judges, is_misplaced, is_conflict};

use names::{Fault, Name};
use records::RecordSet;
use zones::{MAX_SETS, Zone};

// Names of different lengths are told apart at once.
fn is_at(set: &RecordSet, name: &Name) -> bool
    ensures { result ≡ same (set_of set.now).name (labels name.now) }
{
    set.name().wire_len() == name.wire_len() && *set.name() == *name
}

fn is_same(set: &RecordSet, other: &RecordSet) -> bool
    ensures { result ≡ is_exactly (set_of set.now).name (set_of set.now).kind (set_of other.now) }
{
    other.kind() == set.kind() && is_at(other, set.name())
}

// Whether another set has this one's name and kind.
fn stands(others: &[RecordSet], set: &RecordSet) -> bool
    ensures { result ≡ stands (map set_of others.now) (set_of set.now) }
{
    others.iter().any(|other| is_same(set, other))
}

// An alias and another set at one name.
fn clash(set: &RecordSet, other: &RecordSet) -> bool
    ensures { result ≡ clash (set_of set.now) (set_of other.now) }
{
    (set.kind().is_alias() || other.kind().is_alias()) && is_at(set, other.name())
}

fn clashes(set: &RecordSet, others: &[RecordSet]) -> bool
    ensures { result ≡ clashes (set_of set.now) (map set_of others.now) }
{
    others.iter().any(|other| clash(set, other))
}

fn any_outside(apex: &Name, sets: &[RecordSet]) -> bool
    ensures { result ≡ any_outside (labels apex.now) (map set_of sets.now) }
{
    sets.iter().any(|set| !set.name().is_within(apex))
}

fn is_cut_at(apex: &Name, set: &RecordSet) -> bool
    ensures { result ≡ (delegates (set_of set.now).kind && same (set_of set.now).name (labels apex.now)) }
{
    set.kind().is_delegation() && is_at(set, apex)
}

fn any_cut_at(apex: &Name, sets: &[RecordSet]) -> bool
    ensures { result ≡ any_cut_at (labels apex.now) (map set_of sets.now) }
{
    sets.iter().any(|set| is_cut_at(apex, set))
}

fn any_twice(sets: &[RecordSet]) -> bool
    ensures { result ≡ any_twice (map set_of sets.now) }
{
    let mut rest = sets;
    while let [set, others @ ..] = rest {
        if stands(others, set) {
            return true;
        }
        rest = others;
    }
    false
}

fn any_clash(sets: &[RecordSet]) -> bool
    ensures { result ≡ not (no_clash (map set_of sets.now)) }
{
    let mut rest = sets;
    while let [set, others @ ..] = rest {
        if clashes(set, others) {
            return true;
        }
        rest = others;
    }
    false
}

// A set that the zone refuses since it is outside or stands there already.
fn any_misplaced(zone: &Zone, sets: &[RecordSet]) -> bool
    ensures { result ≡ list_any (λ s. is_misplaced (added (zone_of zone.now).apex (zone_of zone.now).sets s)) (map set_of sets.now) }
{
    sets.iter()
        .any(|set| matches!(zone.admits(set), Err(Fault::Misplaced)))
}

// A set that the zone refuses for an alias, or since it is a delegation at the apex.
fn any_conflict(zone: &Zone, sets: &[RecordSet]) -> bool
    ensures { result ≡ list_any (λ s. is_conflict (added (zone_of zone.now).apex (zone_of zone.now).sets s)) (map set_of sets.now) }
{
    sets.iter()
        .any(|set| matches!(zone.admits(set), Err(Fault::Conflict)))
}

// Whether the sets may come into a zone that has no others.
pub(super) fn check_alone(apex: &Name, sets: &[RecordSet]) -> Result<(), Fault>
    ensures { Judges (labels apex.now) [] (map set_of sets.now) result }
{
    if any_outside(apex, sets) || any_twice(sets) {
        return Err(Fault::Misplaced);
    }
    if any_cut_at(apex, sets) || any_clash(sets) {
        return Err(Fault::Conflict);
    }
    if sets.len() > MAX_SETS {
        return Err(Fault::TooMuch);
    }
    Ok(())
}

// Whether they may come beside those that are there.
pub(super) fn check_beside(zone: &Zone, sets: &[RecordSet]) -> Result<(), Fault>
    ensures { Judges (zone_of zone.now).apex (zone_of zone.now).sets (map set_of sets.now) result }
{
    if any_twice(sets) || any_misplaced(zone, sets) {
        return Err(Fault::Misplaced);
    }
    if any_clash(sets) || any_conflict(zone, sets) {
        return Err(Fault::Conflict);
    }
    if sets.len() + zone.sets().len() > MAX_SETS {
        return Err(Fault::TooMuch);
    }
    Ok(())
}
