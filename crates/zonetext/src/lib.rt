// The text of a zone, as its owner writes it: read to its end or to its first fault, and written.
#![tactic(auto)]

ghost use Rattle.zonetext.specs.TextLaws.{TextLaws};

mod checking;
mod division;
mod fields;
mod heads;
mod numbered;
mod reading;
mod refusal;
mod writing;

pub use checking::{DAY, outlasts_a_day, points_nowhere};
pub use reading::{MAX_TRANSFER, apex_of, load};
pub use refusal::Refusal;
pub use writing::write;

// What is written of a zone is read as that zone, and what is read of that is written as it was.
pub fn text_laws()
    ensures { TextLaws }
{}

#[cfg(test)]
mod tests {
    use super::*;
    use names::{Fault, Name};
    use std::alloc::Global;
    use std::test::Fail;
    use zones::Zone;

    const VILLAGE: &[u8] =
        b"top upperton\nnumber 7\ntimes 60 600 86400\n\n; the well\nset north.well 1 300 000000000000000A\nset well 2 300 \"deep; cold\" ; both\n";

    // How many sets the zone of a text has.
    fn sets_of(heap: Global, old: Option<&Zone>, text: &[u8]) -> Result<usize, Refusal> {
        load(heap, old, text).map(|zone| zone.sets().len())
    }

    fn refused(line: usize, fault: Fault) -> Result<usize, Refusal> {
        Err(Refusal { line, fault })
    }

    #[test]
    fn reads_a_zone(rt: HostRuntime) -> Result<(), Fail> {
        let zone = load(rt.alloc(), None, VILLAGE)?;
        assert!(rt; *zone.apex() == Name::read(b"upperton")?);
        assert_eq!(rt; zone.serial().number(), 7);
        assert_eq!(rt; zone.sets().len(), 2);
        Ok(())
    }

    #[test]
    fn tells_the_first_faulty_line_by_its_lowest_fault(rt: HostRuntime) {
        let heads = b"top t\nnumber 1\ntimes 1 2 3\n; none yet\nset A 1 3 x\nset a 3\n";
        assert_eq!(rt;
            sets_of(rt.alloc(), None, heads),
            refused(5, Fault::BadName)
        );
    }

    #[test]
    fn wants_a_larger_number_at_the_same_top(rt: HostRuntime) -> Result<(), Fail> {
        let heap = rt.alloc();
        let old = load(heap, None, VILLAGE)?;
        assert_eq!(rt;
            sets_of(heap, Some(&old), VILLAGE),
            refused(2, Fault::StaleSerial)
        );
        let newer = b"top upperton.\nnumber 8\ntimes 60 600 86400\n";
        assert_eq!(rt; sets_of(heap, Some(&old), newer), Ok(0));
        let other = b"top lowerton\nnumber 1\ntimes 60 600 86400\n";
        assert_eq!(rt; sets_of(heap, Some(&old), other), Ok(0));
        Ok(())
    }

    #[test]
    fn reads_a_text_that_is_cut_short(rt: HostRuntime) {
        let heap = rt.alloc();
        assert_eq!(rt; sets_of(heap, None, b""), refused(1, Fault::Malformed));
        assert_eq!(rt;
            sets_of(heap, None, b"top upperton"),
            refused(2, Fault::Malformed)
        );
        let cut = b"top t\nnumber 1\ntimes 1 2 3\nset a 1 3 000000000000000";
        assert_eq!(rt; sets_of(heap, None, cut), refused(4, Fault::BadData));
        let open = b"top t\nnumber 1\ntimes 1 2 3\nset a 2 3 \"deep; cold";
        assert_eq!(rt; sets_of(heap, None, open), refused(4, Fault::Malformed));
    }
}
