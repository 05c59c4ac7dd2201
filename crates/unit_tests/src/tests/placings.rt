// Lines of keys answered, with the counts of what was placed.
use names::Name;
use places::{DigitCount, Digits};
use placing::{Outcome, Placer};
use spread::Summary;
use std::test::Fail;

#[test]
fn lines_answered(rt: HostRuntime) -> Result<(), Fail> {
    let rule = Digits::new(DigitCount::Two, 4, 0)?;
    let mut placer = Placer::new::<Name>(&rule, 0);
    let mut out = Vec::new(rt.alloc());
    assert_eq!(rt;
        placer.answer::<Name>(Some(b"a"), &mut out)?,
        Outcome::Placed
    );
    assert_eq!(rt; placer.answer::<Name>(None, &mut out)?, Outcome::Refused);
    assert_eq!(rt;
        placer.answer::<Name>(Some(b""), &mut out)?,
        Outcome::Refused
    );
    assert!(rt; out.as_slice() == b"a 0xe40c292c 0 3\nrefused 8\nrefused 7\n".as_slice());
    let summary = Summary {
        buckets: 4,
        idle: 2,
        busiest: 0,
        keys: 1,
        mean: 50,
    };
    assert_eq!(rt; placer.spread.summary(), summary);
    Ok(())
}
