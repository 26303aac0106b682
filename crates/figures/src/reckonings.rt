// Reckonings: their discounts, their joinings at the ends of every range, and the worths of lists.
use reckoning::{BadDiscount, BestMoment, Reckoning, RunningSum, high_worth, low_worth, width};
use std::test::Fail;

// The number and the value of a refusal, if it is one.
fn refusal<R>(made: Result<R, BadDiscount>) -> Option<(u8, u16)>
where
    R: Drop,
{
    made.err().map(|fault| (fault.number(), fault.discount()))
}

// The low and the high joining.
fn joined<R: Reckoning>(reckoning: &R, mark: u16, rest: u64) -> (u64, u64) {
    (reckoning.low(mark, rest), reckoning.high(mark, rest))
}

// The low and the high worth.
fn worths<R: Reckoning>(reckoning: &R, marks: &[u16]) -> (u64, u64) {
    (low_worth(reckoning, marks), high_worth(reckoning, marks))
}

#[test]
fn discounts_from_1_to_999_are_made(rt: HostRuntime) -> Result<(), Fail> {
    assert_eq!(rt; refusal(RunningSum::new(0)), Some((10, 0)));
    assert_eq!(rt; refusal(RunningSum::new(1000)), Some((10, 1000)));
    assert_eq!(rt; refusal(RunningSum::new(65535)), Some((10, 65535)));
    assert_eq!(rt; refusal(BestMoment::new(0)), Some((10, 0)));
    assert_eq!(rt; refusal(BestMoment::new(1000)), Some((10, 1000)));
    assert_eq!(rt; refusal(BestMoment::new(65535)), Some((10, 65535)));
    assert_eq!(rt; RunningSum::new(1)?.discount(), 1);
    assert_eq!(rt; RunningSum::new(999)?.discount(), 999);
    assert_eq!(rt; BestMoment::new(1)?.discount(), 1);
    assert_eq!(rt; BestMoment::new(999)?.discount(), 999);
    Ok(())
}

#[test]
fn the_sum_at_the_ends_of_its_ranges(rt: HostRuntime) -> Result<(), Fail> {
    let least = RunningSum::new(1)?;
    assert_eq!(rt; least.ceiling(), 1_001_002);
    assert_eq!(rt; joined(&least, 0, 0), (0, 0));
    // one thousandth of 999, 1,000 and 1,001 grains
    assert_eq!(rt; joined(&least, 0, 999), (0, 1));
    assert_eq!(rt; joined(&least, 0, 1000), (1, 1));
    assert_eq!(rt; joined(&least, 0, 1001), (1, 2));
    assert_eq!(rt; joined(&least, 1000, 0), (1_000_000, 1_000_000));
    assert_eq!(rt; joined(&least, 1001, 0), (1_000_000, 1_000_000));
    // a thousandth of the ceiling is 1,001.002 grains
    assert_eq!(rt; joined(&least, 1000, 1_001_002), (1_001_001, 1_001_002));
    assert_eq!(rt; joined(&least, 65535, u64::MAX), (1_001_001, 1_001_002));
    // 333 thousandths of 1,499,251 grains are 499,250.583
    assert_eq!(rt;
        joined(&RunningSum::new(333)?, 0, u64::MAX),
        (499_250, 499_251)
    );
    let greatest = RunningSum::new(999)?;
    assert_eq!(rt; greatest.ceiling(), 1_000_000_000);
    assert_eq!(rt; joined(&greatest, 0, 1), (0, 1));
    assert_eq!(rt;
        joined(&greatest, 65535, u64::MAX),
        (1_000_000_000, 1_000_000_000)
    );
    Ok(())
}

#[test]
fn the_best_moment_at_the_ends_of_its_ranges(rt: HostRuntime) -> Result<(), Fail> {
    let least = BestMoment::new(1)?;
    assert_eq!(rt; least.ceiling(), 1_000_000);
    assert_eq!(rt; joined(&least, 0, 0), (0, 0));
    assert_eq!(rt; joined(&least, 0, 999), (0, 1));
    assert_eq!(rt; joined(&least, 0, u64::MAX), (1000, 1000));
    assert_eq!(rt; joined(&least, 1, u64::MAX), (1000, 1000));
    assert_eq!(rt; joined(&least, 2, u64::MAX), (2000, 2000));
    let greatest = BestMoment::new(999)?;
    assert_eq!(rt; greatest.ceiling(), 1_000_000);
    assert_eq!(rt; joined(&greatest, 0, 1), (0, 1));
    assert_eq!(rt; joined(&greatest, 998, 1_000_000), (999_000, 999_000));
    assert_eq!(rt; joined(&greatest, 0, u64::MAX), (999_000, 999_000));
    assert_eq!(rt; joined(&greatest, 1000, u64::MAX), (1_000_000, 1_000_000));
    assert_eq!(rt; joined(&greatest, 65535, u64::MAX), (1_000_000, 1_000_000));
    Ok(())
}

#[test]
fn worths_join_the_last_mark_first(rt: HostRuntime) -> Result<(), Fail> {
    let sum = RunningSum::new(333)?;
    assert_eq!(rt; worths(&sum, &[]), (0, 1_499_251));
    // from above: 1,499,251, then 500,251, then 167,584, then 56,806
    assert_eq!(rt; worths(&sum, &[1, 1, 1]), (1443, 56_806));
    assert_eq!(rt; low_worth(&sum, &[1, 2]), 1666);
    assert_eq!(rt; low_worth(&sum, &[2, 1]), 2333);
    // a mark of 65,535 counts as 1,000
    assert_eq!(rt; low_worth(&sum, &[1, 65535]), 334_000);
    let moment = BestMoment::new(900)?;
    assert_eq!(rt; worths(&moment, &[]), (0, 1_000_000));
    assert_eq!(rt; worths(&moment, &[500, 900]), (810_000, 810_000));
    assert_eq!(rt; worths(&moment, &[900, 500]), (900_000, 900_000));
    assert_eq!(rt; worths(&moment, &[0, 0]), (0, 810_000));
    Ok(())
}

#[test]
fn widths_from_depth_0_to_255(rt: HostRuntime) -> Result<(), Fail> {
    let half = RunningSum::new(500)?;
    assert_eq!(rt; width(&half, 0), 2_000_000);
    assert_eq!(rt; width(&half, 1), 1_000_001);
    assert_eq!(rt; width(&half, 2), 500_002);
    // 56,806 less 1,443
    assert_eq!(rt; width(&RunningSum::new(333)?, 3), 55_363);
    let least = BestMoment::new(1)?;
    assert_eq!(rt; width(&least, 1), 1001);
    assert_eq!(rt; width(&least, 2), 3);
    assert_eq!(rt; width(&least, 3), 2);
    assert_eq!(rt; width(&least, 255), 2);
    Ok(())
}
