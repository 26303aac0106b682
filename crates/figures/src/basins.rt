// Basins: their parameters, their marks, and states at the ends of what is known.
use basin::{BadParameter, Basin, CostedSetting, Measures, Setting, Water, WaterBits};
use model::{Model, ModelFault};
use std::test::Fail;

const NAN: u64 = 0x7ff8_0000_0000_0001;

const MINUS_ZERO: u64 = 0x8000_0000_0000_0000;

const SMALL: Measures = Measures {
    depth: 4.0,
    target: 2.0,
    band: 0.5,
    fade: 0.5,
};

// the refusal of an unknown state
const UNKNOWN: ModelFault = ModelFault::UnknownState { layers: 0 };

fn three_settings() -> [CostedSetting; 3] {
    [
        CostedSetting {
            setting: Setting::Rest,
            cost: 0,
        },
        CostedSetting {
            setting: Setting::Pump(1.0),
            cost: 300,
        },
        CostedSetting {
            setting: Setting::Gate(0.5),
            cost: 100,
        },
    ]
}

fn measures(depth: f64, target: f64, band: f64, fade: f64) -> Measures {
    Measures {
        depth,
        target,
        band,
        fade,
    }
}

fn small_basin() -> Result<Basin, BadParameter> {
    Basin::new(SMALL, &three_settings())
}

// The mark of a step, or its refusal.
fn mark(basin: &Basin, level: f64, inflow: f64, setting: u8) -> Result<u16, ModelFault> {
    let (mark, _) = basin.step_water(Water { level, inflow }, setting)?;
    Ok(mark)
}

// The water after a step, or its refusal.
fn after(basin: &Basin, level: f64, inflow: f64, setting: u8) -> Result<Water, ModelFault> {
    let (_, next) = basin.step_water(Water { level, inflow }, setting)?;
    Ok(next)
}

// The number of the refusal and of the parameter, if these are refused. Tables and reckonings have the like of
// it; each tells a value with a name of its own, so that one for all would be handed what to tell, and be no shorter.
fn refusal(measures: Measures, settings: &[CostedSetting]) -> Option<(u8, u8)> {
    let refused = Basin::new(measures, settings).err()?;
    Some((refused.number(), refused.parameter()))
}

fn only(setting: Setting, cost: u16) -> [CostedSetting; 1] {
    [CostedSetting { setting, cost }]
}

#[test]
fn marks_follow_the_next_level(rt: HostRuntime) -> Result<(), Fail> {
    let basin = small_basin()?;
    assert_eq!(rt; mark(&basin, 2.25, 0.5, 0), Ok(500));
    assert_eq!(rt; mark(&basin, 2.25, 0.5, 1), Ok(700));
    assert_eq!(rt; mark(&basin, 2.25, 0.5, 2), Ok(900));
    // exactly a band and two bands off the target
    assert_eq!(rt; mark(&basin, 2.5, 0.0, 0), Ok(1000));
    assert_eq!(rt; mark(&basin, 1.0, 0.0, 0), Ok(500));
    assert_eq!(rt; mark(&basin, 0.75, 0.0, 0), Ok(0));
    // the cost is taken off, not below 0
    assert_eq!(rt; mark(&basin, 0.0, 0.0, 1), Ok(0));
    Ok(())
}

#[test]
fn the_next_level_stays_within_the_basin(rt: HostRuntime) -> Result<(), Fail> {
    let basin = small_basin()?;
    assert_eq!(rt;
        after(&basin, 3.5, 1.0, 0),
        Ok(Water {
            level: 4.0,
            inflow: 0.5
        })
    );
    assert_eq!(rt;
        after(&basin, 0.25, 0.5, 1),
        Ok(Water {
            level: 0.0,
            inflow: 0.25
        })
    );
    assert_eq!(rt;
        after(&basin, 2.0, 0.5, 2),
        Ok(Water {
            level: 1.5,
            inflow: 0.25
        })
    );
    Ok(())
}

#[test]
fn nan_is_unknown_and_minus_zero_is_zero(rt: HostRuntime) -> Result<(), Fail> {
    let basin = small_basin()?;
    let nan = WaterBits {
        level: NAN,
        inflow: 0,
    };
    let dry = WaterBits {
        level: MINUS_ZERO,
        inflow: MINUS_ZERO,
    };
    let zero = WaterBits {
        level: 0,
        inflow: 0,
    };
    assert!(rt; !basin.knows(nan));
    assert!(rt; !basin.same(nan, nan));
    assert!(rt; basin.knows(dry));
    assert!(rt; basin.same(dry, zero));
    assert_eq!(rt; WaterBits::from(Water::from(dry)), dry);
    assert!(rt; basin.step(dry, 0).is_ok());
    assert_eq!(rt; basin.step(nan, 9), Err(UNKNOWN));
    Ok(())
}

#[test]
fn states_out_of_range_are_unknown(rt: HostRuntime) -> Result<(), Fail> {
    let basin = small_basin()?;
    assert_eq!(rt; basin.settings(), 3);
    assert_eq!(rt; mark(&basin, 4.0, 10.0, 0), Ok(0));
    assert_eq!(rt; mark(&basin, 4.25, 0.0, 0), Err(UNKNOWN));
    assert_eq!(rt; mark(&basin, 2.0, 10.25, 0), Err(UNKNOWN));
    assert_eq!(rt; mark(&basin, -0.25, 0.0, 0), Err(UNKNOWN));
    assert_eq!(rt;
        mark(&basin, 2.0, 0.0, 3),
        Err(ModelFault::UnknownSetting { layers: 0 })
    );
    Ok(())
}

#[test]
fn the_first_parameter_out_of_range_is_refused(rt: HostRuntime) {
    let three = three_settings();
    let nan = Water::from(WaterBits {
        level: NAN,
        inflow: 0,
    })
    .level;
    assert_eq!(rt; refusal(measures(0.0, 9.0, 9.0, 9.0), &[]), Some((8, 1)));
    assert_eq!(rt;
        refusal(measures(100.25, 2.0, 0.5, 0.5), &three),
        Some((8, 1))
    );
    assert_eq!(rt; refusal(measures(nan, 2.0, 0.5, 0.5), &three), Some((8, 1)));
    assert_eq!(rt;
        refusal(measures(4.0, 4.25, 0.0, 0.5), &three),
        Some((8, 2))
    );
    assert_eq!(rt; refusal(measures(4.0, 2.0, 0.0, 2.0), &three), Some((8, 3)));
    assert_eq!(rt; refusal(measures(4.0, 2.0, 0.5, 1.25), &[]), Some((8, 4)));
    assert_eq!(rt; refusal(SMALL, &[]), Some((8, 5)));
    assert_eq!(rt; refusal(measures(100.0, 0.0, 100.0, 1.0), &three), None);
}

#[test]
fn a_setting_and_its_cost_are_one_parameter(rt: HostRuntime) {
    assert_eq!(rt; refusal(SMALL, &only(Setting::Rest, 501)), Some((8, 6)));
    assert_eq!(rt;
        refusal(SMALL, &only(Setting::Pump(10.25), 0)),
        Some((8, 6))
    );
    assert_eq!(rt; refusal(SMALL, &only(Setting::Gate(1.25), 0)), Some((8, 6)));
    assert_eq!(rt; refusal(SMALL, &only(Setting::Pump(10.0), 500)), None);
    let rest = CostedSetting {
        setting: Setting::Rest,
        cost: 0,
    };
    let mut eight = [rest; 8];
    assert_eq!(rt; refusal(SMALL, &eight), None);
    assert_eq!(rt; refusal(SMALL, &[rest; 9]), Some((8, 5)));
    eight[7].cost = 501;
    assert_eq!(rt; refusal(SMALL, &eight), Some((8, 13)));
}
