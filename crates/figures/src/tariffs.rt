// Tariffs: their refusal, their charges, and tariffs over tariffs.
use crate::tables::file_of;
use model::{Charges, Model, ModelFault, Tariff};
use std::alloc::Global;
use std::test::Fail;
use table::Table;

// A table of one state and two settings, which earn 200 and 500.
fn one_state(heap: Global) -> Result<Table, Fail> {
    let file = file_of(heap, &[[0, 0, 0, 200], [0, 1, 0, 500]])?;
    Ok(Table::read(file)?)
}

// Charges of 300, but 600 for the hour 23.
fn charges_of_300_but_600_at_23() -> Charges {
    let mut charges = [300; 24];
    charges[23] = 600;
    charges
}

fn tariff(heap: Global) -> Result<Tariff<Table>, Fail> {
    Ok(Tariff::new(charges_of_300_but_600_at_23(), one_state(heap)?)?)
}

#[test]
fn the_first_high_charge_is_refused(rt: HostRuntime) -> Result<(), Fail> {
    let mut charges = [1000; 24];
    assert!(rt; Tariff::new(charges, 0u8).is_ok());
    charges[5] = 1001;
    charges[4] = 1001;
    let refused = Tariff::new(charges, one_state(rt.alloc())?).err();
    assert_eq!(rt;
        refused.map(|fault| (fault.number(), fault.hour())),
        Some((9, 4))
    );
    Ok(())
}

#[test]
fn every_setting_but_0_is_charged(rt: HostRuntime) -> Result<(), Fail> {
    let tariff = tariff(rt.alloc())?;
    assert_eq!(rt; tariff.settings(), 2);
    assert_eq!(rt; tariff.step((0, 0), 0), Ok((200, (1, 0))));
    assert_eq!(rt; tariff.step((0, 0), 1), Ok((200, (1, 0))));
    // 600 is more than 500: not below 0, and the hour goes from 23 to 0
    assert_eq!(rt; tariff.step((23, 0), 1), Ok((0, (0, 0))));
    assert_eq!(rt; tariff.step((23, 0), 0), Ok((200, (0, 0))));
    Ok(())
}

#[test]
fn the_hour_is_checked_first(rt: HostRuntime) -> Result<(), Fail> {
    let tariff = tariff(rt.alloc())?;
    assert_eq!(rt;
        tariff.step((24, 9), 9),
        Err(ModelFault::UnknownState { layers: 0 })
    );
    assert_eq!(rt;
        tariff.step((23, 9), 9),
        Err(ModelFault::UnknownState { layers: 1 })
    );
    assert_eq!(rt;
        tariff.step((23, 0), 2),
        Err(ModelFault::UnknownSetting { layers: 1 })
    );
    assert!(rt; tariff.knows((23, 0)));
    assert!(rt; !tariff.knows((24, 0)));
    assert!(rt; !tariff.knows((0, 1)));
    assert!(rt; tariff.same((3, 0), (3, 0)));
    assert!(rt; !tariff.same((3, 0), (4, 0)));
    Ok(())
}

#[test]
fn a_tariff_over_a_tariff_adds_a_layer(rt: HostRuntime) -> Result<(), Fail> {
    let inner = Tariff::new([100; 24], one_state(rt.alloc())?)?;
    let outer = Tariff::new(charges_of_300_but_600_at_23(), inner)?;
    assert_eq!(rt; outer.step((22, (23, 0)), 1), Ok((100, (23, (0, 0)))));
    assert_eq!(rt;
        outer.step((24, (24, 9)), 9),
        Err(ModelFault::UnknownState { layers: 0 })
    );
    assert_eq!(rt;
        outer.step((0, (24, 9)), 9),
        Err(ModelFault::UnknownState { layers: 1 })
    );
    assert_eq!(rt;
        outer.step((0, (0, 9)), 9),
        Err(ModelFault::UnknownState { layers: 2 })
    );
    assert_eq!(rt;
        outer.step((0, (0, 0)), 9),
        Err(ModelFault::UnknownSetting { layers: 2 })
    );
    Ok(())
}

#[test]
fn layers_stop_at_255(rt: HostRuntime) {
    let fault = ModelFault::UnknownSetting { layers: 254 };
    assert_eq!(rt; fault.number(), 2);
    assert_eq!(rt; fault.handed_up().layers(), 255);
    assert_eq!(rt; fault.handed_up().handed_up().layers(), 255);
    assert_eq!(rt; ModelFault::UnknownState { layers: 3 }.number(), 1);
}
