use super::*;
use std::test::Fail;

#[test]
fn each_address_has_its_device(rt: HostRuntime) -> Result<(), Fail> {
    let windows = [
        Window {
            base: 0x4120_0000,
            device: 1,
        },
        Window {
            base: 0x4060_0000,
            device: 0,
        },
        Window {
            base: 0x4060_1000,
            device: 7,
        },
        Window {
            base: 0xFFFF_F000,
            device: 2,
        },
    ];
    let map = Map::build(rt.alloc(), &windows)?;
    for (addr, device, offset) in [
        (0x4060_0000, 0, 0),
        (0x4060_0FFF, 0, 0xFFF),
        (0x4060_1000, 7, 0),
        (0x4120_0008, 1, 8),
        (0xFFFF_FFFF, 2, 0xFFF),
    ] {
        assert_eq!(rt; map.find(addr), Some(Spot { device, offset }), "at {addr}");
    }
    for addr in [0, 0x405F_FFFF, 0x4060_2000, 0x4120_1000, 0xFFFF_EFFF] {
        assert_eq!(rt; map.find(addr), None, "at {addr}");
    }
    Ok(())
}
