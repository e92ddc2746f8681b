ghost use Rattle.bus_map.specs.Windows.{DoNotOverlap, FindsAsIn, spot_at};
ghost use Rattle.std.specs.Prelude.{◌≡◌, IfOk};

use std::alloc::Global;
use std::collections::BTreeMap;
use std::marker::Model;

/// The bytes of a window.
pub const WINDOW_BYTES: u32 = 4096;

/// The addresses of a device: 4,096 bytes from `base` on.
#[derive(Clone, Copy, Debug, PartialEq, Eq)]
pub struct Window {
    pub base: u32,
    /// The device's number, which the caller chooses.
    pub device: u16,
}

/// A place on the bus: a device, and the offset in its window, below 4,096.
#[derive(Clone, Copy, Debug, PartialEq, Eq)]
pub struct Spot {
    pub device: u16,
    pub offset: u32,
}

/// There was no memory for the map.
#[derive(Clone, Copy, Debug, PartialEq, Eq)]
pub struct NoMemory;

/// The windows on a bus, which are found by address in a time that grows as the logarithm of their number.
#[derive(Drop)]
pub struct Map {
    // The device of the window at each base.
    devices: BTreeMap<u32, u16>,
}

impl Model for Map {
    ghost use Rattle.std.specs.Prelude.{List};
    ghost use Rattle.bus_map.specs.Windows.{DoNotOverlap, windows_of};
    ghost use Rattle.bus_map.specs.declared.map.Window.{Window};

    ghost Value = { List Window };

    ghost view = { λ m. windows_of m.devices.entries };

    ghost invariant = { λ m. DoNotOverlap (windows_of m.devices.entries) };
}

impl Map {
    /// A map of these windows. `NoMemory` comes only for want of memory.
    pub fn build(alloc: Global, windows: &[Window]) -> Result<Map, NoMemory>
        requires { DoNotOverlap windows.now }
        ensures { IfOk result (λ m. FindsAsIn windows.now m) }
    {
        let mut devices = BTreeMap::new(alloc);
        for window in windows {
            devices
                .insert(window.base, window.device)
                .map_err(|_| NoMemory)?;
        }
        Ok(Map { devices })
    }

    /// The device whose window holds an address, with the offset in it; None exactly where no window holds it.
    pub fn find(&self, addr: u32) -> Option<Spot>
        ensures { result ≡ spot_at self.now addr }
    {
        let (base, device) = self.devices.range(..=addr).next_back()?;
        let offset = addr - *base;
        if offset < WINDOW_BYTES {
            Some(Spot {
                device: *device,
                offset,
            })
        } else {
            None
        }
    }
}
