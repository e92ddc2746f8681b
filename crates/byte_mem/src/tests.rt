use super::*;
use core_regs::{Order, Size};
use std::test::Fail;

#[test]
fn sizes_are_whole_pages(rt: HostRuntime) -> Result<(), Fail> {
    for size in [4096, 8192] {
        let memory = Memory::new(rt.alloc(), size)?;
        assert_eq!(rt; memory.size(), size);
    }
    for size in [0, 4095, 4097, 67_112_960, u64::MAX] {
        let fault = Memory::new(rt.alloc(), size).err();
        assert_eq!(rt; fault, Some(MemoryFault::BadSize(size)), "at {size}");
    }
    Ok(())
}

#[test]
fn the_largest_memory_has_64_mebibytes(rt: HostRuntime) -> Result<(), Fail> {
    let memory = Memory::new(rt.alloc(), 67_108_864)?;
    assert_eq!(rt; memory.size(), 67_108_864);
    assert_eq!(rt; memory.read(67_108_860, Size::Word, Order::Big), Ok(0));
    assert_eq!(rt;
        memory.read(67_108_864, Size::Word, Order::Big),
        Err(Outside(67_108_864))
    );
    Ok(())
}

#[test]
fn accesses_end_with_the_memory(rt: HostRuntime) -> Result<(), Fail> {
    let mut memory = Memory::new(rt.alloc(), 4096)?;
    assert_eq!(rt; memory.read(4092, Size::Word, Order::Big), Ok(0));
    assert_eq!(rt;
        memory.read(4096, Size::Word, Order::Big),
        Err(Outside(4096))
    );
    assert_eq!(rt;
        memory.write(4096, Size::Byte, Order::Little, 1),
        Err(Outside(4096))
    );
    assert_eq!(rt; memory.byte(4095), Some(0));
    assert_eq!(rt; memory.byte(4096), None);
    assert_eq!(rt; memory.byte(u32::MAX), None);
    Ok(())
}

#[test]
fn the_same_bytes_are_two_numbers(rt: HostRuntime) -> Result<(), Fail> {
    let mut memory = Memory::new(rt.alloc(), 4096)?;
    assert_eq!(rt; memory.fill(9, &[0x34, 0x56, 0x78]), Ok(()));
    assert_eq!(rt;
        memory.write(8, Size::Byte, Order::Big, 0xFFFF_FF12),
        Ok(())
    );
    for (read, value) in [
        (memory.read(8, Size::Word, Order::Big), 0x1234_5678),
        (memory.read(8, Size::Word, Order::Little), 0x7856_3412),
        (memory.read(8, Size::Half, Order::Big), 0x1234),
        (memory.read(10, Size::Half, Order::Big), 0x5678),
        (memory.read(10, Size::Half, Order::Little), 0x7856),
        (memory.read(11, Size::Byte, Order::Big), 0x78),
        (memory.read(11, Size::Byte, Order::Little), 0x78),
    ] {
        assert_eq!(rt; read, Ok(value));
    }
    Ok(())
}

#[test]
fn stores_write_the_low_bytes(rt: HostRuntime) -> Result<(), Fail> {
    let mut memory = Memory::new(rt.alloc(), 4096)?;
    assert_eq!(rt;
        memory.write(0, Size::Word, Order::Big, 0x0102_0304),
        Ok(())
    );
    assert_eq!(rt;
        memory.write(4, Size::Word, Order::Little, 0x0102_0304),
        Ok(())
    );
    assert_eq!(rt;
        memory.write(8, Size::Half, Order::Big, 0xFFFF_0102),
        Ok(())
    );
    assert_eq!(rt;
        memory.write(14, Size::Half, Order::Little, 0xFFFF_0102),
        Ok(())
    );
    for (addr, byte) in (0..).zip([1, 2, 3, 4, 4, 3, 2, 1, 1, 2, 0, 0, 0, 0, 2, 1, 0]) {
        assert_eq!(rt; memory.byte(addr), Some(byte), "at {addr}");
    }
    Ok(())
}

/// Whether these are the bytes from an address on.
fn has_bytes(memory: &Memory, addr: u32, bytes: &[u8]) -> bool {
    (addr..)
        .zip(bytes)
        .all(|(addr, byte)| memory.byte(addr) == Some(*byte))
}

#[test]
fn accesses_meet_the_border_of_pages(rt: HostRuntime) -> Result<(), Fail> {
    let mut memory = Memory::new(rt.alloc(), 8192)?;
    for done in [
        memory.write(4092, Size::Word, Order::Big, 0x0102_0304),
        memory.write(4096, Size::Word, Order::Little, 0x0506_0708),
    ] {
        assert_eq!(rt; done, Ok(()));
    }
    assert!(rt; has_bytes(&memory, 4090, &[0, 0, 1, 2, 3, 4, 8, 7, 6, 5, 0, 0]));
    for (read, value) in [
        (memory.read(4092, Size::Word, Order::Big), 0x0102_0304),
        (memory.read(4092, Size::Word, Order::Little), 0x0403_0201),
        (memory.read(4094, Size::Half, Order::Big), 0x0304),
        (memory.read(4094, Size::Half, Order::Little), 0x0403),
        (memory.read(4095, Size::Byte, Order::Big), 0x04),
        (memory.read(4096, Size::Byte, Order::Little), 0x08),
        (memory.read(4096, Size::Half, Order::Big), 0x0807),
        (memory.read(4096, Size::Half, Order::Little), 0x0708),
        (memory.read(4096, Size::Word, Order::Big), 0x0807_0605),
        (memory.read(4096, Size::Word, Order::Little), 0x0506_0708),
    ] {
        assert_eq!(rt; read, Ok(value));
    }
    for done in [
        memory.write(4093, Size::Byte, Order::Big, 0x15),
        memory.write(4094, Size::Half, Order::Big, 0x1112),
        memory.write(4096, Size::Half, Order::Little, 0x1314),
        memory.write(4098, Size::Byte, Order::Little, 0x16),
    ] {
        assert_eq!(rt; done, Ok(()));
    }
    assert!(rt;
        has_bytes(
            &memory,
            4090,
            &[0, 0, 1, 0x15, 0x11, 0x12, 0x14, 0x13, 0x16, 5, 0, 0]
        )
    );
    Ok(())
}

#[test]
fn a_copy_goes_over_pages(rt: HostRuntime) -> Result<(), Fail> {
    let mut memory = Memory::new(rt.alloc(), 12_288)?;
    let mut bytes = Vec::new(rt.alloc());
    for k in 0..4099u32 {
        bytes.push((k % 251) as u8)?;
    }
    assert_eq!(rt; memory.fill(4094, bytes.as_slice()), Ok(()));
    assert!(rt; has_bytes(&memory, 4094, bytes.as_slice()));
    assert!(rt; has_bytes(&memory, 4092, &[0, 0, 0, 1, 2]));
    // byte 4,098 of the copy is 4,098 modulo 251, which is 82
    assert!(rt; has_bytes(&memory, 8191, &[81, 82, 0, 0]));
    Ok(())
}

#[test]
fn a_copy_begins_and_ends_anywhere(rt: HostRuntime) -> Result<(), Fail> {
    for start in 4093..4098u32 {
        for count in 0..10usize {
            let mut memory = Memory::new(rt.alloc(), 8192)?;
            let bytes = [1, 2, 3, 4, 5, 6, 7, 8, 9];
            assert_eq!(rt; memory.fill(start, &bytes[..count]), Ok(()));
            assert!(rt; has_bytes(&memory, start - 2, &[0, 0]));
            assert!(rt; has_bytes(&memory, start, &bytes[..count]));
            assert!(rt; has_bytes(&memory, start + count as u32, &[0, 0, 0, 0]));
        }
    }
    Ok(())
}

#[test]
fn a_copy_past_the_end_changes_nothing(rt: HostRuntime) -> Result<(), Fail> {
    let mut memory = Memory::new(rt.alloc(), 4096)?;
    assert_eq!(rt; memory.fill(4094, &[1, 2, 3]), Err(Outside(4094)));
    assert_eq!(rt; memory.byte(4094), Some(0));
    assert_eq!(rt; memory.fill(4094, &[1, 2]), Ok(()));
    assert_eq!(rt; memory.read(4094, Size::Half, Order::Big), Ok(0x0102));
    assert_eq!(rt; memory.fill(u32::MAX, &[]), Ok(()));
    Ok(())
}
