use super::*;
use axi_link::Item;
use std::test::Fail;

#[test]
fn faults_are_told_at_the_first_byte_of_their_item(rt: HostRuntime) -> Result<(), Fail> {
    let cases: [(&[u8], Option<u32>); 5] = [
        (&[], None),
        (&[1, 0, 0, 0, 0x2A], None),
        (&[0, 0, 0, 0, 1, 0, 0], Some(5)),
        (&[0, 0, 0, 0, 1, 2, 0, 0, 0, 1], Some(5)),
        (&[0xFF], Some(0)),
    ];
    for (bytes, fault) in cases {
        assert_eq!(rt; fault_in(bytes), fault);
    }
    Ok(())
}

#[test]
fn items_are_read_as_they_are_written(rt: HostRuntime) -> Result<(), Fail> {
    assert_eq!(rt; read_items(rt.alloc(), &[])?.len(), 0);
    let items = read_items(rt.alloc(), &[1, 0, 0, 0, 0x2A, 0, 0x12, 0x34, 0x56, 0x78])?;
    let wanted = [
        Item {
            word: 42,
            control: true,
        },
        Item {
            word: 0x12345678,
            control: false,
        },
    ];
    assert_eq!(rt; items.as_slice(), &wanted[..]);
    assert_eq!(rt; item_bytes(wanted[0]), [1, 0, 0, 0, 0x2A]);
    assert_eq!(rt; item_bytes(wanted[1]), [0, 0x12, 0x34, 0x56, 0x78]);
    Ok(())
}
