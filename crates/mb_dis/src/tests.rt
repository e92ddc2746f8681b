use crate::text_of;

/// Expected: the text of each word, by the forms of UG984's assembly syntax.
#[test]
#[rattlefmt::skip]
fn words_have_their_texts(rt: HostRuntime) {
    for (word, text) in [
        (0x0060_F800u32, "add r3, r0, r31"), (0x8000_0000, "or r0, r0, r0"), (0x9064_0060, "sext8 r3, r4"),
        (0x9083_00E0, "clz r4, r3"), (0x90A3_01E0, "swapb r5, r3"), (0x90C3_01E2, "swaph r6, r3"), (0x9083_01E1, ".word 0x908301E1"),
        (0x3060_0005, "addik r3, r0, 5"), (0x3060_FFFF, "addik r3, r0, -1"), (0xA460_8000, "andi r3, r0, -32768"),
        (0xE8A0_7FFF, "lwi r5, r0, 32767"), (0x6463_0401, "bslli r3, r3, 1"), (0x6463_001F, "bsrli r3, r3, 31"),
        (0x9800_1800, "br r3"), (0x9BEC_F800, "brk r31, r31"), (0xB800_0004, "bri 4"), (0xB800_FFFC, "bri -4"),
        (0xB9F4_8000, "brlid r15, -32768"), (0x9C05_3000, "beq r5, r6"), (0xBC05_FFEC, "beqi r5, -20"),
        (0xB60F_0008, "rtsd r15, 8"), (0x9003_2066, "wdc.clear r3, r4"), (0xBBE2_0004, "mbar 31"),
        (0xB000_0000, "imm 0x0000"), (0xB000_BEEF, "imm 0xBEEF"),
        (0x94C0_8000, "mfs r6, rpc"), (0x94C0_8001, "mfs r6, rmsr"), (0x94C0_8003, "mfs r6, rear"),
        (0x94C0_8005, "mfs r6, resr"), (0x94C0_800B, "mfs r6, rbtr"), (0x94C0_800D, "mfs r6, redr"),
        (0x9406_C001, "mts rmsr, r6"), (0x9410_0100, "msrset r0, 256"), (0x9471_7FFF, "msrclr r3, 32767"),
        (0x6C60_0000, "get r3, rfsl0"), (0x6C60_7C0F, "tnecaget r3, rfsl15"), (0x6C60_0401, "eget r3, rfsl1"),
        (0x6C03_8000, "put r3, rfsl0"), (0x6C03_F80A, "tncaput r3, rfsl10"), (0x6C00_9000, "tput r0, rfsl0"),
        (0x4C60_2000, "getd r3, r4"), (0x4C60_2120, "ecgetd r3, r4"), (0x4C03_2400, "putd r3, r4"),
        (0x4C03_2640, "naputd r3, r4"),
        (0xFFFF_FFFF, ".word 0xFFFFFFFF"), (0x0000_0001, ".word 0x00000001"), (0x6C60_8000, ".word 0x6C608000"),
    ] {
        assert!(rt; text_of(word).as_bytes() == text.as_bytes(), "{text}");
    }
}
