use crate::{
    MAX_HARTS, Mode, Place, add, device_word, div, divu, has_bit, high_half, in_memory, low_half,
    mul, mulh, mulhsu, mulhu, place, rem, remu, sll, slt, sltu, sra, srl, sub, with_high_half,
    with_low_half,
};

// Worked out from the manual's sentences, with operands of RISC-V's public test programs.
#[test]
fn the_operations_give_the_manuals_values(rt: HostRuntime) {
    // add, sub, mul, mulh, mulhsu, mulhu
    let sums: [(u32, u32, [u32; 6]); 7] = [
        (20, 6, [26, 14, 120, 0, 0, 0]),
        (
            0xffff_ffec,
            6,
            [
                0xffff_fff2,
                0xffff_ffe6,
                0xffff_ff88,
                0xffff_ffff,
                0xffff_ffff,
                5,
            ],
        ),
        (20, 0xffff_fffa, [14, 26, 0xffff_ff88, 0xffff_ffff, 19, 19]),
        (
            0x8000_0000,
            0xffff_ffff,
            [
                0x7fff_ffff,
                0x8000_0001,
                0x8000_0000,
                0,
                0x8000_0000,
                0x7fff_ffff,
            ],
        ),
        (
            0xffff_ffff,
            0xffff_ffff,
            [0xffff_fffe, 0, 1, 0, 0xffff_ffff, 0xffff_fffe],
        ),
        (
            0xaaaa_aaab,
            0x0002_fe7d,
            [
                0xaaad_a928,
                0xaaa7_ac2e,
                0x0000_ff7f,
                0xffff_0081,
                0xffff_0081,
                0x0001_fefe,
            ],
        ),
        (
            0x0002_fe7d,
            0xaaaa_aaab,
            [
                0xaaad_a928,
                0x5558_53d2,
                0x0000_ff7f,
                0xffff_0081,
                0x0001_fefe,
                0x0001_fefe,
            ],
        ),
    ];
    for (a, b, want) in sums {
        assert_eq!(rt;
            [
                add(a, b),
                sub(a, b),
                mul(a, b),
                mulh(a, b),
                mulhsu(a, b),
                mulhu(a, b)
            ],
            want,
            "{a} {b}"
        );
    }

    // div, divu, rem, remu
    let quotients: [(u32, u32, [u32; 4]); 6] = [
        (20, 6, [3, 3, 2, 2]),
        (0xffff_ffec, 6, [0xffff_fffd, 0x2aaa_aaa7, 0xffff_fffe, 2]),
        (20, 0xffff_fffa, [0xffff_fffd, 0, 2, 20]),
        (0xffff_ffec, 0xffff_fffa, [3, 0, 0xffff_fffe, 0xffff_ffec]),
        (0x8000_0000, 0xffff_ffff, [0x8000_0000, 0, 0, 0x8000_0000]),
        (5, 0, [0xffff_ffff, 0xffff_ffff, 5, 5]),
    ];
    for (a, b, want) in quotients {
        assert_eq!(rt;
            [div(a, b), divu(a, b), rem(a, b), remu(a, b)],
            want,
            "{a} {b}"
        );
    }

    // sll, srl, sra, slt, sltu
    let shifts: [(u32, u32, [u32; 5]); 5] = [
        (20, 6, [0x500, 0, 0, 0, 0]),
        (0x8000_0001, 33, [2, 0x4000_0000, 0xc000_0000, 1, 0]),
        (0x8000_0000, 0xffff_ffff, [0, 1, 0xffff_ffff, 1, 1]),
        (5, 0, [5, 5, 5, 0, 0]),
        (
            0x7fff_ffff,
            0x8000_0000,
            [0x7fff_ffff, 0x7fff_ffff, 0x7fff_ffff, 0, 1],
        ),
    ];
    for (a, b, want) in shifts {
        assert_eq!(rt;
            [sll(a, b), srl(a, b), sra(a, b), slt(a, b), sltu(a, b)],
            want,
            "{a} {b}"
        );
    }
}

// A board with 3 pages and 2 harts.
#[test]
fn each_place_begins_and_ends_where_it_should(rt: HostRuntime) {
    let places = [
        (0x7fff_fffc, Place::Outside),
        (0x8000_0000, Place::Memory(0)),
        (0x8000_0fff, Place::Memory(0)),
        (0x8000_1000, Place::Memory(1)),
        (0x8000_2fff, Place::Memory(2)),
        (0x8000_3000, Place::Outside),
        (0xffff_ffff, Place::Outside),
        (0x01ff_fffc, Place::Outside),
        (0x0200_0000, Place::Device),
        (0x0200_0002, Place::Outside),
        (0x0200_0004, Place::Device),
        (0x0200_0008, Place::Outside),
        (0x0200_3ffc, Place::Outside),
        (0x0200_4000, Place::Device),
        (0x0200_400c, Place::Device),
        (0x0200_4010, Place::Outside),
        (0x0200_bff4, Place::Outside),
        (0x0200_bff8, Place::Device),
        (0x0200_bffc, Place::Device),
        (0x0200_bffe, Place::Outside),
        (0x0200_c000, Place::Outside),
        (0x0fff_fffc, Place::Outside),
        (0x1000_0000, Place::Device),
        (0x1000_0004, Place::Device),
        (0x1000_0008, Place::Device),
        (0x1000_000c, Place::Outside),
        (0, Place::Outside),
    ];
    for (at, want) in places {
        assert_eq!(rt; place(at, 3, 2), want, "{at}");
        assert_eq!(rt; in_memory(at, 3), matches!(want, Place::Memory(_)), "{at}");
        assert_eq!(rt; device_word(at, 2).is_some(), want == Place::Device, "{at}");
    }
    assert_eq!(rt; place(0x0200_001c, 1, MAX_HARTS), Place::Device);
    assert_eq!(rt; place(0x80ff_ffff, 4096, MAX_HARTS), Place::Memory(4095));
}

#[test]
fn bits_halves_and_modes(rt: HostRuntime) {
    let n = 0x0123_4567_89ab_cdef;
    assert_eq!(rt; (low_half(n), high_half(n)), (0x89ab_cdef, 0x0123_4567));
    assert_eq!(rt; with_low_half(n, 5), 0x0123_4567_0000_0005);
    assert_eq!(rt; with_high_half(n, 5), 0x0000_0005_89ab_cdef);
    assert!(rt; has_bit(0x8000_0000, 31) && !has_bit(0x8000_0000, 30));
    assert!(rt; !Mode::Read.conflicts_with(Mode::Read));
    assert!(rt; Mode::Read.conflicts_with(Mode::Write) && Mode::Write.conflicts_with(Mode::Read));
}
