//! Masks of bytes, sums of lanes, and bytes at flags.
use tk_lanes::{Flags, admits, count_byte, mask_byte, not_into};

#[test]
fn sixty_five_bytes(rt: HostRuntime) {
    let mut mask = [0u64; 2];
    mask_byte(&[3u8; 65], 3, &mut mask);
    assert!(rt; mask == [0xFFFF_FFFF_FFFF_FFFF, 1]);
    not_into(&mut mask, 65);
    assert!(rt; mask == [0, 0]);
}

#[test]
fn sixty_four_bytes(rt: HostRuntime) {
    let mut mask = [0u64; 1];
    mask_byte(&[3u8; 64], 3, &mut mask);
    assert!(rt; mask[0] == 0xFFFF_FFFF_FFFF_FFFF);
    not_into(&mut mask, 64);
    assert!(rt; mask[0] == 0);
}

#[test]
fn sixty_three_bytes(rt: HostRuntime) {
    let mut mask = [0u64; 1];
    mask_byte(&[3u8; 63], 3, &mut mask);
    assert!(rt; mask[0] == 0x7FFF_FFFF_FFFF_FFFF);
    not_into(&mut mask, 63);
    assert!(rt; mask[0] == 0);
}

#[test]
fn counted_bytes(rt: HostRuntime) {
    assert!(rt; count_byte(&[3u8; 65], 3) == 65);
    assert!(rt; count_byte(&[], 3) == 0);
    mask_byte(&[], 3, &mut []);
    not_into(&mut [], 0);
}

#[test]
fn lane_sums(rt: HostRuntime) {
    assert!(rt; !admits(0xF, 0x1));
    assert!(rt; !admits(0x300, 0xF00));
    assert!(rt; admits(0xE, 0x1));
    assert!(rt; admits(0xF00, 0xF0));
    assert!(rt; admits(0xFFFF_FFFF_FFFF_FFFF, 0));
}

// Whether flags of the bytes 9 of a column of four give three bytes, and count them.
fn give_bytes(flags: &Flags) -> bool {
    let column = [9u8, 8, 9, 9];
    if flags.len() != column.len() {
        return false;
    }
    flags.gather(&column, 0, &mut [1u8; 64]) == 3 && flags.count_byte(&column, 9) == 3
}

// Whether the flags and a copy of them give these bytes.
fn are_copied(flags: &Flags) -> bool {
    match flags.try_clone() {
        Ok(copied) => give_bytes(flags) && give_bytes(&copied),
        Err(_) => false,
    }
}

#[test]
fn bytes_at_flags(rt: HostRuntime) {
    let hold = match Flags::of_byte(rt.alloc(), &[9, 8, 9, 9], 9) {
        Ok(flags) => are_copied(&flags),
        Err(_) => false,
    };
    assert!(rt; hold);
}
