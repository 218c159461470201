// Bindings, rectangles, extents and special constants at their limits.
use bindings::binding::{Buffer, BufferBinding};
use bindings::constants::SpecialConstants;
use bindings::extent::Extent;
use bindings::rect::Rect;
use command_list::fault::Number;
use std::test::Fail;

// The address and size of a binding, if it has them.
fn resolved(address: u64, whole: u64, offset: u64, size: u64) -> Option<(u64, u32)> {
    let buffer = Buffer {
        address,
        size: whole,
    };
    let binding = BufferBinding {
        buffer,
        offset,
        size,
    };
    let there = binding.resolve().ok()?;
    Some((there.address, there.size))
}

#[test]
fn bindings_within_their_buffers(rt: HostRuntime) {
    assert!(rt; resolved(65536, 4096, 256, 0) == Some((65792, 3840)));
    assert!(rt; resolved(65536, 4096, 4096, 0) == Some((69632, 0)));
    assert!(rt; resolved(65536, 4096, 4097, 1).is_none());
    assert!(rt; resolved(0, 4096, 0, 8192) == Some((0, 8192)));
    assert!(rt; resolved(0, 4_294_967_296, 0, 0).is_none());
    assert!(rt; resolved(0, 4_294_967_296, 1, 0) == Some((1, 4_294_967_295)));
    assert!(rt;
        resolved(18_446_744_073_709_551_615, 1, 0, 1) == Some((18_446_744_073_709_551_615, 1))
    );
    assert!(rt; resolved(18_446_744_073_709_551_615, 1, 1, 1).is_none());
}

#[test]
fn rectangles_end_below_2_to_the_31(rt: HostRuntime) -> Result<(), Fail> {
    let rect = Rect {
        x: 1,
        y: 2,
        w: 2_147_483_646,
        h: 3,
    };
    let b = rect.bounds()?;
    assert_eq!(rt;
        (b.left, b.top, b.right, b.bottom),
        (1, 2, 2_147_483_647, 5)
    );
    let rect = Rect {
        x: 1,
        y: 0,
        w: 2_147_483_647,
        h: 0,
    };
    assert_eq!(rt; rect.bounds().err(), Some(Number::Extent.at(0)));
    Ok(())
}

#[test]
fn extents_and_their_patterns(rt: HostRuntime) -> Result<(), Fail> {
    assert!(rt; Extent::new(0, 1).is_err() && Extent::new(1, 0).is_err());
    assert!(rt; Extent::new(16385, 1).is_err() && Extent::new(1, 16385).is_err());
    assert!(rt; Extent::new(1, 16384).is_ok() && Extent::new(16384, 1).is_ok());
    assert_eq!(rt;
        Extent::new(640, 480)?.viewport(),
        [0, 0, 0x4420_0000, 0x43F0_0000, 0, 0x3F80_0000]
    );
    Ok(())
}

#[test]
fn signs_of_special_constants(rt: HostRuntime) {
    let last = SpecialConstants::from_draw(4_294_967_295, 3);
    assert_eq!(rt; last.first_vertex_or_x, -1);
    assert_eq!(rt; last.words(), [4_294_967_295, 3, 0]);
    let far = SpecialConstants::from_dispatch(2_147_483_648, 2, 1);
    assert_eq!(rt; far.first_vertex_or_x, -2_147_483_648);
    assert_eq!(rt; far.words(), [2_147_483_648, 2, 1]);
}
