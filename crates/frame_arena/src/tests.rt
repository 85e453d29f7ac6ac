ghost use Rattle.std.specs.Prelude.{◌≡◌, [], ◌∷◌, take, IfOk};

use crate::FrameArena;
use page_base::OutOfMemory;
use std::alloc::Global;
use std::test::Fail;

/// Hands a value on, as to another thread.
fn handed_on<T: Send>(value: T) -> T
    ensures same { result ≡ value }
{
    value
}

/// Three frames of 64 bytes, each filled with a byte of its own, put back in the order 2, 3, 1; then one is taken again. The
/// answer is a byte of each, and one of the frame taken again.
fn three_frames(alloc: Global) -> Result<[u8; 4], OutOfMemory>
    ensures own { IfOk result (λ seen. take 3 seen ≡ 1 ∷ 2 ∷ 3 ∷ []) }
{
    let mut arena = FrameArena::new(alloc, 3, 64)?;
    let mut first = handed_on(arena.take().unwrap());
    let mut second = arena.take().unwrap();
    let mut third = arena.take().unwrap();
    first.bytes_mut().fill(1);
    second.bytes_mut().fill(2);
    third.bytes_mut().fill(3);
    let one = first.bytes()[0];
    let two = second.bytes()[63];
    let three = third.bytes()[63];
    arena.put(second);
    arena.put(third);
    arena.put(first);
    let mut arena = handed_on(arena);
    let again = arena.take().unwrap();
    let seen = again.bytes()[0];
    arena.put(again);
    arena.free();
    Ok([one, two, three, seen])
}

#[test]
fn frames_put_back_out_of_order(rt: HostRuntime) -> Result<(), Fail> {
    assert_eq!(rt; three_frames(rt.alloc())?, [1, 2, 3, 1]);
    Ok(())
}

/// An arena of one frame: taken, none left, put back, taken again.
fn one_frame(alloc: Global) -> Result<[bool; 2], OutOfMemory> {
    let mut arena = FrameArena::new(alloc, 1, 1)?;
    let only = arena.take().unwrap();
    let left = match arena.take() {
        Some(other) => {
            arena.put(other);
            true
        }
        None => false,
    };
    arena.put(only);
    let again = match arena.take() {
        Some(frame) => {
            arena.put(frame);
            true
        }
        None => false,
    };
    arena.free();
    Ok([left, again])
}

#[test]
fn none_left_until_one_is_put_back(rt: HostRuntime) -> Result<(), Fail> {
    assert_eq!(rt; one_frame(rt.alloc())?, [false, true]);
    Ok(())
}

/// A new arena's pages are zeros, and what is written to one is in that one alone.
fn two_pages(alloc: Global) -> Result<[u8; 4], OutOfMemory> {
    let mut arena = FrameArena::new(alloc, 2, 4096)?;
    let mut first = arena.take().unwrap();
    let second = arena.take().unwrap();
    let before = first.bytes()[4095];
    first.bytes_mut()[4095] = 7;
    let seen = [
        before,
        first.bytes()[4095],
        second.bytes()[0],
        second.bytes()[4095],
    ];
    arena.put(first);
    arena.put(second);
    arena.free();
    Ok(seen)
}

#[test]
fn a_write_is_in_one_page_alone(rt: HostRuntime) -> Result<(), Fail> {
    assert_eq!(rt; two_pages(rt.alloc())?, [0, 7, 0, 0]);
    Ok(())
}
