//! Reading sources to their ends, and writing through std.
use std::alloc::{AllocError, Global};
use test_support::{OneByteSource, is_debugged_as};
use tk_streams::{
    ByteSource, ByteTarget, LoadFault, Source, StdSource, StdTarget, Target, load, write_all,
};

// What loading four bytes with a limit answers.
fn loaded(alloc: Global, limit: usize) -> Result<Vec<u8>, LoadFault> {
    load(alloc, &mut ByteSource::new(b"four"), limit)
}

#[test]
fn four_bytes(rt: HostRuntime) {
    assert!(rt; is_debugged_as(rt.alloc(), &loaded(rt.alloc(), 3), "Err(TooLarge)"));
    assert!(rt;
        is_debugged_as(
            rt.alloc(),
            &loaded(rt.alloc(), 4),
            "Ok([102, 111, 117, 114])"
        )
    );
}

// Whether loading five bytes with a limit of four, from a source that breaks at some call, has this
// fault, and the source broke or did not.
fn has_fault(alloc: Global, breaks_at: usize, want: LoadFault, is_broken: bool) -> bool {
    let mut source = OneByteSource::new(b"fives", breaks_at);
    load(alloc, &mut source, 4).err() == Some(want) && source.is_broken() == is_broken
}

/// The source is not read again once there are more bytes than the limit.
#[test]
fn breaks_about_the_limit(rt: HostRuntime) {
    assert!(rt; has_fault(rt.alloc(), 0, LoadFault::Device, true));
    assert!(rt; has_fault(rt.alloc(), 1, LoadFault::Device, true));
    assert!(rt; has_fault(rt.alloc(), 4, LoadFault::Device, true));
    assert!(rt; has_fault(rt.alloc(), 5, LoadFault::TooLarge, false));
}

// Whether a target of memory takes all bytes.
fn takes(alloc: Global, bytes: &[u8]) -> bool {
    let mut target = ByteTarget::new(alloc);
    write_all(&mut target, bytes).is_ok() && target.bytes() == bytes
}

#[test]
fn many_bytes(rt: HostRuntime) -> Result<(), AllocError> {
    let bytes = Vec::from_elem(rt.alloc(), 7u8, 1_200_000)?;
    assert!(rt; takes(rt.alloc(), bytes.as_slice()));
    Ok(())
}

// Whether a read into nothing takes nothing and breaks nothing, and the next one reads.
fn reads_nothing_first<S: Source>(source: &mut S) -> bool {
    source.read_some(&mut []) == Ok(0) && source.read_some(&mut [0; 4]) == Ok(2)
}

// Whether a write of nothing takes nothing and breaks nothing, and the next one writes.
fn writes_nothing_first<T: Target>(target: &mut T) -> bool {
    target.write_some(&[]) == Ok(0) && write_all(target, b"ab").is_ok() && !target.is_broken()
}

fn writer_of_std_writes_nothing_first(alloc: Global) -> bool {
    let mut written = Vec::new(alloc);
    writes_nothing_first(&mut StdTarget::new(&mut written))
}

#[test]
fn empty_reads(rt: HostRuntime) {
    assert!(rt; reads_nothing_first(&mut ByteSource::new(b"ab")));
    assert!(rt; reads_nothing_first(&mut StdSource::new(b"ab".as_slice())));
}

#[test]
fn empty_writes(rt: HostRuntime) {
    assert!(rt; writes_nothing_first(&mut ByteTarget::new(rt.alloc())));
    assert!(rt; writer_of_std_writes_nothing_first(rt.alloc()));
}
