use crate::{Failed, MemSink, MemSource, ReadEnd, read_all, write_all};
use std::alloc::{AllocError, Global};
use std::test::Fail;

/// A source of this many zeros, whose listed calls fail.
fn zeros(alloc: Global, length: usize, failing: &[u32]) -> Result<MemSource, AllocError> {
    let bytes = vec![in alloc; 0u8; length]?;
    Ok(MemSource::new(bytes, Vec::from_slice(alloc, failing)?))
}

#[test]
fn reads_to_the_end_or_to_the_limit(rt: HostRuntime) -> Result<(), Fail> {
    let mut whole = zeros(rt.alloc(), 5000, &[])?;
    match read_all(rt.alloc(), &mut whole, 5000) {
        Ok(bytes) => assert_eq!(rt; bytes.len(), 5000),
        Err(_) => assert!(rt; false, "not read"),
    }
    let mut long = zeros(rt.alloc(), 5000, &[])?;
    match read_all(rt.alloc(), &mut long, 4999) {
        Err(end) => assert_eq!(rt; end, ReadEnd::TooLong),
        Ok(_) => assert!(rt; false, "read past the limit"),
    }
    Ok(())
}

#[test]
fn stops_at_a_read_fault(rt: HostRuntime) -> Result<(), Fail> {
    let mut src = zeros(rt.alloc(), 5000, &[1])?;
    match read_all(rt.alloc(), &mut src, 5000) {
        Err(end) => assert_eq!(rt; end, ReadEnd::Fault),
        Ok(_) => assert!(rt; false, "read past a fault"),
    }
    assert_eq!(rt; src.fault_count(), 1);
    assert_eq!(rt; src.rest().len(), 904);
    Ok(())
}

#[test]
fn writes_in_pieces_as_far_as_there_is_room(rt: HostRuntime) -> Result<(), Fail> {
    let mut out = MemSink::new(rt.alloc(), 10, Vec::new(rt.alloc()), 3)?;
    assert_eq!(rt; write_all(&mut out, b"abcdefgh"), Ok(()));
    assert_eq!(rt; write_all(&mut out, b"ijk"), Err(Failed));
    assert_eq!(rt; out.written(), b"abcdefghij".as_slice());
    assert_eq!(rt; out.fault_count(), 1);
    Ok(())
}
