//! Reading all of a source and writing all of an output, with devices that fail and that don't.

use ly_print::{MemSink, MemSource, ReadFault, WriteFault, read_whole, write_whole};
use std::alloc::{AllocError, Global};
use std::test::Fail;

const BYTES: &[u8] = b"1+2*3";

/// Whether a source that doesn't fail is read to its end.
fn is_read_whole(alloc: Global) -> Result<bool, ReadFault> {
    let read = read_whole(alloc, &mut MemSource::new(BYTES))?;
    Ok(read.as_slice() == BYTES)
}

/// Whether a sink takes all bytes.
fn takes_all(mut sink: MemSink) -> bool {
    let written = write_whole(&mut sink, BYTES);
    written.is_ok() && sink.bytes() == BYTES
}

/// Whether a sink that was made with capacity for all bytes takes them.
fn has_room(alloc: Global) -> Result<bool, AllocError> {
    Ok(takes_all(MemSink::with_room(alloc, BYTES.len())?))
}

/// Whether a source, a sink and a sink with capacity work.
fn are_whole(alloc: Global) -> Result<bool, ReadFault> {
    Ok(is_read_whole(alloc)? && takes_all(MemSink::new(alloc)) && has_room(alloc)?)
}

/// Whether a failure of the source after this many bytes is reported.
fn tells_of_a_failed_read(alloc: Global, count: usize) -> bool {
    let read = read_whole(alloc, &mut MemSource::failing_after(BYTES, count));
    matches!(read, Err(ReadFault::Read))
}

/// Whether a failure of the sink after this many bytes is reported, and exactly these were written.
fn tells_of_a_failed_write(alloc: Global, count: usize) -> bool {
    let mut sink = MemSink::failing_after(alloc, count);
    let written = write_whole(&mut sink, BYTES);
    written == Err(WriteFault { written: count }) && Some(sink.bytes()) == BYTES.get(..count)
}

/// The first number of bytes below five after which a failure isn't reported.
fn untold(alloc: Global) -> Option<usize> {
    for count in 0..5usize {
        if !tells_of_a_failed_read(alloc, count) || !tells_of_a_failed_write(alloc, count) {
            return Some(count);
        }
    }
    None
}

#[test]
fn devices_to_their_end(rt: HostRuntime) -> Result<(), Fail> {
    assert!(rt; are_whole(rt.alloc())?);
    Ok(())
}

/// Each device fails after a number of bytes below five.
#[test]
fn devices_to_their_failure(rt: HostRuntime) {
    assert_eq!(rt; untold(rt.alloc()), None);
}
