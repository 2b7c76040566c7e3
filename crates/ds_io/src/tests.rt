//! Bytes in and out, with ample room and memory.
use crate::{MemSink, MemSource, StdSink, StdSource, read_all, write_all};
use std::test::Fail;

#[test]
fn reads_and_writes_over_memory(rt: HostRuntime) -> Result<(), Fail> {
    let alloc = rt.alloc();
    let bytes = b"0\n-1\n".as_slice().to_vec(alloc)?;
    let mut source = MemSource::new(bytes, 2, Vec::new(alloc));
    let read = read_all(alloc, &mut source, 5)?;
    assert_eq!(rt; read.len(), 5);
    assert!(rt; !read.is_empty());
    let mut sink = MemSink::new(alloc, 5, 2, Vec::new(alloc))?;
    write_all(&mut sink, read.as_slice())?;
    assert_eq!(rt; sink.taken(), b"0\n-1\n".as_slice());
    Ok(())
}

#[test]
fn writes_to_the_standard_output(rt: HostRuntime) -> Result<(), Fail> {
    let _source = StdSource::new(&rt);
    let mut sink = StdSink::new(&rt);
    write_all(&mut sink, b"some bytes\n")?;
    Ok(())
}
