use dice_io::{
    Failed, MemorySink, MemorySource, ReadFail, RealSink, RealSource, Sink, Source, SureSink,
    SureSource, read_all, write_all,
};
use std::test::Fail;

pub(crate) const ROW: &[u8] = b"commit 1\nopen t 1\nr 1 action 82\n";

fn row(rt: &HostRuntime) -> Result<Vec<u8>, Fail> {
    let mut bytes = Vec::new(rt.alloc());
    bytes.extend_from_slice(ROW)?;
    Ok(bytes)
}

#[test]
fn reads_to_the_end_or_the_limit(rt: HostRuntime) -> Result<(), Fail> {
    let alloc = rt.alloc();
    for (piece, limit) in [(10, 100), (1, 31), (100, 7), (10, 10), (3, 0)] {
        let mut source = MemorySource::new(row(&rt)?, piece, Vec::new(alloc));
        let bytes = read_all(alloc, &mut source, limit)?;
        assert!(rt; bytes.as_slice() == &ROW[..limit.min(ROW.len())]);
    }
    let mut source = SureSource::new(row(&rt)?);
    assert!(rt; read_all(alloc, &mut source, 8)?.as_slice() == b"commit 1".as_slice());
    assert!(rt; read_all(alloc, &mut source, 100)?.as_slice() == &ROW[8..]);
    assert!(rt; read_all(alloc, &mut source, 100)?.is_empty());
    Ok(())
}

#[test]
fn fails_at_the_chosen_calls(rt: HostRuntime) -> Result<(), Fail> {
    let alloc = rt.alloc();
    let mut source = MemorySource::new(row(&rt)?, 10, vec![in alloc; 1u64; 1]?);
    assert!(rt; read_all(alloc, &mut source, 100).err() == Some(ReadFail::Failed));
    assert!(rt; source.faults() == 1);
    assert!(rt; read_all(alloc, &mut source, 100)?.as_slice() == &ROW[10..]);

    let mut sink = MemorySink::new(alloc, 10, vec![in alloc; 1u64; 1]?, 100)?;
    assert!(rt; write_all(&mut sink, ROW) == Err(Failed));
    assert!(rt; sink.bytes() == b"commit 1\no".as_slice() && sink.faults() == 1);
    write_all(&mut sink, &ROW[10..])?;
    assert!(rt; sink.bytes() == ROW && sink.faults() == 1);
    Ok(())
}

// The second call reads to the end, and the third sees the end.
#[test]
fn asks_for_a_piece_and_hands_the_whole_rest(rt: HostRuntime) -> Result<(), Fail> {
    let alloc = rt.alloc();
    for (call, last) in [(0, false), (1, false), (2, false), (3, true)] {
        let bytes = vec![in alloc; 7u8; 70_000]?;
        let mut source = MemorySource::new(bytes, 100_000, vec![in alloc; call; 1]?);
        assert!(rt; read_all(alloc, &mut source, 4_194_305).is_ok() == last);
    }
    let mut sink = MemorySink::new(alloc, 100_000, vec![in alloc; 1u64; 1]?, 70_000)?;
    write_all(&mut sink, vec![in alloc; 7u8; 70_000]?.as_slice())?;
    Ok(())
}

#[test]
fn sinks_have_room(rt: HostRuntime) -> Result<(), Fail> {
    let alloc = rt.alloc();
    let mut sink = MemorySink::new(alloc, 10, Vec::new(alloc), 4)?;
    assert!(rt; write_all(&mut sink, b"abcde") == Err(Failed));
    assert!(rt; sink.bytes() == b"abcd".as_slice() && sink.faults() == 1);
    assert!(rt; sink.write(b"") == Ok(0));

    let mut sink = SureSink::new(alloc, 4)?;
    write_all(&mut sink, b"abc")?;
    write_all(&mut sink, b"d")?;
    assert!(rt; sink.bytes() == Some(b"abcd".as_slice()));
    write_all(&mut sink, b"e")?;
    assert!(rt; sink.bytes() == None);
    Ok(())
}

#[test]
fn stands_over_the_standard_streams(rt: HostRuntime) -> Result<(), Fail> {
    let mut into = row(&rt)?;
    let mut source = RealSource::new(&rt);
    let n = source.read(&mut into, 1)?;
    assert!(rt; n <= 1 && into.len() == ROW.len() + n);
    let mut sink = RealSink::new(&rt);
    write_all(&mut sink, b"a line on standard output\n")?;
    assert!(rt; sink.write(b"") == Ok(0));
    Ok(())
}
