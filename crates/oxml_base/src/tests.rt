use crate::*;
use std::fs;
use std::test::Fail;

#[test]
fn a_rule_has_its_number_and_text(rt: HostRuntime) -> Result<(), Fail> {
    let cases = [
        (1, "byte outside the alphabet"),
        (10, "syntax"),
        (25, "form left out"),
        (42, "comparison at this type"),
        (76, "mode of a written function type"),
    ];
    for (number, text) in cases {
        let rule = Rule::new(number).ok_or("a rule")?;
        assert_eq!(rt; rule.number(), number);
        assert_eq!(rt; rule.text(), text);
    }
    for number in [0, 6, 26, 60, 74, 77, 255] {
        assert_eq!(rt; Rule::new(number), None);
    }
    Ok(())
}

#[test]
fn lines_and_columns_count_from_one(rt: HostRuntime) {
    let text = b"ab\n\ncd";
    for (at, place) in [
        (0, (1, 1)),
        (2, (1, 3)),
        (3, (2, 1)),
        (4, (3, 1)),
        (6, (3, 3)),
    ] {
        assert!(rt; at as usize <= text.len());
        assert_eq!(rt; line_col(text, at), place);
    }
}

#[test]
fn a_shelf_in_memory_fails_the_calls_on_its_list(rt: HostRuntime) -> Result<(), Fail> {
    let alloc = rt.alloc();
    let mut shelf = MemShelf::new(alloc, vec![in alloc; 2, 5]?);
    let mut room = Vec::new(alloc);
    shelf.hold("a", b"12")?;
    assert_eq!(rt; shelf.load("a", &mut room, 2), Ok(()));
    assert_eq!(rt; shelf.load("a", &mut room, 1), Err(LoadErr::TooLong));
    assert_eq!(rt; shelf.load("a", &mut room, 2), Err(LoadErr::Failed));
    assert_eq!(rt; shelf.load("b", &mut room, 2), Err(LoadErr::Failed));
    assert_eq!(rt; room.as_slice(), b"12".as_slice());
    assert_eq!(rt; shelf.save("b", b"3"), Ok(()));
    assert_eq!(rt; shelf.save("b", b"4"), Err(SaveErr::Failed));
    assert_eq!(rt; shelf.get("b").ok_or("held")?, b"3".as_slice());
    assert_eq!(rt; shelf.get("c"), None);
    Ok(())
}

#[test]
fn a_sink_in_memory_takes_what_fits(rt: HostRuntime) -> Result<(), Fail> {
    let alloc = rt.alloc();
    let mut sink = MemSink::new(alloc, 5, vec![in alloc; 1]?)?;
    assert_eq!(rt; sink.put(b"ab"), Ok(()));
    assert_eq!(rt; sink.put(b"cd"), Err(Failed));
    assert_eq!(rt; sink.bytes(), b"ab".as_slice());
    assert_eq!(rt; sink.put(b"cdef"), Err(Failed));
    assert_eq!(rt; sink.bytes(), b"abcde".as_slice());
    assert_eq!(rt; sink.put(b""), Ok(()));
    Ok(())
}

#[test]
fn the_files_of_the_system_keep_what_was_saved(rt: HostRuntime) -> Result<(), Fail> {
    let alloc = rt.alloc();
    let name = "oxml_base-shelf-test";
    let mut shelf = FileShelf::new(alloc, &rt);
    let mut room = vec![in alloc; b'>']?;
    let long = vec![in alloc; b'x'; 20_000]?;
    assert_eq!(rt; shelf.save(name, long.as_slice()), Ok(()));
    assert_eq!(rt; shelf.load(name, &mut room, 19_999), Err(LoadErr::TooLong));
    assert_eq!(rt; room.as_slice(), b">".as_slice());
    assert_eq!(rt; shelf.load(name, &mut room, 20_000), Ok(()));
    assert_eq!(rt; room.len(), 20_001);
    assert_eq!(rt; shelf.save(name, b"short"), Ok(()));
    room.clear();
    assert_eq!(rt; shelf.load(name, &mut room, u64::MAX), Ok(()));
    assert_eq!(rt; room.as_slice(), b"short".as_slice());
    fs::remove_file(&rt, name)?;
    assert_eq!(rt; shelf.load(name, &mut room, 5), Err(LoadErr::Failed));
    assert_eq!(rt; shelf.save("no/such/folder", b""), Err(SaveErr::Failed));
    Ok(())
}

#[test]
fn a_channel_of_the_process_takes_bytes(rt: HostRuntime) {
    let mut out = StdSink::new(rt.stdout());
    let mut err = StdSink::new(rt.stderr());
    assert_eq!(rt; out.put(b"to standard output\n"), Ok(()));
    assert_eq!(rt; err.put(b""), Ok(()));
}
