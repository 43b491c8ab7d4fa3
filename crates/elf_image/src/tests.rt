ghost use Rattle.std.specs.Prelude.{◌≤◌, length};

use crate::{ImageErr, load, write_image};
use oxml_base::{Items, NoMemory};
use std::alloc::Global;
use std::process::Abort;
use std::test::Fail;
use x64_table::{Code, Sizes};

/// The file of the code 0F 05 with the literals `hi` and a newline.
fn small_file(alloc: Global, sizes: Sizes) -> Result<Vec<u8>, NoMemory>
    requires area { sizes.area ≤ 1000 }
    requires local { sizes.local ≤ 1000 }
    requires stack { sizes.stack ≤ 1000 }
{
    file_of(alloc, &[0x0f, 0x05], sizes)
}

fn file_of(alloc: Global, code: &[u8], sizes: Sizes) -> Result<Vec<u8>, NoMemory>
    requires some { 1 ≤ length code.now }
    requires few { length code.now ≤ 1000 }
    requires area { sizes.area ≤ 1000 }
    requires local { sizes.local ≤ 1000 }
    requires stack { sizes.stack ≤ 1000 }
{
    let code = Code {
        bytes: Items::from_slice(alloc, code)?,
        literals: Items::from_slice(alloc, b"hi\n")?,
    };
    write_image(alloc, &code, sizes)
}

const SIZES: Sizes = Sizes {
    area: 3,
    local: 2,
    stack: 5,
};

#[rattlefmt::skip]
const HEADER: [u8; 64] = [
    0x7f, 0x45, 0x4c, 0x46, 2, 1, 1, 0, 0, 0, 0, 0, 0, 0, 0, 0,
    2, 0, 62, 0, 1, 0, 0, 0, 0, 0, 0x40, 0, 0, 0, 0, 0,
    64, 0, 0, 0, 0, 0, 0, 0, 0, 0, 0, 0, 0, 0, 0, 0,
    0, 0, 0, 0, 64, 0, 56, 0, 5, 0, 0, 0, 0, 0, 0, 0,
];

#[rattlefmt::skip]
const PROGRAM_HEADERS: [u8; 280] = [
    // the code: 2 bytes at 0x1000 in the file and 0x400000 in memory
    1, 0, 0, 0, 5, 0, 0, 0, 0, 0x10, 0, 0, 0, 0, 0, 0,
    0, 0, 0x40, 0, 0, 0, 0, 0, 0, 0, 0x40, 0, 0, 0, 0, 0,
    2, 0, 0, 0, 0, 0, 0, 0, 2, 0, 0, 0, 0, 0, 0, 0, 0, 0x10, 0, 0, 0, 0, 0, 0,
    // the literals: 8 bytes at 0x2000 in the file and 0x40000000 in memory
    1, 0, 0, 0, 6, 0, 0, 0, 0, 0x20, 0, 0, 0, 0, 0, 0,
    0, 0, 0, 0x40, 0, 0, 0, 0, 0, 0, 0, 0x40, 0, 0, 0, 0,
    8, 0, 0, 0, 0, 0, 0, 0, 8, 0, 0, 0, 0, 0, 0, 0, 0, 0x10, 0, 0, 0, 0, 0, 0,
    // the area: 24 bytes at 0x100000000
    1, 0, 0, 0, 6, 0, 0, 0, 0, 0, 0, 0, 0, 0, 0, 0,
    0, 0, 0, 0, 1, 0, 0, 0, 0, 0, 0, 0, 1, 0, 0, 0,
    0, 0, 0, 0, 0, 0, 0, 0, 24, 0, 0, 0, 0, 0, 0, 0, 0, 0x10, 0, 0, 0, 0, 0, 0,
    // the local stack: 16 bytes at 0x200000000
    1, 0, 0, 0, 6, 0, 0, 0, 0, 0, 0, 0, 0, 0, 0, 0,
    0, 0, 0, 0, 2, 0, 0, 0, 0, 0, 0, 0, 2, 0, 0, 0,
    0, 0, 0, 0, 0, 0, 0, 0, 16, 0, 0, 0, 0, 0, 0, 0, 0, 0x10, 0, 0, 0, 0, 0, 0,
    // the call stack: 40 bytes at 0x300000000
    1, 0, 0, 0, 6, 0, 0, 0, 0, 0, 0, 0, 0, 0, 0, 0,
    0, 0, 0, 0, 3, 0, 0, 0, 0, 0, 0, 0, 3, 0, 0, 0,
    0, 0, 0, 0, 0, 0, 0, 0, 40, 0, 0, 0, 0, 0, 0, 0, 0, 0x10, 0, 0, 0, 0, 0, 0,
];

/// Each byte of a file is what the ELF-64 tables give, written out by hand.
#[test]
fn writes_each_byte(rt: HostRuntime) -> Result<(), Fail> {
    let file = small_file(rt.alloc(), SIZES)?;
    let (headers, code, data) = parts_of(file.as_slice()).ok_or("short")?;
    assert_eq!(rt; file.len(), 0x2008);
    let mut rest = headers.iter();
    for want in HEADER.iter().chain(PROGRAM_HEADERS.iter()) {
        assert_eq!(rt; rest.next(), Some(want));
    }
    assert!(rt; rest.all(|byte| *byte == 0));
    let mut rest = code.iter();
    assert_eq!(rt; rest.next(), Some(&0x0f));
    assert_eq!(rt; rest.next(), Some(&0x05));
    assert!(rt; rest.all(|byte| *byte == 0));
    assert_eq!(rt; data, b"hi\n\0\0\0\0\0".as_slice());
    Ok(())
}

/// The headers, the code and the data of a file, each with the zeros behind it.
fn parts_of(file: &[u8]) -> Option<(&[u8], &[u8], &[u8])> {
    let headers = file.get(..0x1000)?;
    let code = file.get(0x1000..0x2000)?;
    let data = file.get(0x2000..)?;
    Some((headers, code, data))
}

/// One changed byte, and what the loader then answers.
#[test]
fn answers_the_first_fault(rt: HostRuntime) -> Result<(), Fail> {
    for (place, byte, want) in [
        (0, 0, Some(ImageErr::Magic)),
        (3, 0, Some(ImageErr::Magic)),
        (4, 1, Some(ImageErr::Kind)),
        (5, 2, Some(ImageErr::Kind)),
        (6, 0, Some(ImageErr::Kind)),
        (16, 3, Some(ImageErr::Kind)),
        (18, 3, Some(ImageErr::Kind)),
        (20, 2, Some(ImageErr::Kind)),
        (32, 65, Some(ImageErr::Kind)),
        (52, 63, Some(ImageErr::Kind)),
        (54, 57, Some(ImageErr::Kind)),
        // no program header, and nine
        (56, 0, Some(ImageErr::Kind)),
        (56, 9, Some(ImageErr::Kind)),
        // another type, and other flags
        (64, 2, Some(ImageErr::Segment(0))),
        (68, 3, Some(ImageErr::Segment(0))),
        (68, 7, Some(ImageErr::Segment(0))),
        // bytes past the end of the file, the sum above 2^64 too
        (74, 1, Some(ImageErr::Segment(0))),
        (79, 255, Some(ImageErr::Segment(0))),
        (191, 255, Some(ImageErr::Segment(2))),
        // more bytes than memory
        (96, 3, Some(ImageErr::Segment(0))),
        // more memory than 2^30 bytes
        (163, 65, Some(ImageErr::Segment(1))),
        (335, 255, Some(ImageErr::Segment(4))),
        // a place below the end of the segment before, above 2^47, and near 2^64
        (196, 0, Some(ImageErr::Segment(2))),
        (309, 128, Some(ImageErr::Segment(4))),
        (311, 255, Some(ImageErr::Segment(4))),
        // a sixth program header of zeros
        (56, 6, Some(ImageErr::Segment(5))),
        // an entry behind the code, and one in no segment
        (24, 2, Some(ImageErr::Entry)),
        (24, 255, Some(ImageErr::Entry)),
        (28, 255, Some(ImageErr::Entry)),
        // the last byte of the code, and bytes that are not looked at
        (24, 1, None),
        (7, 1, None),
        (40, 1, None),
        (88, 1, None),
        (112, 1, None),
    ] {
        let mut file = small_file(rt.alloc(), SIZES)?;
        assert!(rt; place < file.len());
        file[place] = byte;
        let answer = load(rt.alloc(), file.as_slice()).err();
        assert_eq!(rt; answer, want, "{byte} at {place}");
    }
    // The same entry is in a longer code.
    let mut file = file_of(rt.alloc(), &[0x90; 256], SIZES)?;
    assert!(rt; file.len() > 24);
    file[24] = 255;
    assert_eq!(rt; load(rt.alloc(), file.as_slice())?.entry, 0x40_00ff);
    Ok(())
}

/// The front of a file, and what the loader then answers.
#[test]
fn answers_for_each_front(rt: HostRuntime) -> Result<(), Fail> {
    for (len, want) in [
        (0, Some(ImageErr::Short)),
        (63, Some(ImageErr::Short)),
        (64, Some(ImageErr::Segment(0))),
        (100, Some(ImageErr::Segment(0))),
        (0x1001, Some(ImageErr::Segment(0))),
        (0x1002, Some(ImageErr::Segment(1))),
        (0x2007, Some(ImageErr::Segment(1))),
        (0x2008, None),
    ] {
        let file = small_file(rt.alloc(), SIZES)?;
        assert!(rt; len <= file.len());
        assert_eq!(rt; load(rt.alloc(), &file[..len]).err(), want, "{len} bytes");
    }
    Ok(())
}

/// The address, the size and the flags of each segment that a written file loads to.
fn loaded_segments(alloc: Global, sizes: Sizes) -> Result<Vec<(u64, u64, u8)>, Fail>
    requires area { sizes.area ≤ 1000 }
    requires local { sizes.local ≤ 1000 }
    requires stack { sizes.stack ≤ 1000 }
{
    let file = small_file(alloc, sizes)?;
    let image = load(alloc, file.as_slice())?;
    let mut found = Vec::new(alloc);
    for segment in image.segments.as_slice() {
        found.push((segment.at, segment.size, segment.flags))?;
    }
    Ok(found)
}

/// A part of no words is left out, and the others keep their places.
#[test]
fn leaves_out_empty_parts(rt: HostRuntime) -> Result<(), Fail> {
    let code = (0x40_0000, 2, 5);
    let data = (0x4000_0000, 8, 6);
    let area = (0x1_0000_0000, 24, 6);
    let local = (0x2_0000_0000, 16, 6);
    let stack = (0x3_0000_0000, 40, 6);
    let all = loaded_segments(rt.alloc(), SIZES)?;
    assert_eq!(rt; all.as_slice(), [code, data, area, local, stack].as_slice());
    let no_area = loaded_segments(rt.alloc(), Sizes { area: 0, ..SIZES })?;
    assert_eq!(rt; no_area.as_slice(), [code, data, local, stack].as_slice());
    let no_local = loaded_segments(rt.alloc(), Sizes { local: 0, ..SIZES })?;
    assert_eq!(rt; no_local.as_slice(), [code, data, area, stack].as_slice());
    let neither = Sizes {
        area: 0,
        local: 0,
        stack: 5,
    };
    assert_eq!(rt;
        loaded_segments(rt.alloc(), neither)?.as_slice(),
        [code, data, stack].as_slice()
    );
    let none = Sizes {
        area: 0,
        local: 0,
        stack: 0,
    };
    assert_eq!(rt;
        loaded_segments(rt.alloc(), none)?.as_slice(),
        [code, data].as_slice()
    );
    Ok(())
}
