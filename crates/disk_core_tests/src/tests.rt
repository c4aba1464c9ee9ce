use disk_core::{Disk, Failed, Image, MemDisk, NoMemory, open_file_disk};
use std::alloc::Global;
use std::process::Abort;
use std::test::Fail;

fn disk_of(alloc: Global, bytes: &[u8]) -> Result<MemDisk, NoMemory> {
    MemDisk::new(alloc, Vec::from_slice(alloc, bytes)?)
}

fn write(rt: &impl Abort, disk: &mut MemDisk, at: u64, bytes: &[u8]) -> Result<bool, NoMemory> {
    disk.ready(bytes.len() as u64)?;
    assert!(rt; at as usize <= disk.bytes().len());
    Ok(disk.write_at(at, bytes).is_ok())
}

fn cut(rt: &impl Abort, disk: &mut MemDisk, len: u64) -> Result<bool, NoMemory> {
    disk.ready(0)?;
    assert!(rt; len as usize <= disk.bytes().len());
    Ok(disk.cut(len).is_ok())
}

fn sync(disk: &mut MemDisk) -> Result<bool, NoMemory> {
    disk.ready(0)?;
    Ok(disk.sync().is_ok())
}

fn left_is(
    rt: &impl Abort,
    alloc: Global,
    disk: &MemDisk,
    image: Image,
    want: &[u8],
) -> Result<(), NoMemory> {
    let left = disk.crashed(alloc, image)?;
    assert_eq!(rt; left.bytes(), want);
    Ok(())
}

#[test]
fn a_stop_leaves_its_image(rt: HostRuntime) -> Result<(), Fail> {
    let alloc = rt.alloc();
    let mut disk = disk_of(alloc, b"abcdef")?;
    assert!(rt; write(&rt, &mut disk, 4, b"xyz")?);
    left_is(&rt, alloc, &disk, Image::Keep, b"abcdxyz")?;
    left_is(&rt, alloc, &disk, Image::Drop, b"abcdef")?;
    left_is(&rt, alloc, &disk, Image::Half, b"abcdxf\0")?;
    left_is(&rt, alloc, &disk, Image::Junk, b"abcd\xFF\xFF\xFF")?;
    assert!(rt; sync(&mut disk)?);
    left_is(&rt, alloc, &disk, Image::Drop, b"abcdxyz")?;
    assert!(rt; cut(&rt, &mut disk, 1)?);
    left_is(&rt, alloc, &disk, Image::Keep, b"a")?;
    left_is(&rt, alloc, &disk, Image::Drop, b"abcdxyz")?;
    Ok(())
}

// What the first three changing calls of a disk answer: o where one is done, x where it fails, ! where the disk has stopped in it.
fn answers_are(rt: &impl Abort, disk: &mut MemDisk, want: &[u8; 3]) -> Result<(), NoMemory> {
    for answer in want {
        let done = write(rt, disk, 0, b"a")?;
        let found = match (done, disk.stopped()) {
            (true, _) => b'o',
            (false, None) => b'x',
            (false, Some(_)) => b'!',
        };
        assert_eq!(rt; found, *answer);
    }
    Ok(())
}

#[test]
fn a_call_fails_where_it_was_planned(rt: HostRuntime) -> Result<(), Fail> {
    let alloc = rt.alloc();
    let mut disk = disk_of(alloc, b"")?;
    disk.fail_at(2)?;
    answers_are(&rt, &mut disk, b"oxo")?;
    assert_eq!(rt; disk.made(), 3);
    // A stop counts before a failure, and a later stop before an earlier one. All of them are spent.
    disk.stop_at(2, Image::Keep)?;
    disk.stop_at(2, Image::Half)?;
    disk.fail_at(2)?;
    disk.fail_at(4)?;
    answers_are(&rt, &mut disk, b"o!!")?;
    assert_eq!(rt; disk.stopped(), Some(Image::Half));
    // A stopped disk fails in each call, and counts none.
    assert_eq!(rt; disk.made(), 5);
    assert_eq!(rt; disk.length(), Err(Failed));
    let mut room = [0; 2];
    assert_eq!(rt; disk.read(0, &mut room), Err(Failed));
    // What is planned outlives the stop.
    let mut started = disk.crashed(alloc, Image::Keep)?;
    left_is(&rt, alloc, &started, Image::Drop, b"a")?;
    assert_eq!(rt; started.stopped(), None);
    answers_are(&rt, &mut started, b"oxo")?;
    Ok(())
}

#[test]
fn what_is_sure_stays_through_many_changes(rt: HostRuntime) -> Result<(), Fail> {
    let alloc = rt.alloc();
    let mut disk = disk_of(alloc, b"ab")?;
    assert!(rt; write(&rt, &mut disk, 2, b"cd")?);
    assert!(rt; cut(&rt, &mut disk, 3)?);
    assert!(rt; sync(&mut disk)?);
    assert!(rt; cut(&rt, &mut disk, 1)?);
    assert!(rt; write(&rt, &mut disk, 1, b"xyz")?);
    left_is(&rt, alloc, &disk, Image::Keep, b"axyz")?;
    left_is(&rt, alloc, &disk, Image::Drop, b"abc")?;
    left_is(&rt, alloc, &disk, Image::Half, b"ax\0\0")?;
    left_is(&rt, alloc, &disk, Image::Junk, b"a\xFF\xFF\xFF")?;
    Ok(())
}

#[test]
fn a_real_file_keeps_what_was_synced(rt: HostRuntime) -> Result<(), Fail> {
    let path = "disk_core_test_file";
    {
        let mut disk = open_file_disk(&rt, path)?;
        disk.cut(0)?;
        disk.ready(5)?;
        disk.write_at(0, b"hello")?;
        disk.sync()?;
    }
    let mut disk = open_file_disk(&rt, path)?;
    let length = disk.length()?;
    let mut room = [0; 8];
    let count = disk.read(1, &mut room)?;
    std::fs::remove_file(&rt, path)?;
    assert_eq!(rt; length, 5);
    assert_eq!(rt; count, 4);
    assert_eq!(rt; room, *b"ello\0\0\0\0");
    Ok(())
}
