use disk_core::{Image, MemDisk, NoMemory};
use record_log::{DiskPair, Log, LogFault, MAX_PAYLOAD};
use std::alloc::Global;
use std::process::Abort;
use std::test::Fail;

// The record that decides transaction 1.1 with the one member s2.
const DECIDE: [u8; 27] = [
    4, 1, 0, 0, 0, 0, 0, 0, 0, 1, 0, 0, 0, 0, 0, 0, 0, 1, 0, 0, 0, 2, 0, 0, 0, 0x73, 0x32,
];

const MOST: u64 = 1 << 20;

fn disk_of(alloc: Global, bytes: &[u8]) -> Result<MemDisk, NoMemory> {
    MemDisk::new(alloc, Vec::from_slice(alloc, bytes)?)
}

fn open(alloc: Global, main: MemDisk, spare: MemDisk) -> Result<Log<MemDisk>, LogFault> {
    match Log::open(alloc, DiskPair { main, spare }, MOST) {
        Ok(log) => Ok(log),
        Err((fault, _)) => Err(fault),
    }
}

fn records_are(rt: &impl Abort, log: &Log<MemDisk>, want: &[&[u8]]) {
    let records = log.records().as_slice();
    assert_eq!(rt; records.len(), want.len());
    for (found, wanted) in records.iter().zip(want) {
        assert_eq!(rt; found.as_slice(), *wanted);
    }
}

// A mishap of the main disk: a call, counted from 1 at the first, and the image of a stop.
type Planned = Option<(u64, Option<Image>)>;

// A new log whose main disk fails or stops where it is planned.
fn new_log(alloc: Global, most: u64, planned: Planned) -> Result<Log<MemDisk>, LogFault> {
    let mut main = MemDisk::new(alloc, Vec::new(alloc))?;
    match planned {
        Some((call, Some(image))) if call > 0 => main.stop_at(call, image)?,
        Some((call, None)) if call > 0 => main.fail_at(call)?,
        _ => {}
    }
    let spare = MemDisk::new(alloc, Vec::new(alloc))?;
    match Log::create(alloc, DiskPair { main, spare }, most.min(1 << 30)) {
        Ok(log) => Ok(log),
        Err((fault, _)) => Err(fault),
    }
}

fn append(rt: &impl Abort, log: &mut Log<MemDisk>, payload: &[u8]) -> Result<(), LogFault> {
    assert!(rt; log.is_sound());
    assert!(rt; payload.len() as u64 <= MAX_PAYLOAD);
    log.append(payload)
}

fn reopen(log: &mut Log<MemDisk>) -> Result<(), LogFault> {
    log.reopen()
}

fn bytes_are(rt: &impl Abort, log: Log<MemDisk>, main_bytes: &[u8], spare_bytes: &[u8]) {
    let DiskPair { main, spare } = log.into_disks();
    assert_eq!(rt; main.bytes(), main_bytes);
    assert_eq!(rt; spare.bytes(), spare_bytes);
}

// What is found after a stop of the main disk with an image.
fn open_stopped(alloc: Global, log: Log<MemDisk>, image: Image) -> Result<Log<MemDisk>, LogFault> {
    let DiskPair { main, spare } = log.into_disks();
    let main = main.crashed(alloc, image)?;
    let spare = spare.crashed(alloc, Image::Drop)?;
    open(alloc, main, spare)
}

fn refused(
    rt: &impl Abort,
    alloc: Global,
    main: &[u8],
    spare: &[u8],
    want: LogFault,
) -> Result<(), NoMemory> {
    match open(alloc, disk_of(alloc, main)?, disk_of(alloc, spare)?) {
        Ok(_) => assert!(rt; false),
        Err(fault) => assert_eq!(rt; fault, want),
    }
    Ok(())
}

const NEW_SPARE: &[u8] = b"SPFLOG01\0\0\0\0\0\0\0\0\0\0";

#[test]
fn a_record_stands_in_the_file_as_published(rt: HostRuntime) -> Result<(), Fail> {
    let alloc = rt.alloc();
    let mut log = new_log(alloc, MOST, None)?;
    append(&rt, &mut log, &DECIDE)?;
    let mut want = Vec::from_slice(alloc, b"SPFLOG01\x01\x01\0\0\0\0\0\0\0\x01\x1B\0\0\0")?;
    want.extend_from_slice(&DECIDE)?;
    want.push(0)?;
    bytes_are(&rt, log, &want, NEW_SPARE);
    Ok(())
}

// A stop in a call of the second append: the new log made two calls on its main disk, and the first record four.
fn torn(
    rt: &impl Abort,
    alloc: Global,
    call: u64,
    image: Image,
    leaves: bool,
) -> Result<(), LogFault> {
    let mut log = new_log(alloc, MOST, Some((call.saturating_add(6), Some(image))))?;
    append(rt, &mut log, b"aa")?;
    assert_eq!(rt; append(rt, &mut log, b"bb"), Err(LogFault::DiskFault));
    assert!(rt; !log.is_sound());
    let log = open_stopped(alloc, log, image)?;
    if leaves {
        records_are(rt, &log, &[b"aa", b"bb"]);
    } else {
        records_are(rt, &log, &[b"aa"]);
    }
    Ok(())
}

#[test]
fn a_torn_append_leaves_the_record_whole_or_not_at_all(rt: HostRuntime) -> Result<(), Fail> {
    let alloc = rt.alloc();
    for call in 1..=4 {
        let gate_was_written = call > 2;
        torn(&rt, alloc, call, Image::Keep, gate_was_written)?;
        torn(&rt, alloc, call, Image::Drop, false)?;
        torn(&rt, alloc, call, Image::Half, false)?;
        torn(&rt, alloc, call, Image::Junk, false)?;
    }
    Ok(())
}

#[test]
fn a_log_is_opened_again_after_a_fault(rt: HostRuntime) -> Result<(), Fail> {
    let alloc = rt.alloc();
    for call in 7..=10 {
        let mut log = new_log(alloc, MOST, Some((call, None)))?;
        append(&rt, &mut log, b"aa")?;
        assert_eq!(rt; append(&rt, &mut log, b"bb"), Err(LogFault::DiskFault));
        reopen(&mut log)?;
        // Where the last sync alone failed, the gate is open.
        if call == 10 {
            records_are(&rt, &log, &[b"aa", b"bb"]);
        } else {
            records_are(&rt, &log, &[b"aa"]);
        }
        log.reserve(2)?;
        append(&rt, &mut log, b"cc")?;
    }
    Ok(())
}

#[test]
fn what_is_no_log_is_refused(rt: HostRuntime) -> Result<(), Fail> {
    let alloc = rt.alloc();
    let main: &[u8] = b"SPFLOG01\x01\x01\0\0\0\0\0\0\0\0";
    let notalog = LogFault::NotALog {
        found: *b"notalog!",
        length: 8,
    };
    let marked = LogFault::NotALog {
        found: *b"SPFLOG01",
        length: 18,
    };
    refused(&rt, alloc, b"notalog!", b"", notalog)?;
    refused(&rt, alloc, main, b"notalog!", notalog)?;
    refused(
        &rt,
        alloc,
        b"SPF",
        NEW_SPARE,
        LogFault::NotALog {
            found: *b"SPF\0\0\0\0\0",
            length: 3,
        },
    )?;
    refused(
        &rt,
        alloc,
        b"",
        b"",
        LogFault::NotALog {
            found: [0; 8],
            length: 0,
        },
    )?;
    // No file is current; both are, and neither leads; the gate behind the head is open, and no record stands there.
    refused(&rt, alloc, NEW_SPARE, NEW_SPARE, marked)?;
    refused(&rt, alloc, main, main, marked)?;
    refused(
        &rt,
        alloc,
        b"SPFLOG01\x01\x01\0\0\0\0\0\0\0\x01",
        NEW_SPARE,
        marked,
    )?;
    Ok(())
}

#[test]
fn the_greater_generation_is_read(rt: HostRuntime) -> Result<(), Fail> {
    let alloc = rt.alloc();
    let main: &[u8] = b"SPFLOG01\x01\x02\0\0\0\0\0\0\0\x01\x01\0\0\0a\0";
    let spare: &[u8] = b"SPFLOG01\x01\x03\0\0\0\0\0\0\0\x01\x01\0\0\0b\xFFc";
    let mut log = open(alloc, disk_of(alloc, main)?, disk_of(alloc, spare)?)?;
    records_are(&rt, &log, &[b"b"]);
    append(&rt, &mut log, b"d")?;
    bytes_are(
        &rt,
        log,
        main,
        b"SPFLOG01\x01\x03\0\0\0\0\0\0\0\x01\x01\0\0\0b\x01\x01\0\0\0d\0",
    );
    Ok(())
}

#[test]
fn a_log_is_full_at_its_length(rt: HostRuntime) -> Result<(), Fail> {
    let alloc = rt.alloc();
    let mut log = new_log(alloc, 26, None)?;
    assert_eq!(rt;
        append(&rt, &mut log, b"abcd"),
        Err(LogFault::Full { bytes: 27 })
    );
    assert_eq!(rt; append(&rt, &mut log, b"abc"), Ok(()));
    Ok(())
}

// Appends a record of the longest payload. One byte more is against the condition of `append`.
fn append_longest(rt: &impl Abort, alloc: Global) -> Result<(), LogFault> {
    let mut log = new_log(alloc, 1 << 24, None)?;
    let payload = vec![in alloc; 7u8; MAX_PAYLOAD as usize]?;
    append(rt, &mut log, &payload)?;
    let log = open_stopped(alloc, log, Image::Drop)?;
    records_are(rt, &log, &[&payload]);
    Ok(())
}

#[test]
fn the_longest_payload_is_taken(rt: HostRuntime) -> Result<(), Fail> {
    append_longest(&rt, rt.alloc())?;
    Ok(())
}
