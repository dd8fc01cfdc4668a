//! Files that are replaced and that grow, and lines that wait until they are written: what no clause says of the system.

use opentelemetry_sdk::common::now_nanos;
use opentelemetry_sdk::error::SdkError;
use opentelemetry_sdk::exporter::WriteFault;
use opentelemetry_sdk::exporter::file::{append, replace};
use opentelemetry_sdk::exporter::outbox::Outbox;
use std::alloc::Global;
use std::fs;
use std::io::{self, ErrorKind, Write};
use std::process::Abort;
use std::rt::Files;
use std::test::Fail;

/// A new folder of a test, with the paths of a file in it and of the one beside that.
#[derive(Drop)]
struct Place {
    folder: String,
    path: String,
    beside: String,
}

impl Place {
    fn new(rt: &HostRuntime, test: &str) -> Result<Place, Fail> {
        let now = now_nanos(rt)?;
        let folder = format!(in rt.alloc(); "/tmp/otel_{test}_{now}")?;
        fs::create_dir(rt, folder.as_str())?;
        let path = format!(in rt.alloc(); "{folder}/shop")?;
        let beside = format!(in rt.alloc(); "{path}.tmp")?;
        Ok(Place {
            folder,
            path,
            beside,
        })
    }

    fn remove(&self, rt: &HostRuntime) -> Result<(), Fail> {
        Ok(fs::remove_dir_all(rt, self.folder.as_str())?)
    }
}

/// Ends the process unless a file holds this text.
fn assert_holds<R: Files + Alloc + Abort>(rt: &R, path: &str, text: &str) -> Result<(), Fail> {
    let held = fs::read_to_string(rt, path)?;
    assert_eq!(rt; held.as_str(), text);
    Ok(())
}

/// Ends the process unless nothing was written for a reason of this kind.
fn assert_failed(rt: &impl Abort, answer: Result<(), WriteFault>, kind: ErrorKind) {
    match answer {
        Err(WriteFault::Failed(error)) => assert!(rt; error.kind() == kind),
        _ => panic!(rt; "no failure"),
    }
}

#[test]
fn file_is_replaced_whole(rt: HostRuntime) -> Result<(), Fail> {
    let place = Place::new(&rt, "replaced")?;
    let path = place.path.as_str();
    replace(&rt, path, b"old\n").expect(&rt, "made");
    replace(&rt, path, b"new\n").expect(&rt, "replaced");
    assert_holds(&rt, path, "new\n")?;
    assert!(rt; !fs::exists(&rt, place.beside.as_str())?);
    place.remove(&rt)
}

/// The disk is full: the file beside leads to a device that takes nothing.
#[test]
fn full_disk_leaves_the_old_file(rt: HostRuntime) -> Result<(), Fail> {
    let place = Place::new(&rt, "full")?;
    let path = place.path.as_str();
    replace(&rt, path, b"old\n").expect(&rt, "made");
    let beside = place.beside.as_str();
    rt.symlink("/dev/full", beside)?;
    let answer = replace(&rt, path, b"new\n");
    assert_failed(&rt, answer, ErrorKind::StorageFull);
    assert_holds(&rt, path, "old\n")?;
    assert!(rt; !fs::exists(&rt, beside)?);
    place.remove(&rt)
}

#[test]
fn folder_in_the_way_stays(rt: HostRuntime) -> Result<(), Fail> {
    let place = Place::new(&rt, "folder")?;
    let path = place.path.as_str();
    fs::create_dir(&rt, path)?;
    let answer = replace(&rt, path, b"new\n");
    assert_failed(&rt, answer, ErrorKind::IsADirectory);
    assert!(rt; !fs::exists(&rt, place.beside.as_str())?);
    place.remove(&rt)
}

#[test]
fn folder_beside_leaves_the_old_file(rt: HostRuntime) -> Result<(), Fail> {
    let place = Place::new(&rt, "beside")?;
    let path = place.path.as_str();
    replace(&rt, path, b"old\n").expect(&rt, "made");
    let beside = place.beside.as_str();
    fs::create_dir(&rt, beside)?;
    let answer = replace(&rt, path, b"new\n");
    assert_failed(&rt, answer, ErrorKind::IsADirectory);
    assert_holds(&rt, path, "old\n")?;
    place.remove(&rt)
}

/// Nobody may make a file in this folder of the system, and the other one isn't there.
#[test]
fn files_that_cannot_be_made(rt: HostRuntime) -> Result<(), Fail> {
    assert!(rt; replace(&rt, "/sys/shop", b"new\n").is_err());
    assert!(rt; append(&rt, "/sys/shop", b"new\n").is_err());
    let place = Place::new(&rt, "none")?;
    let path = place.path.as_str();
    let within = format!(in rt.alloc(); "{path}/shop")?;
    let answer = replace(&rt, within.as_str(), b"new\n");
    assert_failed(&rt, answer, ErrorKind::NotFound);
    place.remove(&rt)
}

#[test]
fn lines_are_put_behind_one_another(rt: HostRuntime) -> Result<(), Fail> {
    let place = Place::new(&rt, "appended")?;
    let path = place.path.as_str();
    append(&rt, path, b"one\n").expect(&rt, "made");
    append(&rt, path, b"two").expect(&rt, "a line break is put behind it");
    fs::write(&rt, path, "one\ntwo\nthr")?;
    append(&rt, path, b"four\n").expect(&rt, "the half line is closed");
    assert_holds(&rt, path, "one\ntwo\nthr\nfour\n")?;
    let answer = append(&rt, "/dev/full", b"five\n");
    assert_failed(&rt, answer, ErrorKind::StorageFull);
    place.remove(&rt)
}

/// Takes some bytes of each write, is interrupted at the first, and fails once it has no room.
#[derive(Drop)]
struct Narrow {
    taken: Vec<u8>,
    room: usize,
    was_interrupted: bool,
}

impl Write for Narrow {
    fn write(&mut self, buf: &[u8]) -> io::Result<usize> {
        if !self.was_interrupted {
            self.was_interrupted = true;
            return Err(ErrorKind::Interrupted.into());
        }
        let count = buf.len().min(self.room).min(3);
        if count == 0 {
            return Err(ErrorKind::StorageFull.into());
        }
        self.taken.extend_from_slice(&buf[..count])?;
        self.room -= count;
        Ok(count)
    }

    fn flush(&mut self) -> io::Result<()> {
        Ok(())
    }
}

/// An outbox with two lines.
fn two_lines(rt: &impl Abort, alloc: Global) -> Result<Outbox, Fail> {
    let mut outbox = Outbox::new(alloc, 6);
    assert!(rt; outbox.push(Vec::from_slice(alloc, b"one\n")?).is_ok());
    assert!(rt; outbox.push(Vec::from_slice(alloc, b"two")?).is_ok());
    Ok(outbox)
}

#[test]
fn cut_line_is_closed_and_written_again(rt: HostRuntime) -> Result<(), Fail> {
    let alloc = rt.alloc();
    let mut outbox = two_lines(&rt, alloc)?;
    assert!(rt; !outbox.has_room());
    let third = outbox.push(Vec::from_slice(alloc, b"three\n")?);
    assert!(rt; third.is_err());
    let mut out = Narrow {
        taken: Vec::new(alloc),
        room: 6,
        was_interrupted: false,
    };
    let answer = outbox.send_to(&mut out);
    assert_failed(&rt, answer, ErrorKind::StorageFull);
    assert!(rt; outbox.has_room());
    assert!(rt; outbox.push(Vec::from_slice(alloc, b"four\n")?).is_ok());
    out.room = 100;
    outbox.send_to(&mut out).expect(&rt, "room");
    assert_eq!(rt; out.taken.as_slice(), b"one\ntw\ntwo\nfour\n".as_slice());
    Ok(())
}

#[test]
fn lines_wait_for_a_file(rt: HostRuntime) -> Result<(), Fail> {
    let place = Place::new(&rt, "sent")?;
    let path = place.path.as_str();
    let mut outbox = two_lines(&rt, rt.alloc())?;
    let answer = outbox.send(&rt, "/dev/full");
    assert_failed(&rt, answer, ErrorKind::StorageFull);
    fs::write(&rt, path, "ha")?;
    outbox.send(&rt, path).expect(&rt, "sent");
    outbox.send(&rt, path).expect(&rt, "nothing waits");
    assert_holds(&rt, path, "ha\none\ntwo\n")?;
    place.remove(&rt)
}

#[test]
fn faults_of_writes_are_shown(rt: HostRuntime) -> Result<(), Fail> {
    let alloc = rt.alloc();
    let full = WriteFault::from(io::Error::from(ErrorKind::StorageFull));
    let shown = format!(in alloc;
        "{full}, {}, {}",
        SdkError::from(full),
        WriteFault::OutOfMemory
    )?;
    assert_eq!(rt;
        shown.as_str(),
        "no storage space, no storage space, out of memory"
    );
    Ok(())
}
