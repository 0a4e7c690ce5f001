//! Files as a keeper. It tells nothing of their bytes.

ghost use Rattle.std.specs.Prelude.{◌≡◌, ◌≢◌, ◌++◌, None, Some, Ok, Err, IfOk, IfErr, IfSome, codes, take, string_bytes};
ghost use Rattle.std.specs.IoError.{error_kind};
ghost use Rattle.jn_base.specs.Counts.{bumped};
ghost use Rattle.jn_host.specs.declared.KeepFailure.TheVariants.{Failed as CallFailed, Memory};

use crate::fault_plan::failed;
use crate::{KeepFailure, Keeper};
use std::alloc::{AllocError, Global};
use std::fs::{File, OpenFile};
use std::io::{ErrorKind, Read, Write};
use std::rt::Files;
use std::{fs, io};

/// The most bytes that are loaded of a file: one more than the longest image has, so that a file
/// that is longer is seen to be.
pub const MOST_LOADED: u64 = 10_261_075;

/// Keeps each name in the file of that name: `FileKeeper::new(&rt)`.
#[derive(Drop)]
pub struct FileKeeper<R> {
    files: R,
    faults: u64,
}

impl<R> FileKeeper<R> {
    /// A keeper over these files.
    pub fn new(files: R) -> FileKeeper<R>
        ensures files { result.files ≡ files }
        ensures faults { result.faults ≡ 0 }
    {
        FileKeeper { files, faults: 0 }
    }
}

/// Why a call on a file failed. Want of memory is no fault of the file.
fn failure_of(error: io::Error, faults: &mut u64) -> KeepFailure
    ensures failed { error_kind error ≢ ErrorKind.OutOfMemory → (result ≡ CallFailed) × (faults.new ≡ bumped faults.old) }
    ensures memory { error_kind error ≡ ErrorKind.OutOfMemory → (result ≡ Memory) × (faults.new ≡ faults.old) }
{
    if error.kind() == ErrorKind::OutOfMemory {
        KeepFailure::Memory
    } else {
        failed(faults).into()
    }
}

/// What an opening found: no file only where there is none of that name.
fn opened<F>(opening: io::Result<F>, faults: &mut u64) -> Result<Option<F>, KeepFailure>
    ensures found { IfOk opening (λ file. (result ≡ Ok (Some file)) × (faults.new ≡ faults.old)) }
    ensures missing { IfErr opening (λ e. error_kind e ≡ ErrorKind.NotFound → (result ≡ Ok None) × (faults.new ≡ faults.old)) }
    ensures memory { IfErr opening (λ e. error_kind e ≡ ErrorKind.OutOfMemory → (result ≡ Err Memory) × (faults.new ≡ faults.old)) }
    ensures failed { IfErr opening (λ e. error_kind e ≢ ErrorKind.NotFound → error_kind e ≢ ErrorKind.OutOfMemory →
        (result ≡ Err CallFailed) × (faults.new ≡ bumped faults.old)) }
{
    match opening {
        Ok(file) => Ok(Some(file)),
        Err(error) if error.kind() == ErrorKind::NotFound => Ok(None),
        Err(error) => Err(failure_of(error, faults)),
    }
}

/// The first bytes of a file, at most `MOST_LOADED`.
fn read_front<F: Read + Drop>(alloc: Global, file: F) -> io::Result<Vec<u8>>
    ensures front { IfOk result (λ v. IfSome (F.remaining file) (λ bytes. v.items ≡ take 10261075 bytes)) }
{
    let mut bytes = Vec::new(alloc);
    file.take(MOST_LOADED).read_to_end(&mut bytes)?;
    Ok(bytes)
}

/// The name of the file that is written beside a name before it takes its place.
fn beside(alloc: Global, name: &str) -> Result<String, AllocError>
    ensures { IfOk result (λ s. string_bytes s ≡ name.now ++ codes ".new") }
{
    let mut text = String::from_str(alloc, name)?;
    text.push_str(".new")?;
    Ok(text)
}

/// Writes a file that isn't there yet, to its last byte and as far as the disk.
fn write_new<R: Files>(files: &R, name: &str, bytes: &[u8]) -> io::Result<()> {
    let mut file = File::create_new(files, name)?;
    file.write_all(bytes)?;
    file.sync_all()
}

/// Makes the name hold the bytes by way of the file beside it. Where a call fails the name holds what it held.
fn replace<R: Files>(files: &R, beside: &str, name: &str, bytes: &[u8]) -> io::Result<()> {
    write_new(files, beside, bytes)?;
    fs::rename(files, beside, name)
}

impl<R: Files + AllocGlobal> Keeper for FileKeeper<R> {
    ghost kept = { λ _. None };

    ghost faults = { λ s. s.faults };

    /// A file that isn't there holds nothing. One that is there and can't be opened or read is a call that failed.
    fn load(&mut self, alloc: Global, name: &str) -> Result<Option<Vec<u8>>, KeepFailure> {
        let Some(file) = opened(File::open(&self.files, name), &mut self.faults)? else {
            return Ok(None);
        };
        match read_front(alloc, file) {
            Ok(bytes) => Ok(Some(bytes)),
            Err(error) => Err(failure_of(error, &mut self.faults)),
        }
    }

    /// Writes a whole file beside the name, and then gives it the name, so that the name never holds a part of the
    /// bytes. The file beside is the keeper's own: an old one, which a program that was killed has left, is removed.
    fn save(&mut self, name: &str, bytes: &[u8]) -> Result<(), KeepFailure> {
        let beside = beside(self.files.alloc(), name)?;
        let _ = fs::remove_file(&self.files, beside.as_str());
        match replace(&self.files, beside.as_str(), name, bytes) {
            Ok(()) => Ok(()),
            Err(error) => {
                let _ = fs::remove_file(&self.files, beside.as_str());
                Err(failure_of(error, &mut self.faults))
            }
        }
    }
}
