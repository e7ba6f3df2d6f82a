//! Files of the current folder, and standard output. The shelf works over any opener of files and the sink over any
//! writer, and both are proved for all of them. The contents of the folder and of std's writer are unknown, so only for
//! those two the bytes are not proved.
ghost use Rattle.std.specs.Prelude.{◌≡◌, ℕ, List, None, IfOk, string_bytes};
ghost use Rattle.std.specs.Option.{option_map};
ghost use Rattle.kat_io.specs.KnownContent.{KnownContent, Unknown, known_left};
ghost use Rattle.kat_io.specs.Gets.{GetsFrom, IsCounted};
ghost use Rattle.kat_io.specs.Outside.{Puts, HasCause, faults_after};
ghost use Rattle.kat_io.specs.Folder.{Opens, count_after};

use crate::mem_shelf::is_past;
use crate::mem_sink::more;
use crate::outside::{Failed, GetFault, Shelf, Sink};
use std::alloc::Global;
use std::io::{Printer, Read, Write};
use std::rt::Files;
use std::{fs, io};

/// Opens files by name.
pub trait Opener {
    /// An open file.
    type File: Read + Drop;

    /// What is known about the content under a name.
    ghost content: { Self → List ℕ → KnownContent };

    /// Opens the file of the name. If the content is known, the file has this content.
    fn open(&self, name: &str) -> io::Result<Self::File>
        ensures { IfOk result (λ file. Opens (content self.now name.now) (Self.File.remaining file)) };
}

/// The files of the current folder. Their contents are unknown.
#[derive(Drop)]
pub struct Folder<'a, R: Files> {
    rt: &'a R,
}

impl<'a, R: Files> Opener for Folder<'a, R> {
    type File = R::File;

    ghost content = { λ folder name. Unknown };

    fn open(&self, name: &str) -> io::Result<R::File>
        ensures { IfOk result (λ file. Opens Unknown (R.File.remaining file)) }
    {
        fs::open(self.rt, name)
    }
}

/// A shelf of the files of an opener, by their names.
#[derive(Drop)]
pub struct FileShelf<O: Opener> {
    opener: O,
    faults: u64,
    last: Option<String>,
}

/// A shelf of the files of the current folder, by their names.
pub type FolderShelf<'a, R> = FileShelf<Folder<'a, R>>;

impl<'a, R: Files> FileShelf<Folder<'a, R>> {
    /// Returns a shelf with no faults so far.
    pub fn new(rt: &'a R) -> FileShelf<Folder<'a, R>>
        ensures faults { result.faults ≡ 0 }
        ensures last { result.last ≡ None }
    {
        FileShelf {
            opener: Folder { rt },
            faults: 0,
            last: None,
        }
    }
}

// Returns all bytes that the reader has left, unless they are more than the limit. Reads up to one piece past the
// limit. Each turn takes at least one byte, so a content that is not complete after all turns is larger than any
// vector.
fn read_within<R: Read>(
    reader: &mut R,
    alloc: Global,
    limit: Option<u64>,
) -> Result<Vec<u8>, GetFault>
    ensures { GetsFrom (known_left (R.remaining reader.old)) result limit }
{
    let mut bytes = Vec::new(alloc);
    let mut piece = [0u8; 4096];
    for _ in 0..u64::MAX {
        let Ok(count) = reader.read(&mut piece) else {
            return Err(GetFault::Failed);
        };
        if count == 0 {
            return Ok(bytes);
        }
        bytes.extend_from_slice(&piece[..count])?;
        if is_past(bytes.len(), limit) {
            return Err(GetFault::TooLong);
        }
    }
    Err(GetFault::NoMemory)
}

fn read_file<O: Opener>(
    opener: &O,
    alloc: Global,
    name: &str,
    limit: Option<u64>,
) -> Result<Vec<u8>, GetFault>
    ensures { GetsFrom (O.content opener.now name.now) result limit }
{
    let mut file = opener.open(name).map_err(|_| GetFault::Failed)?;
    read_within(&mut file, alloc, limit)
}

impl<O: Opener> Shelf for FileShelf<O> {
    ghost content = { λ s. O.content s.opener };

    ghost faults = { λ s. s.faults };

    ghost last_failed = { λ s. option_map string_bytes s.last };

    fn get(&mut self, alloc: Global, name: &str, limit: Option<u64>) -> Result<Vec<u8>, GetFault>
        ensures cause { IsCounted result name.now self.old.faults self.new.faults (option_map string_bytes self.old.last) (option_map string_bytes self.new.last) }
        ensures whole { GetsFrom (O.content self.old.opener name.now) result limit }
        ensures kept { (other : List ℕ) → O.content self.new.opener other ≡ O.content self.old.opener other }

        // A fault is counted once.
        ensures once { self.new.faults ≡ count_after result self.old.faults }
    {
        let copy = String::from_str(alloc, name)?;
        let got = read_file(&self.opener, alloc, name, limit);
        if let Err(GetFault::Failed) = got {
            self.faults = more(self.faults);
            self.last = Some(copy);
        }
        got
    }
}

// Writes a prefix of the piece. A writer that takes nothing of a piece that is not empty has failed.
fn write_some<W: Write>(writer: &mut W, piece: &[u8]) -> Result<usize, Failed>
    ensures { Puts (W.contents writer.old) (W.contents writer.new) result piece.now }
{
    match writer.write(piece) {
        Ok(count) if count > 0 || piece.is_empty() => Ok(count),
        _ => Err(Failed),
    }
}

/// A sink over a writer.
#[derive(Drop)]
pub struct WriterSink<W: Write> {
    writer: W,
    faults: u64,
}

/// A sink over standard output.
pub type StdoutSink<'a, R> = WriterSink<Printer<'a, R>>;

impl<'a, R: Print> WriterSink<Printer<'a, R>> {
    /// Returns a sink with no faults so far.
    pub fn new(rt: &'a R) -> WriterSink<Printer<'a, R>>
        ensures { result.faults ≡ 0 }
    {
        WriterSink {
            writer: io::writer(rt),
            faults: 0,
        }
    }
}

impl<W: Write> Sink for WriterSink<W> {
    ghost taken = { λ s. W.contents s.writer };

    ghost faults = { λ s. s.faults };

    fn put(&mut self, piece: &[u8]) -> Result<usize, Failed>
        ensures bytes { Puts (W.contents self.old.writer) (W.contents self.new.writer) result piece.now }
        ensures cause { HasCause self.old.faults self.new.faults result }

        // A fault is counted once.
        ensures once { self.new.faults ≡ faults_after result self.old.faults }
    {
        let put = write_some(&mut self.writer, piece);
        if put.is_err() {
            self.faults = more(self.faults);
        }
        put
    }
}
