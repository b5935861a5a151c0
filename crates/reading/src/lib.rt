// Reading a file into a lent buffer: what cannot be opened or read counts as not there.
#![tactic(auto)]

ghost use Rattle.std.specs.Prelude.{◌≡◌, ◌≤◌, length, take};
ghost use Rattle.std.specs.Io.KnownBytes.{Consumes};
ghost use Rattle.io.specs.Counts.{IsPrefixLen};
ghost use Rattle.reading.specs.Reading.{FirstBytes, ReadFurther, WholeOrNone, taken_length};

use std::fs;
use std::io::Read;
use std::rt::Files;

// The file of a path, if it can be opened; a path whose bytes are no text names none.
pub fn open<R: Files>(files: &R, path: &[u8]) -> Option<R::File> {
    let name = str::from_utf8(path).ok()?;
    fs::open(files, name).ok()
}

// How many bytes one read puts at the buffer's start; none if it fails.
fn read_once<F: Read>(file: &mut F, buffer: &mut [u8]) -> usize
    ensures prefix { IsPrefixLen result buffer.new }
    ensures bytes { Consumes (F.remaining file.old) (F.remaining file.new) (take result buffer.new) }
{
    file.read(buffer).unwrap_or(0)
}

// Reads until the buffer is full, the file ends or a read fails: how many bytes stand at the buffer's start.
pub fn read_full<F: Read>(file: &mut F, buffer: &mut [u8]) -> usize
    ensures prefix { IsPrefixLen result buffer.new }
    ensures bytes { Consumes (F.remaining file.old) (F.remaining file.new) (take result buffer.new) }
{
    let mut done = 0;
    // How far one turn goes is told by the read.
    while done < buffer.len() {
        let count = read_once(file, &mut buffer[done..]);
        if count == 0 {
            break;
        }
        done += count;
    }
    done
}

// What one further read gives: how many bytes, or none if it fails.
pub fn read_further<F: Read>(file: &mut F) -> Option<usize>
    ensures { ReadFurther (F.remaining file.old) (F.remaining file.new) result }
{
    file.read(&mut [0; 1]).ok()
}

// How long a file is taken to be, from how many bytes were read and what one further read gave.
#[tactic(auto, unfolding(crate::specs::Reading::taken_length))]
fn taken_length(count: usize, further: Option<usize>) -> usize
    ensures length { result ≡ taken_length count further }
    ensures few { result ≤ count }
{
    if further == Some(0) { count } else { 0 }
}

// The first bytes of a buffer: what was read into it.
fn first_bytes(buffer: &[u8], count: usize) -> &[u8]
    requires { count ≤ length buffer.now }
    ensures first { FirstBytes buffer.now count result.now }
    ensures place { result.ref_ptr ≡ buffer.entry.ref_ptr }
{
    &buffer[..count]
}

// The next bytes of a file, as many as the buffer takes, up to its end or a read that fails.
pub fn read_first<'b, F: Read>(file: &mut F, buffer: &'b mut [u8]) -> &'b [u8]
    ensures bytes { Consumes (F.remaining file.old) (F.remaining file.new) result.now }
    ensures few { length result.now ≤ length buffer.old }
    ensures place { result.ref_ptr ≡ buffer.entry.ref_ptr }
{
    let count = read_full(file, buffer);
    first_bytes(buffer, count)
}

// All bytes of a file that are left; none if they are more than the buffer takes, or a read fails.
pub fn read_whole<'b, F: Read>(file: &mut F, buffer: &'b mut [u8]) -> &'b [u8]
    ensures whole { WholeOrNone (F.remaining file.old) (F.remaining file.new) result.now }
    ensures few { length result.now ≤ length buffer.old }
    ensures place { result.ref_ptr ≡ buffer.entry.ref_ptr }
{
    let count = read_full(file, buffer);
    let further = read_further(file);
    first_bytes(buffer, taken_length(count, further))
}

// The first bytes of a path's file, as many as the buffer takes; none if it cannot be opened.
pub fn read_start<'b, R: Files>(files: &R, path: &[u8], buffer: &'b mut [u8]) -> &'b [u8]
    ensures few { length result.now ≤ length buffer.old }
    ensures place { result.ref_ptr ≡ buffer.entry.ref_ptr }
{
    let Some(mut file) = open(files, path) else {
        return first_bytes(buffer, 0);
    };
    read_first(&mut file, buffer)
}

// The bytes of a path's file, in the buffer; none if the file is longer than the buffer or cannot be read.
pub fn read_file<'b, R: Files>(files: &R, path: &[u8], buffer: &'b mut [u8]) -> &'b [u8]
    ensures few { length result.now ≤ length buffer.old }
    ensures place { result.ref_ptr ≡ buffer.entry.ref_ptr }
{
    let Some(mut file) = open(files, path) else {
        return first_bytes(buffer, 0);
    };
    read_whole(&mut file, buffer)
}
