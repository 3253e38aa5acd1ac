#![tactic(auto)]
// What the programs have of the system in common: the words of their command line, what they read, and what they say where that fails.
//
// No clause can say what the system gives or takes. What is said here of a read is said of every reader.
ghost use Rattle.std.specs.Prelude.{◌≡◌, ◌≤◌, ◌↔◌, length, take, OnOk, IsOk};
ghost use Rattle.std.specs.Str.{IsUtf8};
ghost use Rattle.std.specs.Io.{StartsWith};
ghost use Rattle.std.specs.Process.{exit_status};
ghost use Rattle.std.specs.Io.KnownBytes.{Consumes};
ghost use Rattle.text.specs.Text.{decimal64};
ghost use Rattle.streams.specs.Reading.{Brings};
ghost use Rattle.streams.specs.Ending.{number_of};

use std::env::FillError;
use std::fmt::InlineText;
use std::fs::File;
use std::io;
use std::io::{Error, ErrorKind, Read, Stdin};
use std::process::ExitCode;
use std::rt::Env;

// Bytes asked of one read: few enough to stay in the processor's cache while they are played.
pub const CHUNK: usize = 131072;

// Digits of the longest number.
pub const DIGITS: usize = 20;

// Room for what the system says of an error.
const WORDS: usize = 128;

// The error of a name that is no text: the library opens files by text.
const NO_TEXT: i32 = 84;

// Room for a word of the command line, or a small file. The clause gives only the length, so that nothing has to be computed of the bytes.
pub fn buffer() -> [u8; 4096]
    ensures { 4096 ≡ length result }
{
    [0; 4096]
}

// Room for much output.
pub fn large_buffer() -> [u8; 65536]
    ensures { 65536 ≡ length result }
{
    [0; 65536]
}

// How a program that plays an archive ends. The numbers are its exit statuses.
#[derive(Clone, Copy, PartialEq, Eq, Debug)]
pub enum Status {
    Accepted = 0,
    Refused = 1,
    // The arguments are not understood, or what they ask for is not there.
    Unclear = 2,
    // Reading or writing failed.
    Failed = 3,
}

impl Status {
    pub fn code(self) -> ExitCode
        ensures { exit_status result ≡ number_of self }
    {
        ExitCode::from(self as u8)
    }
}

// The error of what failed where standard error was told why: there is nothing more to say.
#[derive(Clone, Copy, PartialEq, Eq, Debug)]
pub struct Told;

// Where a program reads: standard input, or a file that it was told.
#[derive(Drop)]
pub enum Source {
    Standard(Stdin),
    Named(File),
}

impl Read for Source {
    fn read(&mut self, buf: &mut [u8]) -> io::Result<usize> {
        match self {
            Source::Standard(input) => input.read(buf),
            Source::Named(file) => file.read(buf),
        }
    }
}

// One read behind the first `len` bytes of the buffer, which stay as they are. It answers how many bytes the buffer now has, or none at
// the input's end.
pub fn read_more<R: Read>(from: &mut R, input: &mut [u8], len: usize) -> io::Result<Option<usize>>
    requires { len ≤ length input.old }
    ensures kept { take len input.new ≡ take len input.old }
    ensures brought { Brings (R.remaining from.old) (R.remaining from.new) len input.new result }
{
    let e = len + CHUNK.min(input.len() - len);
    match from.read(&mut input[len..e]) {
        Ok(0) => Ok(None),
        Ok(n) => Ok(Some(len + n)),
        Err(error) => Err(error),
    }
}

// Reads until the buffer is full, the input ends or a read fails, and answers how many bytes are there. No `for`: a turn goes on by as many
// bytes as one read brings.
pub fn read_full<R: Read>(from: &mut R, input: &mut [u8]) -> usize
    ensures bound { result ≤ length input.new }
    ensures bytes { Consumes (R.remaining from.old) (R.remaining from.new) (take result input.new) }
{
    let mut done = 0;
    while done < input.len() {
        match from.read(&mut input[done..]) {
            Ok(0) => return done,
            Ok(n) => done += n,
            Err(_) => return done,
        }
    }
    done
}

// Opens a file by the bytes of its name.
pub fn open(rt: HostRuntime, name: &[u8]) -> io::Result<File>
    ensures { OnOk result (IsUtf8 name.now) }
{
    match str::from_utf8(name) {
        Ok(text) => File::open(&rt, text),
        Err(_) => Err(Error::from_raw_os_error(NO_TEXT)),
    }
}

// Word i of the command line, in the room lent for it; empty where there is none, or it is longer than that.
pub fn argument<'a, E: Env>(rt: &E, i: usize, room: &'a mut [u8]) -> &'a [u8]
    ensures { length result.now ≤ length room.old }
{
    let n = rt.arg(i, room).unwrap_or(0);
    &room[..n]
}

// How many words the command line has, the program's name among them.
pub fn argument_count<E: Env>(rt: &E) -> usize {
    let mut word = [0u8; 1];
    for i in 0..usize::MAX {
        if let Err(FillError::NotPresent) = rt.arg(i, &mut word) {
            return i;
        }
    }
    usize::MAX
}

// The first n bytes of a text, all of it where it has fewer.
pub fn first(text: &[u8], n: usize) -> &[u8]
    ensures { result.now ≡ take n text.now }
{
    if n < text.len() { &text[..n] } else { text }
}

// A number's digits.
pub fn decimal(n: u64, out: &mut [u8; DIGITS]) -> usize
    ensures bound { result ≤ 20 }
    ensures digits { take result out.new ≡ decimal64 n }
{
    text::put_number(out, 0, n)
}

// Where a message to standard error fails there is nobody to tell.
pub fn tell(rt: HostRuntime, text: &[u8]) {
    let _ = Print::write_all(&rt.stderr(), text);
}

// The system's words for an error, without its number.
fn words_of(text: &str) -> &str
    ensures { StartsWith text.now result.now }
{
    match text.rsplit_once(" (os error ") {
        Some((words, _)) => words,
        None => text,
    }
}

// A line to standard error: what failed, as the caller names it, a colon and the system's words. Where nobody reads the output any more
// nothing is said: that is no fault, as in `.. | head`.
pub fn fail(rt: HostRuntime, what: &[u8], error: Error) {
    if error.kind() == ErrorKind::BrokenPipe {
        return;
    }
    let text = InlineText::<WORDS>::of(error);
    tell(rt, what);
    tell(rt, b": ");
    tell(rt, words_of(text.as_str()).as_bytes());
    tell(rt, b"\n");
}

// What a write to standard output came to. Where it failed, standard error is told so, under the name by which the caller knows it.
pub fn written(rt: HostRuntime, what: &[u8], outcome: io::Result<()>) -> Result<(), Told>
    ensures { IsOk result ↔ IsOk outcome }
{
    match outcome {
        Ok(()) => Ok(()),
        Err(error) => {
            fail(rt, what, error);
            Err(Told)
        }
    }
}

#[cfg(test)]
mod tests {
    use super::*;

    // As C's strerror has it.
    #[test]
    fn says_what_the_system_says(rt: HostRuntime) {
        let full = InlineText::<WORDS>::of(Error::from_raw_os_error(28));
        assert_eq!(rt; words_of(full.as_str()), "No space left on device");
        let none = InlineText::<WORDS>::of(Error::from_raw_os_error(2));
        assert_eq!(rt; words_of(none.as_str()), "No such file or directory");
    }

    #[test]
    fn reads_behind(rt: HostRuntime) {
        let mut from: &[u8] = b"bytes";
        let mut input = [0u8; 8];
        match read_more(&mut from, &mut input, 2) {
            Ok(Some(n)) => assert_eq!(rt; n, 7),
            Ok(None) | Err(_) => panic!(rt; "nothing is read"),
        }
        assert_eq!(rt; &input[2..7], b"bytes".as_slice());
        match read_more(&mut from, &mut input, 7) {
            Ok(None) => {}
            Ok(Some(_)) | Err(_) => panic!(rt; "the end is not told"),
        }
    }

    #[test]
    fn opens_text_alone(rt: HostRuntime) {
        assert!(rt; open(rt, b"\xff").is_err());
        assert!(rt; open(rt, b"/dev/null").is_ok());
    }

    #[test]
    fn puts_digits(rt: HostRuntime) {
        let mut text = [0u8; DIGITS];
        let n = decimal(u64::MAX, &mut text);
        assert_eq!(rt; &text[..n], b"18446744073709551615".as_slice());
    }
}
