// What the programs share: how they read; of those that replay stored answers, how a file's records are counted and their bytes read,
// and what is told of them.
#![tactic(auto)]

ghost use Rattle.std.specs.Prelude.{[], flat_map, ◌≡◌, ℕ, ◌+◌, ◌*◌, ◌<◌, ◌≤◌, length, take, drop, get_or, List, IfOk, MatchOption};
ghost use Rattle.std.specs.List.{FoldsTo};
ghost use Rattle.std.specs.Fn.{CalledAt};
ghost use Rattle.std.specs.Io.KnownBytes.{Consumes, IsAtEnd};
ghost use Rattle.stored.specs.Counts.{Counts};
ghost use Rattle.stored.specs.declared.Unreplayed.TheVariants.{Failed};

use std::fmt::Display;
use std::fs::File;
use std::io::{Read, Write};
use std::{fmt, io};

// More records than any file has: a program ends whatever it reads.
const MOST: u64 = 1000000;

// How many records were replayed, and how many of them differ.
#[derive(Clone, Copy, Debug, PartialEq, Eq)]
pub struct Tally {
    pub replayed: u64,
    pub differ: u64,
}

// Why a file was not replayed to its end: it has not the shape that it must have, or a call of the system failed.
#[derive(Drop)]
pub enum Unreplayed {
    Misshapen,
    Failed(io::Error),
}

impl From<io::Error> for Unreplayed {
    ghost from_gives = { λ error stop. stop ≡ Failed error };

    fn from(error: io::Error) -> Unreplayed {
        Unreplayed::Failed(error)
    }
}

// A record of stored answers, of which a file has one after another.
pub trait Record: Sized + Drop {
    // The bytes that it has in a file.
    ghost bytes_of: { Self → List ℕ };

    type Shape: Display + Drop;

    // What a file of them must have.
    fn shape() -> Self::Shape;

    // Reads the next one, or none where the input has ended.
    fn read<R: Read>(reader: &mut R) -> Result<Option<Self>, Unreplayed>
        ensures { IfOk result (λ found. MatchOption found (Consumes (R.remaining reader.old) (R.remaining reader.new) [] × IsAtEnd (R.remaining reader.new)) (λ one. Consumes (R.remaining reader.old) (R.remaining reader.new) (bytes_of one))) };
}

// A record of N bytes.
impl<const N: usize> Record for [u8; N] {
    ghost bytes_of = { λ one. one };

    type Shape = WholeRecords;

    fn shape() -> WholeRecords {
        WholeRecords { bytes: N }
    }

    fn read<R: Read>(reader: &mut R) -> Result<Option<[u8; N]>, Unreplayed> {
        let mut bytes = [0; N];
        match read_full(reader, &mut bytes)? {
            got if got == N => Ok(Some(bytes)),
            0 => Ok(None),
            _ => Err(Unreplayed::Misshapen),
        }
    }
}

// The shape of a file whose records have so many bytes each.
#[derive(Drop)]
pub struct WholeRecords {
    bytes: usize,
}

impl Display for WholeRecords {
    fn fmt<W: fmt::Write>(&self, f: &mut fmt::Formatter<W>) -> fmt::Result {
        write!(
            f,
            "less than a million whole records of {} bytes",
            self.bytes
        )
    }
}

// Replays the records of the file at `path`, one after another, and writes how many of them `differs` finds, `kind` saying what they
// are.
pub fn replay<T: Record, F: FnMut(&T) -> bool>(
    rt: &HostRuntime,
    path: &str,
    kind: &str,
    differs: F,
) -> io::Result<()>
    requires { F.IsAlwaysCallable differs }
{
    report(
        rt,
        path,
        kind,
        T::shape(),
        |file: &mut File| -> Result<Tally, Unreplayed>
            requires { F.IsAlwaysCallable differs }
        { compare(file, differs) },
    )
}

// Opens the file at `path`, and writes what `replay` found in it, `kind` saying what was replayed; or, where the file is misshapen,
// the shape that it must have.
pub fn report<S: Display + Drop, F: FnOnce(&mut File) -> Result<Tally, Unreplayed>>(
    rt: &HostRuntime,
    path: &str,
    kind: &str,
    shape: S,
    replay: F,
) -> io::Result<()>
    requires { F.IsAlwaysCallable replay }
{
    let mut file = match File::open(rt, path) {
        Ok(file) => file,
        Err(error) => return tell_unopened(rt, path, error),
    };
    match replay(&mut file) {
        Ok(tally) => writeln!(
            rt.stdout(),
            "{path}: {} {kind} replayed, {} differ",
            tally.replayed,
            tally.differ
        ),
        Err(Unreplayed::Misshapen) => writeln!(rt.stderr(), "{path}: it must have {shape}"),
        Err(Unreplayed::Failed(error)) => Err(error),
    }
}

// Counts the records of the input, and those of them that `differs` finds.
fn compare<T: Record, R: Read, F: FnMut(&T) -> bool>(
    reader: &mut R,
    mut differs: F,
) -> Result<Tally, Unreplayed>
    requires { F.IsAlwaysCallable differs }
    ensures { IfOk result (λ tally. (ones : List T) × (last : F) × Consumes (R.remaining reader.old) (R.remaining reader.new) (flat_map T.bytes_of ones) × IsAtEnd (R.remaining reader.new) × (length ones ≡ tally.replayed) × FoldsTo (Counts (CalledAt F.FnMut)) (differs, 0) ones (last, tally.differ)) }
{
    let mut differ = 0;
    for replayed in 0..MOST {
        match T::read(reader)? {
            Some(one) => differ += u64::from(differs(&one)),
            None => return Ok(Tally { replayed, differ }),
        }
    }
    Err(Unreplayed::Misshapen)
}

// Writes to standard error why the file at `path` was not opened: the system's words, without the number that an `io::Error`
// puts in brackets after them.
fn tell_unopened(rt: &HostRuntime, path: &str, error: io::Error) -> io::Result<()> {
    let mut text = [0u8; WORDS];
    let mut room: &mut [u8] = &mut text;
    write!(room, "{error}")?;
    let mut err = rt.stderr();
    write!(err, "{path}: ")?;
    err.write_all(words(&text))?;
    err.write_all(b"\n")
}

// Room for the text of any error of the system.
const WORDS: usize = 288;

// The text up to the number of the error, or up to the zeros after it.
fn words(text: &[u8]) -> &[u8] {
    let text = up_to(text, b"\0");
    up_to(text, b" (os error ")
}

// The text up to where `mark` stands in it.
fn up_to<'a>(text: &'a [u8], mark: &[u8]) -> &'a [u8]
    requires { 0 < length mark.now }
{
    match text.windows(mark.len()).position(|part| part == mark) {
        Some(end) => &text[..end],
        None => text,
    }
}

// Reads until `buf` is full or the input ends, however small the pieces are that it comes in, and returns how many bytes it put at
// the start of `buf`.
pub fn read_full<R: Read>(reader: &mut R, buf: &mut [u8]) -> io::Result<usize>
    ensures count { IfOk result (λ n. n ≤ length buf.new) }
    ensures bytes { IfOk result (λ n. Consumes (R.remaining reader.old) (R.remaining reader.new) (take n buf.new)) }
    ensures end { IfOk result (λ n. n < length buf.new → IsAtEnd (R.remaining reader.new)) }
{
    let mut done = 0;
    while done < buf.len() {
        let n = reader.read(&mut buf[done..])?;
        if n == 0 {
            break;
        }
        done += n;
    }
    Ok(done)
}

// The byte at `at`, and 0 where the record has ended.
pub fn byte(record: &[u8], at: usize) -> u8
    ensures { result ≡ get_or «record».now at 0 }
{
    record.get(at).copied().unwrap_or(0)
}

// The N bytes from `at` on, and 0 for each past the record's end.
pub fn bytes<const N: usize>(record: &[u8], at: usize) -> [u8; N]
    ensures { (i : ℕ) → i < N → get_or result i 0 ≡ get_or «record».now (at + i) 0 }
{
    let mut bytes = [0; N];
    let rest = rest(record, at);
    let there = N.min(rest.len());
    bytes[..there].copy_from_slice(&rest[..there]);
    bytes
}

// What the record has from `at` on.
fn rest(record: &[u8], at: usize) -> &[u8]
    ensures { result.now ≡ drop at «record».now }
{
    record.get(at..).unwrap_or(&[])
}

// The number in two bytes from `at` on, low byte first.
pub fn two(record: &[u8], at: usize) -> u64
    ensures bound { result < 65536 }
    ensures value { result ≡ get_or «record».now at 0 + 256 * get_or «record».now (at + 1) 0 }
{
    u64::from(u16::from_le_bytes(bytes(record, at)))
}

// The number in four bytes from `at` on, low byte first.
pub fn four(record: &[u8], at: usize) -> u64
    ensures { result < 4294967296 }
{
    u64::from(u32::from_le_bytes(bytes(record, at)))
}

// The number in eight bytes from `at` on, low byte first.
pub fn eight(record: &[u8], at: usize) -> u64 {
    u64::from_le_bytes(bytes(record, at))
}

// The board in 26 bytes from `at` on, two's complement.
pub fn board(record: &[u8], at: usize) -> [i8; 26] {
    let bytes: [u8; 26] = bytes(record, at);
    let mut board = [0; 26];
    for i in 0..26 {
        board[i] = bytes[i].cast_signed();
    }
    board
}
