// Reading files, and the report on two of them.
#![tactic(auto)]

ghost use Rattle.std.specs.Io.{ReadsAtMost};
ghost use Rattle.io.specs.Counts.{IsPrefixLen};

use std::fs::File;
use std::io;
use std::io::Read;
use std::rt::Files;

// Reads until `text` is full or the file ends: how many bytes are read. A read that fails ends it.
// Kept: a loop over `read`, since of the library's methods `read_exact` fails where the file ends first, and `read_to_end` needs a heap.
fn read_full(file: &mut impl Read, text: &mut [u8]) -> io::Result<usize>
    ensures { ReadsAtMost result text.new }
{
    let mut done = 0;
    while done < text.len() {
        let n = file.read(&mut text[done..])?;
        if n == 0 {
            break;
        }
        done += n;
    }
    Ok(done)
}

// Opens the file `path` and reads it. A path that is no UTF-8 names no file that can be opened here.
fn read_file(rt: &impl Files, path: &[u8], text: &mut [u8]) -> io::Result<usize>
    ensures { ReadsAtMost result text.new }
{
    let Ok(name) = str::from_utf8(path) else {
        return Ok(0);
    };
    let mut file = File::open(rt, name)?;
    let got = read_full(&mut file, text)?;
    // A read that fails behind the last byte makes the file count as empty too.
    let mut more = [0u8; 1];
    file.read(&mut more)?;
    Ok(got)
}

// The bytes of the file `path`, as many as `text` takes: how many. A file that can't be read counts as empty.
// Kept: a count beside the buffer, and no slice, here and in `judge`, since each promises `IsPrefixLen` of its count.
pub fn load(rt: &impl Files, path: &[u8], text: &mut [u8]) -> usize
    ensures { IsPrefixLen result text.new }
{
    read_file(rt, path, text).unwrap_or(0)
}

// How many bytes of `text` the report on two files' bytes takes; none if it does not fit.
// Kept: a cast, since the library has no `From` between the two; it is proved to fit.
fn tell(client: &[u8], server: &[u8], text: &mut [u8]) -> usize
    ensures { IsPrefixLen result text.new }
{
    report::report(client, server, text).map_or(0, |n| n as usize)
}

// The report on the two files, in `text`: how many bytes. One byte more than a file may have is read of each: what is longer
// is refused whatever its size.
// Kept: the two files' names, here, and their bytes, in `tell`, are told apart by their names alone, as in `Reports` and in C's calls (docs/HOST.md).
pub fn judge(rt: &impl Files, client: &[u8], server: &[u8], text: &mut [u8]) -> usize
    ensures { IsPrefixLen result text.new }
{
    let mut first = [0u8; 4097];
    let c = load(rt, client, &mut first);
    let mut second = [0u8; 4097];
    let s = load(rt, server, &mut second);
    tell(&first[..c], &second[..s], text)
}
