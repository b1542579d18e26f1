// Lists the BUMP on standard input (listing/specs/Listing.antt).
#![tactic(auto)]

ghost use Rattle.std.specs.Prelude.{◌≡◌, ◌≤◌, length, take, OnErr};
ghost use Rattle.std.specs.Io.{ReadsAtMost};
ghost use Rattle.listing.specs.Listing.{LISTING_ROOM, listing};

use std::io;
use std::io::{Read, Write};

// Room for one byte more than is listed, so that a longer input is seen.
fn input() -> [u8; 65537]
    ensures { length result ≡ 65537 }
{
    [0; 65537]
}

fn output() -> [u8; 1114112]
    ensures { length result ≡ 1114112 }
{
    [0; 1114112]
}

// The listing of s stands whole at the start of out.
fn list_whole(s: &[u8], out: &mut [u8]) -> usize
    requires { LISTING_ROOM ≤ length out.old }
    ensures { (result ≤ length out.new) × (take result out.new ≡ listing s.now) }
{
    listing::list(s, out)
}

// Reads until the room is full or the input ends, and answers how many bytes stand at the start of the room. An error is the input's own.
fn read_full<R: Read>(input: &mut R, room: &mut [u8]) -> io::Result<usize>
    ensures read { ReadsAtMost result room.new }
    ensures err { OnErr result (length room.new ≡ length room.old) }
{
    let mut done = 0;
    // Not a for: a read gives as many bytes as it likes.
    while done < room.len() {
        let n = input.read(&mut room[done..])?;
        if n == 0 {
            break;
        }
        done += n;
    }
    Ok(done)
}

fn main(rt: HostRuntime) -> io::Result<()> {
    let mut s = input();
    let n = read_full(&mut rt.stdin(), &mut s)?;
    let mut out = output();
    let k = list_whole(&s[..n], &mut out);
    rt.stdout().write_all(&out[..k])
}
