// TSC binary proofs (document 000; specs/Tsc.antt).
ghost use Rattle.std.specs.Prelude.{◌≡◌, length};
ghost use Rattle.format.specs.Parse.{each, times};
ghost use Rattle.format.specs.Answer.{parse_of};
ghost use Rattle.format.specs.Node.{node_field};
ghost use Rattle.format.specs.Transaction.{items_of};
ghost use Rattle.format.specs.Tsc.{flags_field, exact_field, as_subject, stated_field, subject_field, target_field, index_fits, node_count_field, nodes_field, tsc_field, tsc_whole, tsc_head_of, tells_root};

use super::bump::Bump;
use super::field::{Cursor, Read, one_byte, read_run, read_varint};
use super::input::{check_end, check_size};
use super::node::read_node;
use super::refusal::{ReadRefusal, Refusal};
use super::transaction::{Items, tx_at};

#[derive(Clone, Copy)]
pub struct Tsc;

impl Tsc {
    pub const MAX_NODES: u64 = Bump::MAX_HEIGHT;
}

// What is proved: an id by its place, or a transaction by its first byte and the place after its last.
#[derive(Clone, Copy)]
pub enum Subject {
    Id(usize),
    Transaction(usize, usize),
}

// A TSC proof: the place of its target, how many nodes it has and where they start.
#[derive(Clone, Copy)]
pub struct TscHead {
    pub flags: u64,
    pub index: u64,
    pub subject: Subject,
    pub target: usize,
    pub nodes: u64,
    pub nodes_at: Cursor,
}

impl TscHead {
    // Whether the target tells a root: a block hash does not.
    pub fn tells_root(self) -> bool
        ensures { result ≡ tells_root self.flags }
    {
        self.flags & 6 != 0
    }
}

fn read_flags(s: &[u8], c: Cursor) -> Read<u64>
    ensures { parse_of result ≡ flags_field s.now c.at }
{
    let (flags, next) = one_byte(s, c)?;
    if 8 <= flags {
        return Err(ReadRefusal {
            refusal: Refusal::BadFlag,
            place: c.at,
        });
    }
    if flags & 6 == 6 {
        return Err(ReadRefusal {
            refusal: Refusal::BadFlag,
            place: c.at,
        });
    }
    Ok((flags, next))
}

// A transaction of exactly n bytes.
fn exact_transaction(s: &[u8], c: Cursor, n: usize) -> Read<Subject>
    ensures { parse_of result ≡ each as_subject (exact_field n s.now c.at) }
{
    let (start, end) = read_run(s, c, n)?;
    let Ok((head, next)) = tx_at(s, Cursor { at: start }) else {
        return Err(ReadRefusal {
            refusal: Refusal::BadTx,
            place: start,
        });
    };
    if next.at != end.at {
        return Err(ReadRefusal {
            refusal: Refusal::BadTx,
            place: start,
        });
    }
    Ok((Subject::Transaction(head.start, head.end), next))
}

// A transaction with its length before it.
fn read_stated(s: &[u8], c: Cursor) -> Read<Subject>
    ensures { parse_of result ≡ stated_field s.now c.at }
{
    let (n, next) = read_varint(s, c)?;
    exact_transaction(s, next, n as usize)
}

fn read_subject(s: &[u8], c: Cursor, flags: u64) -> Read<Subject>
    ensures { parse_of result ≡ subject_field flags s.now c.at }
{
    if flags & 1 == 1 {
        return read_stated(s, c);
    }
    let (place, next) = read_run(s, c, 32)?;
    Ok((Subject::Id(place), next))
}

fn read_target(s: &[u8], c: Cursor, flags: u64) -> Read<usize>
    ensures { parse_of result ≡ target_field flags s.now c.at }
{
    if flags & 6 == 2 {
        return read_run(s, c, 80);
    }
    read_run(s, c, 32)
}

// Whether a position fits so many layers; 2^64 itself is never computed.
pub fn index_fits(index: u64, layers: u64) -> bool
    ensures { result ≡ index_fits index layers }
{
    if 64 <= layers {
        return true;
    }
    index >> layers == 0
}

fn read_node_count(s: &[u8], c: Cursor) -> Read<u64>
    ensures { parse_of result ≡ node_count_field s.now c.at }
{
    let (count, next) = read_varint(s, c)?;
    if Tsc::MAX_NODES < count {
        return Err(ReadRefusal {
            refusal: Refusal::OverLimit,
            place: c.at,
        });
    }
    Ok((count, next))
}

fn read_nodes(s: &[u8], c: Cursor, count: u64) -> Read<u64>
    ensures { parse_of result ≡ each length (times node_field count s.now c.at) }
{
    let mut next = c;
    for _ in 0..count {
        let (_, after) = read_node(s, next)?;
        next = after;
    }
    Ok((count, next))
}

// The nodes with their count before them, which the index has to fit.
fn all_nodes(s: &[u8], c: Cursor, index: u64, index_at: usize) -> Read<Items>
    ensures { parse_of result ≡ each items_of (nodes_field index index_at s.now c.at) }
{
    let (wanted, at) = read_node_count(s, c)?;
    if !index_fits(index, wanted) {
        return Err(ReadRefusal {
            refusal: Refusal::BadOffset,
            place: index_at,
        });
    }
    let (count, next) = read_nodes(s, at, wanted)?;
    Ok((Items { count, at }, next))
}

pub fn tsc_at(s: &[u8], c: Cursor) -> Read<TscHead>
    ensures { parse_of result ≡ each tsc_head_of (tsc_field s.now c.at) }
{
    let (flags, index_at) = read_flags(s, c)?;
    let (index, subject_at) = read_varint(s, index_at)?;
    let (subject, target_at) = read_subject(s, subject_at, flags)?;
    let (target, count_at) = read_target(s, target_at, flags)?;
    let (items, next) = all_nodes(s, count_at, index, index_at.at)?;
    let nodes = items.count;
    let nodes_at = items.at;
    Ok((
        TscHead {
            flags,
            index,
            subject,
            target,
            nodes,
            nodes_at,
        },
        next,
    ))
}

// An input that is one TSC proof.
pub fn read_tsc(s: &[u8]) -> Read<TscHead>
    ensures { parse_of result ≡ each tsc_head_of (tsc_whole s.now) }
{
    check_size(s)?;
    let (head, next) = tsc_at(s, Cursor::START)?;
    check_end(s, next)?;
    Ok((head, next))
}
