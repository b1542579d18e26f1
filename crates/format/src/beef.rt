// BEEF version 0100BEEF (document 004; specs/Beef.antt). A reading keeps counts, the heads of the BUMPs and the place of the first transaction: what was read once is
// found again from there.
ghost use Rattle.std.specs.Prelude.{◌≡◌, length};
ghost use Rattle.format.specs.Parse.{each, times};
ghost use Rattle.format.specs.Answer.{parse_of};
ghost use Rattle.format.specs.Beef.{version_field, tx_count_field, bump_number_field, anchor_field, entry_field, entries_field, beef_whole};
ghost use Rattle.format.specs.BeefAnswer.{entry_head_of, entries_of, beef_head_of, bundle_of, opened, closing};
ghost use Rattle.format.specs.Refusals.{MAX_TXS};

use super::bump::BumpHead;
use super::bumps::{keep_bumps, read_bumps};
use super::field::{Cursor, Read, one_byte, read_four, read_varint};
use super::input::{check_end, check_size};
use super::refusal::{ReadRefusal, Refusal};
use super::transaction::{Items, TxHead, tx_by};

#[derive(Clone, Copy)]
pub struct Beef;

impl Beef {
    pub const VERSION: u64 = 0xefbe0001;

    pub const MAX_BUMPS: usize = 64;

    pub const MAX_TRANSACTIONS: usize = 256;
}

// A transaction of a bundle, and the number of the BUMP that it is anchored by, if it is.
#[derive(Clone, Copy)]
pub struct EntryHead {
    pub transaction: TxHead,
    pub anchor: Option<u64>,
}

// How many BUMPs and transactions a bundle has, and where its first transaction starts.
#[derive(Clone, Copy)]
pub struct BeefHead {
    pub bumps: usize,
    pub transactions: usize,
    pub entries: Cursor,
}

// The same with the heads of the BUMPs.
#[derive(Clone, Copy)]
pub struct Bundle {
    pub head: BeefHead,
    pub bumps: [BumpHead; Beef::MAX_BUMPS],
}

fn read_version(s: &[u8], c: Cursor) -> Read<u64>
    ensures { parse_of result ≡ version_field s.now c.at }
{
    let (version, next) = read_four(s, c)?;
    if version == Beef::VERSION {
        return Ok((version, next));
    }
    Err(ReadRefusal {
        refusal: Refusal::BadVersion,
        place: c.at,
    })
}

fn read_tx_count(s: &[u8], c: Cursor, room: usize) -> Read<u64>
    ensures { parse_of result ≡ tx_count_field room s.now c.at }
{
    let (count, next) = read_varint(s, c)?;
    if Beef::MAX_TRANSACTIONS < count as usize {
        return Err(ReadRefusal {
            refusal: Refusal::OverLimit,
            place: c.at,
        });
    }
    if count < 1 {
        return Err(ReadRefusal {
            refusal: Refusal::Empty,
            place: c.at,
        });
    }
    if room < count as usize {
        return Err(ReadRefusal {
            refusal: Refusal::NoRoom,
            place: c.at,
        });
    }
    Ok((count, next))
}

fn read_bump_number(s: &[u8], c: Cursor, bumps: u64) -> Read<u64>
    ensures { parse_of result ≡ bump_number_field bumps s.now c.at }
{
    let (number, next) = read_varint(s, c)?;
    if bumps <= number {
        return Err(ReadRefusal {
            refusal: Refusal::BadIndex,
            place: c.at,
        });
    }
    Ok((number, next))
}

fn read_anchor(s: &[u8], c: Cursor, bumps: u64) -> Read<Option<u64>>
    ensures { parse_of result ≡ anchor_field bumps s.now c.at }
{
    let (mark, second_at) = one_byte(s, c)?;
    if 1 < mark {
        return Err(ReadRefusal {
            refusal: Refusal::BadFlag,
            place: c.at,
        });
    }
    if mark == 0 {
        return Ok((None, second_at));
    }
    let (number, next) = read_bump_number(s, second_at, bumps)?;
    Ok((Some(number), next))
}

// A transaction of a bundle with so many BUMPs.
pub fn read_entry(s: &[u8], c: Cursor, bumps: u64) -> Read<EntryHead>
    ensures { parse_of result ≡ each entry_head_of (entry_field bumps s.now c.at) }
{
    let (transaction, second_at) = tx_by(s, c, true)?;
    let (anchor, next) = read_anchor(s, second_at, bumps)?;
    Ok((
        EntryHead {
            transaction,
            anchor,
        },
        next,
    ))
}

fn all_entries(s: &[u8], c: Cursor, bumps: u64, count: u64) -> Read<u64>
    ensures { parse_of result ≡ each length (times (entry_field bumps) count s.now c.at) }
{
    let mut next = c;
    for _ in 0..count {
        let (_, after) = read_entry(s, next, bumps)?;
        next = after;
    }
    Ok((count, next))
}

fn read_entries(s: &[u8], c: Cursor, bumps: u64, room: usize) -> Read<Items>
    ensures { parse_of result ≡ each entries_of (entries_field bumps room s.now c.at) }
{
    let (wanted, at) = read_tx_count(s, c, room)?;
    let (count, next) = all_entries(s, at, bumps, wanted)?;
    Ok((Items { count, at }, next))
}

// What comes before the BUMPs: the input has its size, and starts with the version.
fn open_beef(s: &[u8]) -> Read<u64>
    ensures { parse_of result ≡ opened s.now }
{
    check_size(s)?;
    read_version(s, Cursor::START)
}

// What comes after so many BUMPs: the transactions, and the input's end.
fn close_beef(s: &[u8], c: Cursor, bumps: u64, room: usize) -> Read<BeefHead>
    ensures { parse_of result ≡ closing room bumps s.now c.at }
{
    let (items, next) = read_entries(s, c, bumps, room)?;
    check_end(s, next)?;
    Ok((
        BeefHead {
            bumps: bumps as usize,
            transactions: items.count as usize,
            entries: items.at,
        },
        next,
    ))
}

// An input that is one BEEF, with a table of so many records lent, and the heads of its BUMPs.
pub fn read_bundle(s: &[u8], room: usize) -> Read<Bundle>
    ensures { parse_of result ≡ each bundle_of (beef_whole room s.now) }
{
    let (_, bumps_at) = open_beef(s)?;
    let (kept, entries_at) = keep_bumps(s, bumps_at)?;
    let (head, next) = close_beef(s, entries_at, kept.count, room)?;
    let bumps = kept.heads;
    Ok((Bundle { head, bumps }, next))
}

// An input that is one BEEF: how many BUMPs and transactions it has.
pub fn read_beef(s: &[u8]) -> Read<BeefHead>
    ensures { parse_of result ≡ each beef_head_of (beef_whole MAX_TXS s.now) }
{
    let (_, bumps_at) = open_beef(s)?;
    let (bumps, entries_at) = read_bumps(s, bumps_at)?;
    close_beef(s, entries_at, bumps, Beef::MAX_TRANSACTIONS)
}
