//! Reading a recording: its version and transactions, or where the bytes stop being the front of one.
ghost use Rattle.std.specs.Prelude.{◌≡◌, ◌<◌, ◌≤◌, ◌+◌, ◌++◌, ◌∷◌, [], ◌⊎◌, length, IfSome, IfNone, IfOk};
ghost use Rattle.std.specs.Prelude.{OnOk, IfErr};
ghost use Rattle.ts_record.specs.Grammar.{Contents, IsTxn, MayLeave, KeepsLimits, IsRecording, contents};
ghost use Rattle.ts_record.specs.Grammar.{inside_before, leave_before, stall_room, stalls_in, txns_text};
ghost use Rattle.ts_record.specs.Keywords.{keyword_text, LacksKeyword, header_of, headers};
ghost use Rattle.ts_record.specs.Keywords.{keywords_behind_client, keywords_behind_origin, keywords_inside};
ghost use Rattle.ts_record.specs.Keywords.{keywords_behind};
ghost use Rattle.ts_record.specs.Offsets.{RefusesAt};
ghost use Rattle.ts_record.specs.Refusing.{BreaksOff, OneOf, LeaveRefused, StopsInside, StopsEnd, StopsTxns};
ghost use Rattle.ts_record.specs.Refusing.{refusal_of};
ghost use Rattle.ts_record.specs.declared.keyword.Keyword.TheVariants as k;

use crate::items::{PartRefusal, read_items};
use crate::keyword::{Keyword, Side, after, left_by};
use crate::piece::read_number;
use crate::recording::{
    FIRST_VERSION, MOST_STALLED, MOST_TAKEN, MOST_TXNS, RecordedTxn, Recording, RecordingRefusal,
    SECOND_VERSION,
};
use std::alloc::Global;
use ts_link::Piece;

// How many reads may wait at all stalls of a recording of this version.
fn stall_room(version: u8) -> u32
    ensures { result ≡ stall_room version }
{
    if version == FIRST_VERSION {
        0
    } else {
        MOST_STALLED
    }
}

// The keywords that can come behind a piece or a stall of a client, where so many reads may still wait.
fn keywords_behind_client(version: u8, room: u32) -> &'static [Keyword]
    requires room { version ≡ FIRST_VERSION → room ≡ 0 }
    ensures { result.now ≡ keywords_behind_client version room }
{
    if version == FIRST_VERSION {
        &[Keyword::Client, Keyword::Origin, Keyword::Close]
    } else if room == 0 {
        &[
            Keyword::Client,
            Keyword::Origin,
            Keyword::Leave,
            Keyword::Close,
        ]
    } else {
        &[
            Keyword::Client,
            Keyword::ClientStall,
            Keyword::Origin,
            Keyword::OriginStall,
            Keyword::Leave,
            Keyword::Close,
        ]
    }
}

// And behind one of an origin.
fn keywords_behind_origin(version: u8, room: u32) -> &'static [Keyword]
    requires room { version ≡ FIRST_VERSION → room ≡ 0 }
    ensures { result.now ≡ keywords_behind_origin version room }
{
    if version == FIRST_VERSION {
        &[Keyword::Origin, Keyword::Close]
    } else if room == 0 {
        &[Keyword::Origin, Keyword::Leave, Keyword::Close]
    } else {
        &[
            Keyword::Origin,
            Keyword::OriginStall,
            Keyword::Leave,
            Keyword::Close,
        ]
    }
}

// The keywords that can come behind what a client sends, these pieces and stalls of an origin, and the line
// on a client that leaves, where it stands there.
fn keywords_inside(
    version: u8,
    room: u32,
    origin: &[Piece],
    leave: Option<u64>,
) -> &'static [Keyword]
    requires room { version ≡ FIRST_VERSION → room ≡ 0 }
    ensures { result.now ≡ keywords_inside version room origin.now leave }
{
    if leave.is_some() {
        return &[Keyword::Close];
    }
    match origin {
        [] => keywords_behind_client(version, room),
        _ => keywords_behind_origin(version, room),
    }
}

// The keywords that can come behind so many transactions.
fn keywords_behind(count: usize) -> &'static [Keyword]
    ensures { result.now ≡ keywords_behind count }
{
    if count < MOST_TXNS {
        &[Keyword::Txn, Keyword::End]
    } else {
        &[Keyword::End]
    }
}

// The bytes behind the first word of the line on a client that leaves, if it stands at the front and the
// version has such lines.
fn after_leave(bytes: &[u8], version: u8) -> Option<&[u8]>
    ensures version { IfSome result (λ behind. version ≡ SECOND_VERSION) }
    ensures some { IfSome result (λ behind. bytes.now ≡ keyword_text k.Leave ++ behind.now) }
    ensures none { IfNone result (version ≡ SECOND_VERSION → LacksKeyword bytes.now k.Leave) }
{
    if version != SECOND_VERSION {
        return None;
    }
    after(bytes, Keyword::Leave)
}

// How many bytes the client takes, if it leaves, and the bytes behind the line that says so.
fn read_leave(bytes: &[u8], version: u8) -> Result<(Option<u64>, &[u8]), usize>
    ensures may { IfOk result (λ cut. MayLeave version cut.0) }
    ensures text { IfOk result (λ cut. bytes.now ≡ leave_before cut.1.now cut.0) }
    ensures lacks { IfOk result (λ cut. IfNone cut.0
        (version ≡ SECOND_VERSION → LacksKeyword bytes.now k.Leave)) }
    ensures refused { IfErr result (LeaveRefused version bytes.now) }
{
    let Some(inside) = after_leave(bytes, version) else {
        return Ok((None, bytes));
    };
    match read_number(inside, MOST_TAKEN as usize) {
        Ok((most, behind)) => Ok((Some(most as u64), behind)),
        Err(left) => Err(left),
    }
}

// A transaction behind its first line, how many reads may wait at the stalls behind it, and the bytes behind
// it.
fn read_inside(
    alloc: Global,
    bytes: &[u8],
    version: u8,
    room: u32,
) -> Result<(RecordedTxn, u32, &[u8]), PartRefusal>
    requires version { (version ≡ FIRST_VERSION) ⊎ (version ≡ SECOND_VERSION) }
    requires room { room ≤ stall_room version }
    ensures limits { IfOk result (λ cut. IsTxn version cut.0) }
    ensures stalls { IfOk result (λ cut. cut.1 + stalls_in (cut.0 ∷ []) ≡ room) }
    ensures text { IfOk result (λ cut. bytes.now ≡ inside_before cut.2.now cut.0) }
    ensures refused { IfErr result (StopsInside version room bytes.now) }
{
    let (client, room, rest) = read_items(alloc, bytes, Side::Client, room)?;
    let (origin, room, rest) = read_items(alloc, rest, Side::Origin, room)?;
    let (leave, rest) = match read_leave(rest, version) {
        Ok(cut) => cut,
        Err(left) => return Err(PartRefusal::Left(left)),
    };
    match after(rest, Keyword::Close) {
        Some(behind) => Ok((
            RecordedTxn {
                client,
                origin,
                leave,
            },
            room,
            behind,
        )),
        None => {
            let keywords = keywords_inside(version, room, origin.as_slice(), leave);
            Err(PartRefusal::Left(left_by(rest, keywords)))
        }
    }
}

// The bytes behind the first line of one more transaction, if it stands there and so many leave room for it.
fn after_txn(bytes: &[u8], count: usize) -> Option<&[u8]>
    ensures room { IfSome result (λ behind. count < MOST_TXNS) }
    ensures some { IfSome result (λ behind. bytes.now ≡ keyword_text k.Txn ++ behind.now) }
    ensures none { IfNone result (count < MOST_TXNS → LacksKeyword bytes.now k.Txn) }
{
    if count >= MOST_TXNS {
        return None;
    }
    after(bytes, Keyword::Txn)
}

// The end of the recording behind so many transactions.
fn read_end(bytes: &[u8], count: usize) -> Result<(), PartRefusal>
    requires { count < MOST_TXNS → LacksKeyword bytes.now k.Txn }
    ensures text { OnOk result (bytes.now ≡ keyword_text k.End) }
    ensures refused { IfErr result (StopsEnd count bytes.now) }
{
    match after(bytes, Keyword::End) {
        Some([]) => Ok(()),
        Some(behind) => Err(PartRefusal::Left(behind.len())),
        None => Err(PartRefusal::Left(left_by(bytes, keywords_behind(count)))),
    }
}

// The transactions behind the first line of a recording of this version, up to the end of the bytes.
fn read_txns(alloc: Global, bytes: &[u8], version: u8) -> Result<Vec<RecordedTxn>, PartRefusal>
    requires version { (version ≡ FIRST_VERSION) ⊎ (version ≡ SECOND_VERSION) }
    ensures limits { IfOk result (λ txns. KeepsLimits (contents version txns.items)) }
    ensures text { IfOk result (λ txns. bytes.now ≡ txns_text txns.items) }
    ensures refused { IfErr result (StopsTxns version bytes.now) }
{
    let mut txns = Vec::new(alloc);
    let mut room = stall_room(version);
    let mut rest = bytes;
    'txns: while let Some(inside) = after_txn(rest, txns.len()) {
        let (txn, left, behind) = read_inside(alloc, inside, version, room)?;
        txns.push(txn)?;
        room = left;
        rest = behind;
    }
    read_end(rest, txns.len())?;
    Ok(txns)
}

// The version that the first line names, and the bytes behind it.
fn read_header(bytes: &[u8]) -> Result<(u8, &[u8]), usize>
    ensures version { IfOk result (λ cut. (cut.0 ≡ FIRST_VERSION) ⊎ (cut.0 ≡ SECOND_VERSION)) }
    ensures text { IfOk result (λ cut. bytes.now ≡ keyword_text (header_of cut.0) ++ cut.1.now) }
    ensures refused { IfErr result (BreaksOff (OneOf headers) bytes.now) }
{
    if let Some(behind) = after(bytes, Keyword::HeaderOne) {
        return Ok((FIRST_VERSION, behind));
    }
    match after(bytes, Keyword::HeaderTwo) {
        Some(behind) => Ok((SECOND_VERSION, behind)),
        None => Err(left_by(bytes, &[Keyword::HeaderOne, Keyword::HeaderTwo])),
    }
}

fn refusal_of(bytes: &[u8], refusal: PartRefusal) -> RecordingRefusal
    ensures { result ≡ refusal_of bytes.now refusal }
{
    match refusal {
        PartRefusal::Left(left) => RecordingRefusal::Fault {
            offset: bytes.len().saturating_sub(left) as u64,
        },
        PartRefusal::NoMemory => RecordingRefusal::NoMemory,
    }
}

/// The recording that the bytes are the text of. Each byte of a piece is copied once.
pub fn read_recording(alloc: Global, bytes: &[u8]) -> Result<Recording, RecordingRefusal>
    ensures read { IfOk result (λ r. IsRecording bytes.now r) }
    // The bytes are the text of no other recording.
    ensures one { IfOk result (λ r. (other : Contents) → IsRecording bytes.now other → other ≡ r) }
    ensures refusal { IfErr result (RefusesAt bytes.now) }
{
    let (version, rest) = match read_header(bytes) {
        Ok(cut) => cut,
        Err(left) => return Err(refusal_of(bytes, PartRefusal::Left(left))),
    };
    match read_txns(alloc, rest, version) {
        Ok(txns) => Ok(Recording { version, txns }),
        Err(refusal) => Err(refusal_of(bytes, refusal)),
    }
}
