//! The report on a recording: the text of what one transaction came to.
ghost use Rattle.std.specs.Prelude.{◌≡◌, ◌++◌, IfOk, OnOk};
ghost use Rattle.ts_record.specs.Printing.{KeepsFront};
ghost use Rattle.ts_record.specs.Report.{IsReported, end_word, sized_text, request_lines, upload_text, head_lines, body_text, tap_text};
ghost use Rattle.ts_record.specs.Report.{block_text, report_begin};

use itoa::Buffer;
use std::alloc::Global;
use ts_hooks::TxnEnd;
use ts_link::{NoMemory, Octets};

/// The last line of a report.
pub const REPORT_END: &[u8] = b"done\n";

/// What a tap counted of the body that a client took.
#[derive(Clone, Copy)]
pub struct TapLine {
    pub count: u64,
    /// The sum of these bytes (`sum_of`, from 0).
    pub sum: u64,
}

/// What the report shows of a transaction's block (that of `ts_block`): all but the mode of its body.
#[derive(Drop)]
pub struct ReportBlock {
    /// The head that was sent to the origin, empty where none was.
    pub request: Octets,
    /// The body that was sent to the origin, without its framing, where the request had one that was taken.
    pub upload: Option<Octets>,
    /// How it ended: with a client's fault, where the recording has its client leave.
    pub end: TxnEnd,
    /// The head that was sent to the client, empty where nothing was.
    pub head: Octets,
    /// The body that was sent to the client, without its framing.
    pub content: Octets,
    /// What a tap counted of it, where there is one.
    pub tap: Option<TapLine>,
}

fn end_word(end: TxnEnd) -> &'static [u8]
    requires { IsReported end }
    ensures { result.now ≡ end_word end }
{
    match end {
        TxnEnd::Whole => b"whole",
        TxnEnd::OriginCut => b"cut",
        TxnEnd::OriginBad => b"bad",
        TxnEnd::ClientFault => b"left",
        _ => unreachable!(),
    }
}

// Prints a line with a name and a length, and then so many bytes and a line feed.
fn print_sized(out: &mut Vec<u8>, name: &[u8], bytes: &[u8]) -> Result<(), NoMemory>
    ensures text { OnOk result (out.new.items ≡ out.old.items ++ sized_text name.now bytes.now) }
    ensures front { KeepsFront out.old.items out.new.items }
{
    let mut number = Buffer::new();
    out.extend_from_slice(name)?;
    out.extend_from_slice(number.format(bytes.len()).as_bytes())?;
    out.push(b'\n')?;
    out.extend_from_slice(bytes)?;
    out.push(b'\n')?;
    Ok(())
}

/// The first line of a report on a recording of this version.
pub fn begin_report(alloc: Global, version: u8) -> Result<Vec<u8>, NoMemory>
    ensures { IfOk result (λ begun. begun.items ≡ report_begin version) }
{
    let mut digits = Buffer::new();
    let mut begun = Vec::from_slice(alloc, b"tsx-report ")?;
    begun.extend_from_slice(digits.format(version).as_bytes())?;
    begun.push(b'\n')?;
    Ok(begun)
}

// Prints the lines on a transaction's number, and on the head that the origin got.
fn print_request(out: &mut Vec<u8>, number: u64, request: &[u8]) -> Result<(), NoMemory>
    ensures text { OnOk result (out.new.items ≡ out.old.items ++ request_lines number request.now) }
    ensures front { KeepsFront out.old.items out.new.items }
{
    let mut digits = Buffer::new();
    out.extend_from_slice(b"txn ")?;
    out.extend_from_slice(digits.format(number).as_bytes())?;
    out.push(b'\n')?;
    print_sized(out, b"request ", request)
}

// Prints the lines on the body that the origin got, if there are any.
fn print_upload(out: &mut Vec<u8>, upload: &Option<Octets>) -> Result<(), NoMemory>
    ensures text { OnOk result (out.new.items ≡ out.old.items ++ upload_text upload.now) }
    ensures front { KeepsFront out.old.items out.new.items }
{
    match upload {
        Some(bytes) => print_sized(out, b"upload ", bytes.bytes()),
        None => Ok(()),
    }
}

// Prints the lines on its end, and on the head that the client got.
fn print_head(out: &mut Vec<u8>, end: TxnEnd, head: &[u8]) -> Result<(), NoMemory>
    requires { IsReported end }
    ensures text { OnOk result (out.new.items ≡ out.old.items ++ head_lines end head.now) }
    ensures front { KeepsFront out.old.items out.new.items }
{
    out.extend_from_slice(b"end ")?;
    out.extend_from_slice(end_word(end))?;
    out.push(b'\n')?;
    print_sized(out, b"head ", head)
}

// Prints the lines on the body that the client got, which only a whole answer has.
fn print_body(out: &mut Vec<u8>, end: TxnEnd, content: &[u8]) -> Result<(), NoMemory>
    ensures text { OnOk result (out.new.items ≡ out.old.items ++ body_text end content.now) }
    ensures front { KeepsFront out.old.items out.new.items }
{
    match end {
        TxnEnd::Whole => print_sized(out, b"body ", content),
        _ => Ok(()),
    }
}

// Prints the line of a tap, if there is one.
fn print_tap(out: &mut Vec<u8>, tap: Option<TapLine>) -> Result<(), NoMemory>
    ensures text { OnOk result (out.new.items ≡ out.old.items ++ tap_text tap) }
    ensures front { KeepsFront out.old.items out.new.items }
{
    let Some(line) = tap else {
        return Ok(());
    };
    let mut count = Buffer::new();
    let mut sum = Buffer::new();
    out.extend_from_slice(b"tap ")?;
    out.extend_from_slice(count.format(line.count).as_bytes())?;
    out.push(b' ')?;
    out.extend_from_slice(sum.format(line.sum).as_bytes())?;
    out.push(b'\n')?;
    Ok(())
}

/// Adds the lines on the transaction of this number, counted from 1, to a report. Only a whole answer has
/// lines for its body. Those of an upload and of a tap stand where there is one.
pub fn add_block(out: &mut Vec<u8>, number: u64, block: &ReportBlock) -> Result<(), NoMemory>
    requires { IsReported block.now.end }
    ensures text { OnOk result (out.new.items ≡ out.old.items ++ block_text number block.now) }

    // Where memory lacks, a part of them may stand behind what stood there.
    ensures front { KeepsFront out.old.items out.new.items }
{
    print_request(out, number, block.request.bytes())?;
    print_upload(out, &block.upload)?;
    print_head(out, block.end, block.head.bytes())?;
    print_body(out, block.end, block.content.bytes())?;
    print_tap(out, block.tap)
}

/// The lines of a report on the transaction of this number, counted from 1.
pub fn report_block(alloc: Global, number: u64, block: &ReportBlock) -> Result<Octets, NoMemory>
    requires { IsReported block.now.end }
    ensures { IfOk result (λ o. o ≡ block_text number block.now) }
{
    let mut out = Vec::new(alloc);
    add_block(&mut out, number, block)?;
    Ok(Octets::of_vec(out))
}
