//! The lines of a report on one transaction, and on two.
ghost use Rattle.std.specs.Prelude.{◌≡◌};
ghost use Rattle.ts_hooks.specs.declared.txn_end.TxnEnd.TheVariants as TxnEnd;
ghost use Rattle.ts_record.specs.Report.{IsReported};

use std::alloc::Global;
use std::process::Abort;
use ts_hooks::TxnEnd;
use ts_link::Octets;
use ts_record::{REPORT_END, ReportBlock, add_block, begin_report, report_block};

/// Why a test has no outcome.
const MEMORY: &str = "memory lacks";

/// Octets with these bytes.
fn octets(rt: &(impl AllocGlobal + Abort), bytes: &[u8]) -> Octets {
    Octets::copy_of(rt.alloc(), bytes).expect(rt, MEMORY)
}

/// What an exchange came to that ended so.
fn exchange(rt: &(impl AllocGlobal + Abort), end: TxnEnd) -> ReportBlock
    ensures { result.end ≡ end }
{
    let request = b"GET / HTTP/1.1\r\nhost: a\r\nvia: 1.1 tsx\r\nconnection: close\r\n\r\n";
    let head =
        b"HTTP/1.1 200 OK\r\nvia: 1.1 tsx\r\ntransfer-encoding: chunked\r\nconnection: close\r\n\r\n";
    ReportBlock {
        request: octets(rt, request),
        upload: None,
        end,
        head: octets(rt, head),
        content: octets(rt, b"<abc"),
        tap: None,
    }
}

/// What the report says of the transaction of this number, which is one exchange with this end.
fn report_on(rt: &(impl AllocGlobal + Abort), number: u64, end: TxnEnd) -> Octets
    requires { IsReported end }
{
    let block = exchange(rt, end);
    report_block(rt.alloc(), number, &block).expect(rt, MEMORY)
}

/// How many bytes the report has, with its first and its last line, of 13 and 5 bytes.
fn length_of(rt: &(impl AllocGlobal + Abort), number: u64, end: TxnEnd) -> usize
    requires { IsReported end }
{
    let lines = report_on(rt, number, end);
    13 + lines.bytes().len() + 5
}

#[test]
fn blocks_of_a_report(rt: HostRuntime) {
    let whole = report_on(&rt, 1, TxnEnd::Whole);
    let text = b"txn 1\n\
request 60\nGET / HTTP/1.1\r\nhost: a\r\nvia: 1.1 tsx\r\nconnection: close\r\n\r\n\n\
end whole\n\
head 80\nHTTP/1.1 200 OK\r\nvia: 1.1 tsx\r\ntransfer-encoding: chunked\r\nconnection: close\r\n\r\n\n\
body 4\n<abc\n";
    assert_eq!(rt; whole.bytes(), text.as_slice());
    let lengths = [
        length_of(&rt, 1, TxnEnd::Whole),
        length_of(&rt, 1, TxnEnd::OriginCut),
        length_of(&rt, 4000, TxnEnd::OriginBad),
        length_of(&rt, 1, TxnEnd::ClientFault),
    ];
    assert_eq!(rt; lengths, [207, 193, 196, 194]);
}

/// What a transaction came to that sent nothing to either side.
fn silent(alloc: Global) -> ReportBlock
    ensures { result.end ≡ TxnEnd.Whole }
{
    ReportBlock {
        request: Octets::of_vec(Vec::new(alloc)),
        upload: None,
        end: TxnEnd::Whole,
        head: Octets::of_vec(Vec::new(alloc)),
        content: Octets::of_vec(Vec::new(alloc)),
        tap: None,
    }
}

#[test]
fn blocks_behind_one_another(rt: HostRuntime) {
    let silent = silent(rt.alloc());
    let mut report = begin_report(rt.alloc(), 2).expect(&rt, MEMORY);
    add_block(&mut report, 1, &silent).expect(&rt, MEMORY);
    add_block(&mut report, 2, &silent).expect(&rt, MEMORY);
    report.extend_from_slice(REPORT_END).expect(&rt, MEMORY);
    let text = b"tsx-report 2\n\
txn 1\nrequest 0\n\nend whole\nhead 0\n\nbody 0\n\n\
txn 2\nrequest 0\n\nend whole\nhead 0\n\nbody 0\n\n\
done\n";
    assert_eq!(rt; report.as_slice(), text.as_slice());
}
