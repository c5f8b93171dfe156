//! The block of a transaction, from all that its two links give: what a transaction does over events and
//! pieces, done at once.
ghost use Rattle.std.specs.Prelude.{◌≡◌, ◌≢◌, ◌⊎◌, [], true, false, IfOk, Ok};
ghost use Rattle.ts_config.specs.Bodies.{compose_lines, is_early};
ghost use Rattle.ts_block.specs.Heads.{is_refused_status};
ghost use Rattle.ts_block.specs.Relayed.{asks_head, framing_of, if_body};
ghost use Rattle.ts_block.specs.Finding.{IsOver, IsCut};
ghost use Rattle.ts_block.specs.Block.{IsGood, request_with, request_text, own_text, own_block};
ghost use Rattle.ts_block.specs.Block.{silent_block, lines_for, body_lines, framing_for, relayed_with};
ghost use Rattle.ts_block.specs.Block.{relayed_head, relayed_block, BodySays};
ghost use Rattle.ts_block.specs.Block.{AnswerSays, DialSays, VerdictSays, IsBlock, HasOneBlock, EarlyIsOfAll};
ghost use Rattle.ts_block.specs.Block.{HasOneRequest, BlocksHaveRequest};

use crate::bodies::{compose, is_early};
use crate::content::is_acted_on;
use crate::framing::{
    asks_head, client_framing, framing_between, length_told, mode_of, reads_chunks,
};
use crate::heads::{find_body, find_final, find_request, is_refused_status};
use crate::own_answer::{OwnStatus, own_fields};
use crate::rules::{apply_rules, is_denied};
use std::alloc::Global;
use ts_config::{Setup, Side};
use ts_hooks::TxnEnd;
use ts_link::{NoMemory, Octets};
use ts_wire::{
    BodyState, ClientFraming, Fields, Framing, Mode, RequestHead, ResponseHead, Verdict,
    check_request, client_head, forward_fields, origin_head, plugin_host,
};

/// What a transaction makes of all bytes of both its links: the head that the origin gets, how it ends, and
/// the head that the client gets, with the mode of its body and the body without its frames. Texts are empty
/// where there are none, and so is the body of a transaction that does not end whole. A report shows it as
/// a `ReportBlock` of `ts_record`.
#[derive(Drop)]
pub struct Block {
    pub request: Octets,
    pub end: TxnEnd,
    pub head: Octets,
    pub mode: Mode,
    pub body: Octets,
}

/// The head that the origin gets, with these fields.
pub fn request_with(
    alloc: Global,
    head: &RequestHead,
    target: &Octets,
    host: &Octets,
    fields: &Fields,
) -> Result<Octets, NoMemory>
    ensures { IfOk result (λ text. text ≡ request_with head.now target.now host.now fields.now) }
{
    origin_head(alloc, head, target.bytes(), host.bytes(), fields)
}

/// The head that the origin gets, after the header rules of requests.
pub fn request_text(
    alloc: Global,
    setup: &Setup,
    head: &RequestHead,
    target: &Octets,
    host: &Octets,
) -> Result<Octets, NoMemory>
    ensures { IfOk result (λ text. text ≡ request_text setup.now head.now target.now host.now) }
{
    let kept = forward_fields(alloc, &head.fields)?;
    let fields = apply_rules(Side::Request, setup.plugins.as_slice(), kept)?;
    request_with(alloc, head, target, host, &fields)
}

/// The head of an answer of the proxy's own, after the header rules of responses.
pub fn own_text(alloc: Global, setup: &Setup, status: OwnStatus) -> Result<Octets, NoMemory>
    ensures { IfOk result (λ text. text ≡ own_text setup.now status) }
{
    let fields = apply_rules(Side::Response, setup.plugins.as_slice(), own_fields(alloc)?)?;
    status.head(alloc, &fields)
}

/// The block whose answer is the proxy's own.
fn own_block(
    alloc: Global,
    setup: &Setup,
    request: Octets,
    status: OwnStatus,
    to_head: bool,
) -> Result<Block, NoMemory>
    ensures { IfOk result (λ b. b ≡ own_block setup.now request status to_head) }
{
    let head = own_text(alloc, setup, status)?;
    let body = Octets::copy_of(alloc, status.sent(to_head))?;
    Ok(Block {
        request,
        end: TxnEnd::Whole,
        head,
        mode: Mode::Plain,
        body,
    })
}

/// No bytes.
fn nothing(alloc: Global) -> Octets
    ensures { result ≡ [] }
{
    Octets::of_vec(Vec::new(alloc))
}

/// The block of a client that gave nothing.
fn silent_block(alloc: Global) -> Block
    ensures { result ≡ silent_block }
{
    Block {
        request: nothing(alloc),
        end: TxnEnd::Whole,
        head: nothing(alloc),
        mode: Mode::Plain,
        body: nothing(alloc),
    }
}

/// How the body of a response is framed for the client.
pub fn framing_for(setup: &Setup, request: &RequestHead, head: &ResponseHead) -> ClientFraming
    ensures { result ≡ framing_for setup.now request.now head.now }
{
    client_framing(
        framing_between(request, head),
        head.status,
        length_told(&head.fields),
        is_acted_on(
            setup.transforms.as_slice(),
            head.status,
            head.fields.items(),
        ),
        reads_chunks(request),
    )
}

/// The head that the client gets of a response that is passed on, with these fields.
pub fn relayed_with(
    alloc: Global,
    setup: &Setup,
    request: &RequestHead,
    head: &ResponseHead,
    fields: &Fields,
) -> Result<Octets, NoMemory>
    ensures { IfOk result (λ text. text ≡ relayed_with setup.now request.now head.now fields.now) }
{
    let framing = framing_for(setup, request, head);
    let reason = head.reason.bytes();
    client_head(
        alloc,
        head.status,
        reason,
        fields,
        Some(head.minor),
        framing,
    )
}

/// The head that the client gets of a response that is passed on, after the header rules of responses.
pub fn relayed_head(
    alloc: Global,
    setup: &Setup,
    request: &RequestHead,
    head: &ResponseHead,
) -> Result<Octets, NoMemory>
    ensures { IfOk result (λ text. text ≡ relayed_head setup.now request.now head.now) }
{
    let kept = forward_fields(alloc, &head.fields)?;
    let fields = apply_rules(Side::Response, setup.plugins.as_slice(), kept)?;
    relayed_with(alloc, setup, request, head, &fields)
}

/// What the lines make of a body: nothing of one that is not there.
fn body_of(
    alloc: Global,
    setup: &Setup,
    framing: Framing,
    head: &ResponseHead,
    body: Vec<u8>,
) -> Result<Vec<u8>, NoMemory>
    ensures { IfOk result (λ made.
        made.items ≡ compose_lines (if_body framing (lines_for setup.now head.now)) body.items) }
{
    match framing {
        Framing::Nothing => Ok(body),
        _ => compose(
            alloc,
            setup.transforms.as_slice(),
            head.status,
            head.fields.items(),
            body,
        ),
    }
}

/// The block of a body that was sent whole.
fn whole(
    alloc: Global,
    setup: &Setup,
    request: Octets,
    asked: &RequestHead,
    head: &ResponseHead,
    body: Vec<u8>,
) -> Result<Block, NoMemory>
    ensures { IfOk result (λ b. b ≡ relayed_block setup.now request asked.now head.now TxnEnd.Whole
        (compose_lines (body_lines setup.now asked.now head.now) body.items)) }
{
    let text = relayed_head(alloc, setup, asked, head)?;
    let mode = mode_of(framing_for(setup, asked, head));
    let made = body_of(alloc, setup, framing_between(asked, head), head, body)?;
    Ok(Block {
        request,
        end: TxnEnd::Whole,
        head: text,
        mode,
        body: Octets::of_vec(made),
    })
}

/// Whether one of the lines finishes early on this much of a body: none does on one that is not there.
fn finishes_early(
    alloc: Global,
    setup: &Setup,
    framing: Framing,
    head: &ResponseHead,
    body: &[u8],
) -> Result<bool, NoMemory>
    ensures { IfOk result (λ early.
        early ≡ is_early (if_body framing (lines_for setup.now head.now)) body.now) }
{
    match framing {
        Framing::Nothing => Ok(false),
        _ => is_early(
            alloc,
            setup.transforms.as_slice(),
            head.status,
            head.fields.items(),
            Vec::from_slice(alloc, body)?,
        ),
    }
}

/// The block of a body that did not end.
fn short(
    alloc: Global,
    setup: &Setup,
    request: Octets,
    asked: &RequestHead,
    head: &ResponseHead,
    end: TxnEnd,
) -> Result<Block, NoMemory>
    ensures { IfOk result (λ b. b ≡ relayed_block setup.now request asked.now head.now end []) }
{
    let text = relayed_head(alloc, setup, asked, head)?;
    let mode = mode_of(framing_for(setup, asked, head));
    Ok(Block {
        request,
        end,
        head: text,
        mode,
        body: nothing(alloc),
    })
}

/// Whether a body broke its framing.
fn is_bad(state: BodyState) -> bool
    ensures bad { result ≡ true → state ≡ BodyState.Bad }
    ensures good { result ≡ false → state ≢ BodyState.Bad }
{
    match state {
        BodyState::Bad => true,
        BodyState::Ended => false,
        BodyState::Unfinished => false,
    }
}

/// Whether a body that is this far ends with its bytes.
fn is_over(framing: Framing, state: BodyState) -> bool
    ensures over { result ≡ true → IsOver framing state }
    ensures cut { result ≡ false → state ≢ BodyState.Bad → IsCut framing state }
{
    match state {
        BodyState::Ended => true,
        BodyState::Bad => false,
        BodyState::Unfinished => match framing {
            Framing::UntilClose => true,
            Framing::Nothing => false,
            Framing::Sized(_) => false,
            Framing::Chunked => false,
            Framing::Faulty => false,
        },
    }
}

/// The block whose answer is the origin's, by the body.
#[tactic(auto, using(crate::proofs::Saying::body_says))]
fn relayed(
    alloc: Global,
    setup: &Setup,
    request: Octets,
    asked: &RequestHead,
    head: &ResponseHead,
    rest: &[u8],
) -> Result<Block, NoMemory>
    requires { IsGood asked.now head.now }
    ensures { IfOk result (BodySays setup.now request asked.now head.now rest.now) }
{
    let framing = framing_between(asked, head);
    let (body, state) = find_body(alloc, framing, rest)?;
    if is_over(framing, state) {
        let block = whole(alloc, setup, request, asked, head, body)?;
        return Ok(block);
    }
    let early = finishes_early(alloc, setup, framing, head, &body)?;
    if early {
        let block = whole(alloc, setup, request, asked, head, body)?;
        return Ok(block);
    }
    if is_bad(state) {
        let block = short(alloc, setup, request, asked, head, TxnEnd::OriginBad)?;
        return Ok(block);
    }
    let block = short(alloc, setup, request, asked, head, TxnEnd::OriginCut)?;
    Ok(block)
}

/// Whether a response can be passed on.
pub fn is_good(request: &RequestHead, head: &ResponseHead) -> bool
    ensures good { result ≡ true → IsGood request.now head.now }
    ensures status { result ≡ false → (is_refused_status head.now.status ≡ true)
        ⊎ (framing_of request.now head.now ≡ Framing.Faulty) }
{
    if is_refused_status(head.status) {
        return false;
    }
    match framing_between(request, head) {
        Framing::Faulty => false,
        Framing::Nothing => true,
        Framing::Sized(_) => true,
        Framing::Chunked => true,
        Framing::UntilClose => true,
    }
}

/// The block of an origin that gave no response that can be passed on.
fn lacking(
    alloc: Global,
    setup: &Setup,
    request: Octets,
    asked: &RequestHead,
) -> Result<Block, NoMemory>
    ensures { IfOk result (λ b.
        b ≡ own_block setup.now request OwnStatus.BadGateway (asks_head asked.now)) }
{
    own_block(
        alloc,
        setup,
        request,
        OwnStatus::BadGateway,
        asks_head(asked),
    )
}

/// The block of a request that was sent, by the origin's head.
#[tactic(auto, using(crate::proofs::Saying::answer_says))]
fn answered(
    alloc: Global,
    setup: &Setup,
    request: Octets,
    asked: &RequestHead,
    origin: &[u8],
) -> Result<Block, NoMemory>
    ensures { IfOk result (AnswerSays setup.now request asked.now origin.now) }
{
    let Some((head, used)) = find_final(alloc, origin)? else {
        let block = lacking(alloc, setup, request, asked)?;
        return Ok(block);
    };
    if is_good(asked, &head) {
        let block = relayed(alloc, setup, request, asked, &head, origin.split_at(used).1)?;
        return Ok(block);
    }
    let block = lacking(alloc, setup, request, asked)?;
    Ok(block)
}

/// The block of a request that goes to an origin.
#[tactic(auto, using(crate::proofs::Saying::says_refused_upload, crate::proofs::Saying::says_taken_upload))]
fn sent(
    alloc: Global,
    setup: &Setup,
    request: Octets,
    asked: &RequestHead,
    refuses: bool,
    origin: &[u8],
) -> Result<Block, NoMemory>
    ensures { IfOk result
        (DialSays setup.now true (refuses ≡ true) origin.now true request asked.now) }
{
    if refuses {
        let block = own_block(
            alloc,
            setup,
            request,
            OwnStatus::BadRequest,
            asks_head(asked),
        )?;
        return Ok(block);
    }
    let block = answered(alloc, setup, request, asked, origin)?;
    Ok(block)
}

/// The block of a request that no deny line denies, by the origin.
#[tactic(auto, using(crate::proofs::Saying::says_dialed, crate::proofs::Saying::says_not_dialed))]
fn allowed(
    alloc: Global,
    setup: &Setup,
    request: Octets,
    asked: &RequestHead,
    dialed: bool,
    refuses: bool,
    origin: &[u8],
) -> Result<Block, NoMemory>
    ensures { IfOk result
        (DialSays setup.now dialed (refuses ≡ true) origin.now dialed request asked.now) }
{
    if dialed {
        let block = sent(alloc, setup, request, asked, refuses, origin)?;
        return Ok(block);
    }
    let status = OwnStatus::BadGateway;
    let block = own_block(alloc, setup, nothing(alloc), status, asks_head(asked))?;
    Ok(block)
}

/// The block of a request that passed the check, by the deny lines.
#[tactic(auto, using(crate::proofs::Saying::says_denied, crate::proofs::Saying::says_allowed))]
fn passed(
    alloc: Global,
    setup: &Setup,
    asked: &RequestHead,
    target: &Octets,
    host: &Octets,
    dialed: bool,
    refuses: bool,
    origin: &[u8],
) -> Result<Block, NoMemory>
    ensures { IfOk result (VerdictSays setup.now dialed (refuses ≡ true) origin.now
        (Ok (target.now, host.now)) asked.now) }
{
    let name = plugin_host(alloc, host.bytes())?;
    if is_denied(setup.plugins.as_slice(), name.bytes()) {
        let status = OwnStatus::Forbidden;
        let block = own_block(alloc, setup, nothing(alloc), status, asks_head(asked))?;
        return Ok(block);
    }
    let request = request_text(alloc, setup, asked, target, host)?;
    let block = allowed(alloc, setup, request, asked, dialed, refuses, origin)?;
    Ok(block)
}

/// The block of all bytes that the client and the origin give, each followed by its end. `dialed` says
/// whether there is an origin, and `refuses` whether its link refuses the upload of this client.
#[tactic(auto, using(crate::proofs::Saying::head_says))]
pub fn block_of(
    alloc: Global,
    setup: &Setup,
    client: &[u8],
    dialed: bool,
    refuses: bool,
    origin: &[u8],
) -> Result<Block, NoMemory>
    ensures { IfOk result (IsBlock setup.now dialed (refuses ≡ true) origin.now client.now) }
{
    if client.is_empty() {
        return Ok(silent_block(alloc));
    }
    let Some(head) = find_request(alloc, client)? else {
        let block = own_block(alloc, setup, nothing(alloc), OwnStatus::BadRequest, false)?;
        return Ok(block);
    };
    match check_request(alloc, &head)? {
        Verdict::Pass { target, host } => {
            let block = passed(alloc, setup, &head, &target, &host, dialed, refuses, origin)?;
            Ok(block)
        }
        Verdict::Refuse(status) => {
            let status = OwnStatus::of_refusal(status);
            let block = own_block(alloc, setup, nothing(alloc), status, asks_head(&head))?;
            Ok(block)
        }
    }
}

/// The law that all bytes of both sides have at most one block. The function does nothing.
pub fn one_block()
    ensures { HasOneBlock }
{}

/// The law that the block of lines that finish early on a front of the origin's bytes is that of all of them.
/// The function does nothing.
pub fn early_block()
    ensures { EarlyIsOfAll }
{}

/// The law that all bytes of a client say at most one request, which is that of the block of all bytes. The
/// function does nothing.
pub fn one_sent_request()
    ensures one { HasOneRequest }
    ensures block { BlocksHaveRequest }
{}
