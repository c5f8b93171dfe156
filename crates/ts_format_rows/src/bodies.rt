//! Bodies: what the lines of a configuration make of them, whose files hold one byte.
ghost use Rattle.std.specs.Prelude.{◌≡◌, false, IfOk};

use crate::escapes::{shown, told};
use crate::failure::Failure;
use std::alloc::Global;
use ts_config::{ConfigRefusal, Setup, TransformLine, read_config};
use ts_link::{NoMemory, Octets};
use ts_stock::Stock;
use ts_transform::{Chain, Transform};

// The text of each file that a line names.
const FILE: &[u8] = b">";

// How often each stage of a chain is called at most.
const MOST_ROUNDS: u32 = 1_000;

fn fill_all(alloc: Global, setup: &mut Setup) -> Result<(), NoMemory> {
    for k in 0..setup.transforms.len() {
        let text = Octets::copy_of(alloc, FILE)?;
        if let Some(TransformLine::Append { .. }) = setup.transforms.get(k) {
            setup.fill(k, text);
        }
    }
    Ok(())
}

// The chain of these lines, to which nothing was given.
fn chain_of(alloc: Global, lines: &[TransformLine]) -> Result<Chain<Stock>, NoMemory>
    ensures { IfOk result (λ chain. chain.given ≡ false) }
{
    let mut parts = Vec::new(alloc);
    for line in lines {
        parts.push(Stock::fresh(alloc, line)?)?;
    }
    Chain::make(alloc, parts)
}

// Lets each stage work once.
fn pump_each(chain: &mut Chain<Stock>) -> Result<(), NoMemory> {
    for stage in 0..chain.stages() {
        if stage < chain.stages() {
            chain.pump(stage)?;
        }
    }
    Ok(())
}

// Takes the first bytes that wait for the client.
fn take_block(chain: &mut Chain<Stock>, out: &mut Vec<u8>) -> Result<(), NoMemory> {
    if let Some(block) = chain.out_block() {
        let count = block.len();
        out.extend_from_slice(block)?;
        chain.take(count);
    }
    Ok(())
}

// Adds all that the client gets.
fn drain(chain: &mut Chain<Stock>, out: &mut Vec<u8>) -> Result<(), NoMemory> {
    for _ in 0..MOST_ROUNDS {
        pump_each(chain)?;
        take_block(chain, out)?;
        if chain.is_finished() {
            return Ok(());
        }
    }
    Ok(())
}

// Adds what the lines make of a body.
fn pass(
    alloc: Global,
    lines: &[TransformLine],
    body: &[u8],
    out: &mut Vec<u8>,
) -> Result<(), NoMemory> {
    let mut chain = chain_of(alloc, lines)?;
    chain.give(body)?;
    chain.give_end();
    drain(&mut chain, out)
}

// What the lines of a setup make of a body.
fn passed(alloc: Global, setup: &mut Setup, body: &[u8]) -> Result<Vec<u8>, Failure> {
    let mut out = Vec::new(alloc);
    fill_all(alloc, setup)?;
    pass(alloc, setup.transforms.as_slice(), body, &mut out)?;
    shown(alloc, out.as_slice())
}

/// The line of a body behind a configuration.
pub fn body_line(alloc: Global, config: &[u8], body: &[u8]) -> Result<Vec<u8>, Failure> {
    match read_config(alloc, config) {
        Ok(mut setup) => passed(alloc, &mut setup, body),
        Err(ConfigRefusal::Fault(fault)) => told(alloc, "! line", fault.line, ""),
        Err(ConfigRefusal::NoMemory) => Err(Failure),
    }
}
