//! Copies of hook plugin lines.

ghost use Rattle.std.specs.Prelude.{◌≡◌, IfOk};

use std::alloc::Global;
use ts_config::{PluginLine, Rule, Sites};
use ts_link::{NoMemory, Octets};

// A copy of the sites of a deny list.
#[tactic(auto, using(crate::proofs::Passed::one_more, crate::proofs::Passed::all_passed))]
fn copy_sites(alloc: Global, sites: &Sites) -> Result<Sites, NoMemory>
    ensures { IfOk result (λ copy. copy ≡ sites.now) }
{
    let mut copied = Vec::new(alloc);
    while let Some(site) = sites.site(copied.len()) {
        copied.push(Octets::copy_of(alloc, site)?)?;
    }
    Ok(Sites::of_vec(copied))
}

// A copy of a rule.
fn copy_rule(rule: &Rule) -> Result<Rule, NoMemory>
    ensures { IfOk result (λ copy. copy ≡ rule.now) }
{
    match rule {
        Rule::Set { name, value } => Ok(Rule::Set {
            name: name.clone()?,
            value: value.clone()?,
        }),
        Rule::Add { name, value } => Ok(Rule::Add {
            name: name.clone()?,
            value: value.clone()?,
        }),
        Rule::Remove { name } => Ok(Rule::Remove {
            name: name.clone()?,
        }),
    }
}

/// A copy of a line.
pub fn copy_line(alloc: Global, line: &PluginLine) -> Result<PluginLine, NoMemory>
    ensures { IfOk result (λ copy. copy ≡ line.now) }
{
    match line {
        PluginLine::Deny { sites } => Ok(PluginLine::Deny {
            sites: copy_sites(alloc, sites)?,
        }),
        PluginLine::Header { side, rule } => Ok(PluginLine::Header {
            side: *side,
            rule: copy_rule(rule)?,
        }),
        PluginLine::SessionHeader { side, rule } => Ok(PluginLine::SessionHeader {
            side: *side,
            rule: copy_rule(rule)?,
        }),
    }
}
