//! What the hook plugin lines of a configuration do: deny lists refuse hosts, header rules change fields.
ghost use Rattle.std.specs.Prelude.{◌≡◌, IfOk};
ghost use Rattle.std.specs.Str.{str_eq_ignore_ascii_case};
ghost use Rattle.ts_block.specs.Rules.{apply_rule, after_rule, after_line, ruled, is_side, is_site, denies, is_denied};

use ts_config::{PluginLine, Rule, Side, Sites};
use ts_link::NoMemory;
use ts_wire::{Field, Fields};

/// The fields after one rule.
pub fn apply_rule(mut fields: Fields, rule: &Rule) -> Result<Fields, NoMemory>
    ensures { IfOk result (λ after. after ≡ apply_rule rule.now fields) }
{
    match rule {
        Rule::Set { name, value } => {
            let field = Field {
                name: name.clone()?,
                value: value.clone()?,
            };
            fields.remove_all(name);
            fields.push(field)?;
            Ok(fields)
        }
        Rule::Add { name, value } => {
            let field = Field {
                name: name.clone()?,
                value: value.clone()?,
            };
            fields.push(field)?;
            Ok(fields)
        }
        Rule::Remove { name } => {
            fields.remove_all(name);
            Ok(fields)
        }
    }
}

fn is_side(a: Side, b: Side) -> bool
    ensures { result ≡ is_side a b }
{
    match a {
        Side::Request => match b {
            Side::Request => true,
            Side::Response => false,
        },
        Side::Response => match b {
            Side::Request => false,
            Side::Response => true,
        },
    }
}

// The fields of one side's head after a rule, which changes them where it is of that side.
fn after_rule(side: Side, fields: Fields, ruled: Side, rule: &Rule) -> Result<Fields, NoMemory>
    ensures { IfOk result (λ after. after ≡ after_rule side fields ruled rule.now) }
{
    if is_side(side, ruled) {
        apply_rule(fields, rule)
    } else {
        Ok(fields)
    }
}

// The fields of one side's head after a line: only a header rule of that side changes them.
fn after_line(side: Side, fields: Fields, line: &PluginLine) -> Result<Fields, NoMemory>
    ensures { IfOk result (λ after. after ≡ after_line side fields line.now) }
{
    match line {
        PluginLine::Header { side: ruled, rule } => after_rule(side, fields, *ruled, rule),
        PluginLine::SessionHeader { side: ruled, rule } => after_rule(side, fields, *ruled, rule),
        PluginLine::Deny { .. } => Ok(fields),
    }
}

/// The fields of one side's head after all header rules of that side, in the order of their lines.
pub fn apply_rules(side: Side, lines: &[PluginLine], fields: Fields) -> Result<Fields, NoMemory>
    ensures { IfOk result (λ after. after ≡ ruled side lines.now fields) }
{
    let mut changed = fields;
    for line in lines {
        changed = after_line(side, changed, line)?;
    }
    Ok(changed)
}

fn is_same_site(site: &[u8], host: &[u8]) -> bool
    ensures { result ≡ str_eq_ignore_ascii_case site.now host.now }
{
    site.eq_ignore_ascii_case(host)
}

/// Whether the host is one of the sites but for letter case.
pub fn is_site(sites: &Sites, host: &[u8]) -> bool
    ensures { result ≡ is_site host.now sites.now }
{
    let listed = sites.sites();
    for site in listed {
        if is_same_site(site.bytes(), host) {
            return true;
        }
    }
    false
}

fn denies(line: &PluginLine, host: &[u8]) -> bool
    ensures { result ≡ denies host.now line.now }
{
    match line {
        PluginLine::Deny { sites } => is_site(sites, host),
        PluginLine::Header { .. } | PluginLine::SessionHeader { .. } => false,
    }
}

/// Whether some deny line denies the host, which is in the form that plugins see.
pub fn is_denied(lines: &[PluginLine], host: &[u8]) -> bool
    ensures { result ≡ is_denied lines.now host.now }
{
    for line in lines {
        if denies(line, host) {
            return true;
        }
    }
    false
}
