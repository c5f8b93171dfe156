//! The table of the plugins that a transaction asks at its hooks.
ghost use Rattle.std.specs.Prelude.{◌≡◌, [], IfOk, OnOk, OnErr, slice_get};
ghost use Rattle.ts_hooks.specs.Hooks.{with_global, with_session, with_txn, plugins_at, hook_list, Finds};

use crate::hook::Hook;
use std::alloc::Global;
use std::marker::Model;
use ts_link::NoMemory;

/// The plugins of each hook, by their numbers: those of all transactions, those of the session, and those of
/// this transaction.
#[derive(Drop)]
pub struct HookTable {
    global: Vec<(Hook, u32)>,
    session: Vec<(Hook, u32)>,
    txn: Vec<(Hook, u32)>,
}

impl Model for HookTable {
    ghost use Rattle.ts_hooks.specs.Hooks.{HookPlugins};

    ghost Value = { HookPlugins };

    ghost view = { λ t. record
        { global = t.global.items; session = t.session.items; txn = t.txn.items } };
}

// The plugin at this place among those of the hook, or by how many the place is past them.
fn plugin_at(plugins: &[(Hook, u32)], hook: Hook, place: usize) -> Result<u32, usize>
    ensures { Finds (plugins_at hook plugins.now) place result }
{
    let mut left = place;
    for (at, plugin) in plugins {
        if at.is_same(hook) {
            if left == 0 {
                return Ok(*plugin);
            }
            left -= 1;
        }
    }
    Err(left)
}

impl HookTable {
    /// A table with no plugins.
    pub fn new(alloc: Global) -> Result<HookTable, NoMemory>
        ensures { IfOk result (λ t. t ≡ record { global = []; session = []; txn = [] }) }
    {
        Ok(HookTable {
            global: Vec::new(alloc),
            session: Vec::new(alloc),
            txn: Vec::new(alloc),
        })
    }

    /// Adds a plugin of all transactions behind those that were added so.
    pub fn add_global(&mut self, hook: Hook, plugin: u32) -> Result<(), NoMemory>
        ensures ok { OnOk result (self.new ≡ with_global self.old hook plugin) }
        ensures err { OnErr result (self.new ≡ self.old) }
    {
        self.global.push((hook, plugin))?;
        Ok(())
    }

    /// Adds a plugin of the session behind those that were added so.
    pub fn add_session(&mut self, hook: Hook, plugin: u32) -> Result<(), NoMemory>
        ensures ok { OnOk result (self.new ≡ with_session self.old hook plugin) }
        ensures err { OnErr result (self.new ≡ self.old) }
    {
        self.session.push((hook, plugin))?;
        Ok(())
    }

    /// Adds a plugin of this transaction behind those that were added so.
    pub fn add_txn(&mut self, hook: Hook, plugin: u32) -> Result<(), NoMemory>
        ensures ok { OnOk result (self.new ≡ with_txn self.old hook plugin) }
        ensures err { OnErr result (self.new ≡ self.old) }
    {
        self.txn.push((hook, plugin))?;
        Ok(())
    }

    /// The plugin at this place of the hook's list, counted from 0, or nothing at the list's end and past it.
    pub fn next(&self, hook: Hook, place: usize) -> Option<u32>
        ensures { result ≡ slice_get (hook_list self.now hook) place }
    {
        let behind_global = match plugin_at(self.global.as_slice(), hook, place) {
            Ok(plugin) => return Some(plugin),
            Err(left) => left,
        };
        match plugin_at(self.session.as_slice(), hook, behind_global) {
            Ok(plugin) => Some(plugin),
            Err(left) => plugin_at(self.txn.as_slice(), hook, left).ok(),
        }
    }
}
