//! The plugin lines that change a transaction: a deny list of sites, and rules for header fields.
ghost use Rattle.std.specs.Prelude.{◌≡◌, ℕ, List, slice_get};
ghost use Rattle.std.specs.Option.{option_copied};

use http_header::{HeaderName, HeaderValue};
use std::marker::Model;
use ts_link::Octets;

/// Which head a header rule changes.
#[derive(Clone, Copy)]
pub enum Side {
    Request,
    Response,
}

/// What a header rule does to the fields of its side.
#[derive(Drop)]
pub enum Rule {
    /// Removes all fields of the name, and puts one at the end.
    Set {
        name: HeaderName,
        value: HeaderValue,
    },
    /// Puts a field at the end.
    Add {
        name: HeaderName,
        value: HeaderValue,
    },
    /// Removes all fields of the name.
    Remove {
        name: HeaderName,
    },
}

/// The sites of a deny list, in the order of the line.
#[derive(Drop)]
pub struct Sites {
    listed: Vec<Octets>,
}

impl Model for Sites {
    ghost Value = { List (List ℕ) };

    ghost view = { λ s. s.listed.items };
}

impl Sites {
    /// These sites.
    pub fn of_vec(listed: Vec<Octets>) -> Sites
        ensures { result ≡ listed.items }
    {
        Sites { listed }
    }

    /// The site at this place, counted from 0, if there are so many.
    pub fn site(&self, k: usize) -> Option<&[u8]>
        ensures { option_copied result ≡ slice_get self.now k }
    {
        match self.listed.get(k) {
            Some(site) => Some(site.bytes()),
            None => None,
        }
    }

    /// All sites.
    pub fn sites(&self) -> &[Octets]
        ensures { result.now ≡ self.now }
    {
        self.listed.as_slice()
    }
}

/// A plugin that is called at hooks of a transaction.
#[derive(Drop)]
pub enum PluginLine {
    /// Refuses requests for these hosts.
    Deny { sites: Sites },
    /// Changes the fields of requests or of responses.
    Header { side: Side, rule: Rule },
    /// The same at the hooks of a session: it has no effect without sessions.
    SessionHeader { side: Side, rule: Rule },
}
