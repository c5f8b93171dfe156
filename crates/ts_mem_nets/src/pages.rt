//! Pages of which each client asks for another one, so that nobody gets that of another client unseen.

use crate::links::at_once;
use crate::visit::{Visit, page, unreached};
use std::alloc::Global;
use ts_link::NoMemory;

/// A page of its own: how its client asks for it, what the origin gets and gives, and what the client gets.
#[derive(Drop)]
pub struct OwnPage {
    asks: String,
    sent: String,
    gives: String,
    taken: String,
}

// The page of this number, which stands in its path and in its body.
fn page_of(alloc: Global, number: usize) -> Result<OwnPage, NoMemory> {
    let body = format!(in alloc; "page {number}")?;
    let length = body.len();
    Ok(OwnPage {
        asks: format!(in alloc; "GET /{number} HTTP/1.1\r\nHost: a\r\n\r\n")?,
        sent: format!(in alloc;
            "GET /{number} HTTP/1.1\r\nhost: a\r\nvia: 1.1 tsx\r\nconnection: close\r\n\r\n"
        )?,
        gives: format!(in alloc; "HTTP/1.1 200 OK\r\nContent-Length: {length}\r\n\r\n{body}")?,
        taken: format!(in alloc;
            "HTTP/1.1 200 OK\r\nvia: 1.1 tsx\r\ncontent-length: {length}\r\nconnection: close\r\n\r\n{body}"
        )?,
    })
}

/// So many pages, no two of which are equal.
pub fn pages_of(alloc: Global, count: usize) -> Result<Vec<OwnPage>, NoMemory> {
    let mut pages = Vec::new(alloc);
    for number in 0..count {
        pages.push(page_of(alloc, number)?)?;
    }
    Ok(pages)
}

/// A client that gets this page.
pub fn visit_of(own: &OwnPage) -> Visit<'_> {
    Visit {
        client: at_once(own.asks.as_bytes()),
        origin: Some(at_once(own.gives.as_bytes())),
        sent: own.sent.as_bytes(),
        taken: own.taken.as_bytes(),
        ..page()
    }
}

/// Clients that get these pages.
pub fn visits_of<'a>(alloc: Global, pages: &'a [OwnPage]) -> Result<Vec<Visit<'a>>, NoMemory> {
    let mut visits = Vec::new(alloc);
    for own in pages {
        visits.push(visit_of(own))?;
    }
    Ok(visits)
}

/// The same, where of each three the origin of the second is not reached.
pub fn mixed_visits_of<'a>(
    alloc: Global,
    pages: &'a [OwnPage],
) -> Result<Vec<Visit<'a>>, NoMemory> {
    let mut visits = Vec::new(alloc);
    for (place, own) in pages.iter().enumerate() {
        let visit = visit_of(own);
        visits.push(if place % 3 == 1 {
            unreached(visit)
        } else {
            visit
        })?;
    }
    Ok(visits)
}
