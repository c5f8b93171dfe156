//! Addresses of sockets, which are given by number.
ghost use Rattle.std.specs.Prelude.{◌≡◌, IfOk};
ghost use Rattle.ts_net.specs.Addresses.{IsAddressOf, by_number};

use std::alloc::Global;
use std::net::SocketAddr;
use thiserror::Error;
use ts_link::NoMemory;

/// Why a text gives no address.
#[derive(Debug, Drop, Error)]
pub enum AddressFault {
    #[error("NoAddress")]
    NoAddress,
    #[error("NoMemory")]
    NoMemory,
}

// The text with the number of this machine in place of its name.
fn by_number(alloc: Global, text: &[u8]) -> Result<Vec<u8>, NoMemory>
    ensures { IfOk result (λ bytes. bytes.items ≡ by_number text.now) }
{
    let mut bytes = Vec::new(alloc);
    match text.strip_prefix(b"localhost:") {
        Some(port) => {
            bytes.extend_from_slice(b"127.0.0.1:")?;
            bytes.extend_from_slice(port)?;
            Ok(bytes)
        }
        None => {
            bytes.extend_from_slice(text)?;
            Ok(bytes)
        }
    }
}

/// The address and the port that a text writes, as `127.0.0.1:8080` or `[::1]:8080`. The name `localhost`
/// stands for `127.0.0.1`, and no other name for any: `NoAddress` comes exactly where the text writes none.
pub fn address_of(alloc: Global, text: &str) -> Result<SocketAddr, AddressFault>
    ensures { IsAddressOf text.now result }
{
    let Ok(bytes) = by_number(alloc, text.as_bytes()) else {
        return Err(AddressFault::NoMemory);
    };
    match SocketAddr::parse_ascii(bytes.as_slice()) {
        Ok(address) => Ok(address),
        Err(_) => Err(AddressFault::NoAddress),
    }
}
