//! Where a transaction's ends are made: what it is between plain links, the tag of its slot, the groups of its
//! plugins, and what is left of it.
#![tactic(auto)]

mod exchange;
mod plugins;
mod row;

pub use exchange::{
    Exchange, ExchangeSetting, ExchangeTag, Promise, has_ended, has_origin, make_exchange,
    take_apart,
};
pub use plugins::{Tagged, plugins_of};
pub use row::{GroupRow, RowTag, RowWorld, add_plugins, make_group};
