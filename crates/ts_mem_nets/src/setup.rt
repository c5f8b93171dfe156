//! Lines that were read, in the order in which a transaction takes them.
ghost use Rattle.std.specs.Prelude.{IfOk};
ghost use Rattle.std.specs.List.{All};
ghost use Rattle.ts_block.specs.Sent.{HasPlainRules};
ghost use Rattle.ts_config.specs.Rules.{HasPlainRule};
ghost use Rattle.ts_plugin.specs.Lines.{AreOrdered};

use std::alloc::Global;
use ts_config::Setup;
use ts_link::NoMemory;

/// These lines, with those of hook plugins in the order in which they act.
#[tactic(auto, using(crate::proofs::Ordered::plain_in_order, crate::proofs::Ordered::ordered_in_order))]
pub fn in_order(alloc: Global, read: Setup) -> Result<Setup, NoMemory>
    requires { All HasPlainRule read.plugins.items }
    ensures plain { IfOk result HasPlainRules }
    ensures ordered { IfOk result (λ s. AreOrdered s.plugins.items) }
{
    let setup = read.ordered(alloc, true)?;
    Ok(setup)
}
