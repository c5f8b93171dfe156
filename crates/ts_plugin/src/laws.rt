//! The law of asking: the plugins of a hook, asked in turn, do what the lines say together.
ghost use Rattle.ts_plugin.specs.Asked.{RefusesDenied, AppliesRules};

/// Where the plugins of a hook are asked one after the other, in the order of their lines, some refuses a
/// host exactly where some line denies it, and the fields become those after all rules of the side. This is a
/// law: the function does nothing.
#[tactic(auto, using(crate::proofs::InTurn::refuses_denied, crate::proofs::InTurn::applies_rules))]
pub fn asked_in_order()
    ensures denied { RefusesDenied }
    ensures ruled { AppliesRules }
{}
