//! The laws of `generate`: what its configuration means, and that its summary is one text.
ghost use Rattle.std.specs.Prelude.{◌≡◌, []};
ghost use Rattle.ts_config.specs.Value.{Good, config_of};
ghost use Rattle.ts_proxy.specs.Summary.{HaveOneSummary, fixed_config, fixed_lines};

use ts_replay::one_report;

/// The law that the configuration of `generate` is read as its lines, which name no file. The function does
/// nothing.
pub fn fixed_reading()
    ensures { config_of fixed_config ≡ Good fixed_lines [] }
{}

/// The law that three numbers have at most one summary. The function does nothing.
pub fn one_summary()
    ensures { HaveOneSummary }
{
    one_report();
}
