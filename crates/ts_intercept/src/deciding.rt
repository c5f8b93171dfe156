//! Who answers a request, once its head is whole.
ghost use Rattle.std.specs.Prelude.{◌≡◌, ◌≤◌, length, IfOk};
ghost use Rattle.std.specs.Option.{option_copied};
ghost use Rattle.ts_intercept.specs.Deciding.{Decides, HasRoom};
ghost use Rattle.ts_intercept.specs.Limits.{most_held};
ghost use Rattle.ts_intercept.specs.Served.{line_for};

use crate::answer::answer_of;
use crate::choice::Stage;
use crate::host::{first_for, head_of, host_in};
use std::alloc::Global;
use ts_config::InterceptLine;
use ts_link::NoMemory;
use ts_wire::plugin_host;

// The line that serves a request with this head, if one does.
fn line_for<'a>(
    alloc: Global,
    lines: &'a [InterceptLine],
    head: &[u8],
) -> Result<Option<&'a InterceptLine>, NoMemory>
    ensures { IfOk result (λ line. option_copied line ≡ line_for lines.now head.now) }
{
    let host = plugin_host(alloc, host_in(alloc, head)?)?;
    Ok(first_for(lines, host.bytes()))
}

/// Who answers, by what was written.
pub(crate) fn decide(alloc: Global, lines: &[InterceptLine], text: &[u8]) -> Result<Stage, NoMemory>
    ensures decides { IfOk result (Decides lines.now text.now) }
    ensures room { length text.now ≤ most_held → IfOk result (HasRoom lines.now) }
{
    let Some(head) = head_of(text) else {
        return Ok(Stage::Undecided);
    };
    let Some(line) = line_for(alloc, lines, head)? else {
        return Ok(Stage::HandedOn);
    };
    let answer = answer_of(alloc, &line.kind, head)?;
    Ok(Stage::Served { answer, given: 0 })
}
